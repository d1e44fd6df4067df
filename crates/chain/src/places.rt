// A place in screen memory, or in attribute memory beside it.

ghost use Rattle.std.specs.Prelude.{◌+◌, ◌-◌, ◌%◌, ◌<◌, min, ◌≡◌};
ghost use Rattle.chain.specs.Places.{places};

use std::marker::Model;

// A place of two bytes leaves a row's head next to no padding, which a compiler would copy from row to row, through
// memory.
#[derive(Clone, Copy)]
pub struct Place {
    at: u16,
}

impl Model for Place {
    ghost use Rattle.std.specs.Prelude.{ℕ, ◌<◌};
    ghost use Rattle.chain.specs.Places.{places};

    ghost Value = { ℕ };

    ghost view = { λ place. place.at };

    ghost invariant = { λ place. place.at < places };

    ghost inverse = { λ n. record { at = n } };
}

impl Place {
    // The place of a number, taken modulo 4,096.
    pub fn new(number: usize) -> Place
        ensures { result ≡ number % places }
    {
        Place {
            at: (number % lent::SCREEN_BYTES) as u16,
        }
    }

    // Its number.
    pub fn at(self) -> usize
        ensures value { result ≡ self }
        ensures within { result < places }
    {
        self.at as usize
    }

    // The place so many cells further on: past place 4095 it goes on at place 0.
    pub fn after(self, cells: usize) -> Place
        ensures { result ≡ (self + cells) % places }
    {
        Place::new(self.at() + cells % lent::SCREEN_BYTES)
    }

    // How many of so many bytes, from this place on, come before the end of memory.
    pub fn before_the_end(self, bytes: usize) -> usize
        ensures { result ≡ min bytes (places - self) }
    {
        bytes.min(lent::SCREEN_BYTES - self.at())
    }
}
