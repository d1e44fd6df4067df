// The chain of lines in screen memory: where a row starts, how many cells it can have, and what its
// link says of the row after it. Document 01, "The chain of lines".
#![tactic(auto)]

pub mod pages;
pub mod places;
mod search;

ghost use Rattle.std.specs.Prelude.{◌≡◌};
ghost use Rattle.chain.specs.Chain.{byte_at, wide, first};

pub use pages::{Memory, Page};
pub use places::Place;

// There are always so many rows.
pub const ROWS: usize = 25;
// The first of them, which show where nothing scrolls.
pub const ROWS_AT_REST: usize = 24;
// The byte after a row's last cell.
pub const TERMINATOR: u8 = 0xFF;
// The one kind that is not wide, in bits 1 and 0.
const NORMAL: u8 = 3;

pub const TOP_HALF: u8 = 1;

pub const BOTTOM_HALF: u8 = 0;

// Where a row starts, and its kind.
#[derive(Clone, Copy)]
pub struct Head {
    pub start: Place,
    pub kind: u8,
}

impl Head {
    // Where row 0 starts, and its kind.
    pub fn first() -> Head
        ensures { result ≡ first }
    {
        Head {
            start: Place::new(0),
            kind: NORMAL,
        }
    }
}

// The byte at a place of screen or attribute memory.
#[tactic(auto, unfolding(crate::specs::Chain::byte_at))]
pub fn byte_at(memory: &Memory, place: Place) -> u8
    ensures { result ≡ byte_at memory.now place }
{
    memory[place.at()]
}

// Whether a kind is one of the three wide ones.
pub fn is_wide(kind: u8) -> bool
    ensures { result ≡ wide kind }
{
    kind % 4 < NORMAL
}
