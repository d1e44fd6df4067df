// By what a call is refused: document 01, "Numbers of refusal"; document 02 has the numbers from 7 up.
ghost use Rattle.std.specs.Prelude.{◌≡◌};
ghost use Rattle.lent.specs.Refusals.{number_of, answered};

use std::fmt;

// What a call that is accepted answers in place of a refusal's number.
pub const ACCEPTED: u8 = 0;

#[derive(Clone, Copy, Debug, PartialEq, Eq, Hash)]
pub enum Refusal {
    // A lent buffer's length differs from the list.
    Length = 1,
    // The 8088's address lies in none of its three ranges.
    Address = 2,
    // The port is none of 04, 0A, 0C, 10C.
    Port = 3,
    // The code is not in that port's list.
    Code = 4,
    // A row over 24, a column over 131, a scan outside 1 to 10, a shadow place over 255.
    Place = 5,
    // Bits 6 and 7 of 0A both rise in one write.
    Edges = 6,
    // The Z80 is held.
    Z80Held = 7,
    // The 8088 is in reset.
    InReset = 8,
    // A whole screen is asked for with a scroll latch over 9.
    Latch = 9,
    // A viewer over 7.
    Viewer = 10,
}

impl Refusal {
    pub fn number(self) -> u8
        ensures { result ≡ number_of self }
    {
        self as u8
    }
}

impl fmt::Display for Refusal {
    fn fmt<W: fmt::Write>(&self, f: &mut fmt::Formatter<W>) -> fmt::Result {
        f.write_str(match self {
            Refusal::Length => "a memory lent at another length than its own",
            Refusal::Address => "the 8088 sees no memory at this address",
            Refusal::Port => "the port is none of 04, 0A, 0C, 10C",
            Refusal::Code => "the port has no such code",
            Refusal::Place => "no such row, column, scan or place",
            Refusal::Edges => "bits 6 and 7 both rise",
            Refusal::Z80Held => "the Z80 is held in reset",
            Refusal::InReset => "the 8088 is in reset",
            Refusal::Latch => "the scroll latch is over 9",
            Refusal::Viewer => "no such viewer",
        })
    }
}

// What a call that answers nothing but its refusal tells C: the number, or 0 where it is accepted.
pub fn answered(outcome: Result<(), Refusal>) -> u8
    ensures { result ≡ answered outcome }
{
    match outcome {
        Ok(()) => ACCEPTED,
        Err(refusal) => refusal.number(),
    }
}
