// Why no picture is written, or not the whole of it.
use lent::Refusal;
use std::{fmt, io};

#[derive(Drop)]
pub enum Fault {
    // An argument is no setting.
    Argument,
    // Standard input has another length.
    Input,
    Refused(Refusal),
    // Standard output cannot be written.
    Output(io::Error),
}

impl fmt::Display for Fault {
    fn fmt<W: fmt::Write>(&self, f: &mut fmt::Formatter<W>) -> fmt::Result {
        match self {
            Fault::Argument => f.write_str(
                "each argument must be 132, reverse, blink, blanked or latch=0 to latch=9",
            ),
            Fault::Input => f.write_str(
                "standard input must be 12288 bytes: screen, attribute and glyph memory",
            ),
            Fault::Refused(refusal) => refusal.fmt(f),
            Fault::Output(error) => error.fmt(f),
        }
    }
}

impl From<Refusal> for Fault {
    fn from(refusal: Refusal) -> Fault {
        Fault::Refused(refusal)
    }
}

impl From<io::Error> for Fault {
    fn from(error: io::Error) -> Fault {
        Fault::Output(error)
    }
}
