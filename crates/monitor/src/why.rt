// Why a cell shows what it shows, as one line: in words, and as the numbers that a program in C is handed.
use crate::desk::Desk;
use crate::say::{self, Hex};
use explaining::{Explained, Why};
use std::io;

fn say_led(rt: &HostRuntime, led: Option<u16>) -> io::Result<()> {
    match led {
        None => print!(rt; ", row 0"),
        Some(place) => print!(rt; ", link at {}", Hex(place.to_be_bytes())),
    }
}

fn say_why(rt: &HostRuntime, why: Why) -> io::Result<()> {
    match why {
        Why::Cell { place, kind, led } => {
            let place = Hex(place.to_be_bytes());
            print!(rt; "cell, place {place}, kind {kind}")?;
            say_led(rt, led)
        }
        Why::Fill { place, led } => {
            print!(rt; "fill, place {}", Hex(place.to_be_bytes()))?;
            say_led(rt, led)
        }
        Why::Past(led) => {
            print!(rt; "past")?;
            say_led(rt, led)
        }
        Why::Dark(tore) => print!(rt; "dark, row {tore} tore"),
    }
}

// Obeys a line that asks why a cell shows what it shows.
pub fn explain(rt: &HostRuntime, desk: &Desk, row: usize, column: usize) -> io::Result<()> {
    let (screen, attribute) = (desk.screen.lent(), desk.attribute.lent());
    let outcome = explaining::explain(desk.machine, screen, attribute, row, column);
    let told = Explained::from(outcome);
    match outcome {
        Ok(why) => say_why(rt, why)?,
        Err(_) => print!(rt; "refused {}", told.refusal)?,
    }
    print!(rt;
        ", as numbers {} {} {} {} {} {}",
        told.answer,
        Hex(told.place.to_be_bytes()),
        told.kind,
        told.tore,
        u8::from(told.linked),
        Hex(told.link.to_be_bytes())
    )?;
    say::end(rt, outcome.err())
}
