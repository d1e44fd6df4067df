// What several answers of the monitor have in common.
use lent::Refusal;
use machine::Machine;
use std::{fmt, io};

// Bytes as two hexadecimal digits each. A number is given as its bytes, the highest first.
#[derive(Clone, Copy)]
pub struct Hex<const N: usize>(pub [u8; N]);

impl<const N: usize> fmt::Display for Hex<N> {
    fn fmt<W: fmt::Write>(&self, f: &mut fmt::Formatter<W>) -> fmt::Result {
        for byte in self.0 {
            let high = char::from(ascii::digit(byte / 16));
            let low = char::from(ascii::digit(byte % 16));
            write!(f, "{high}{low}")?;
        }
        Ok(())
    }
}

// Writes bytes as they are, and ends the line.
pub fn line(rt: &HostRuntime, bytes: &[u8]) -> io::Result<()> {
    rt.write_all(bytes)?;
    println!(rt)
}

// A line of words and then bytes, each after a blank.
pub fn bytes(rt: &HostRuntime, words: &str, list: &[u8]) -> io::Result<()> {
    print!(rt; "{words}")?;
    for byte in list {
        print!(rt; " {}", Hex([*byte]))?;
    }
    println!(rt)
}

// Ends a line, of a refusal with what it says.
pub fn end(rt: &HostRuntime, refused: Option<Refusal>) -> io::Result<()> {
    match refused {
        Some(refusal) => println!(rt; ": {refusal}"),
        None => println!(rt),
    }
}

// By what a call is refused: the number, and what it says.
pub fn refused(rt: &HostRuntime, refusal: Refusal) -> io::Result<()> {
    println!(rt; "refused {}: {refusal}", refusal.number())
}

// The outcome of a call that answers no more than whether it is refused.
pub fn done(rt: &HostRuntime, words: &str, outcome: Result<(), Refusal>) -> io::Result<()> {
    match outcome {
        Ok(()) => println!(rt; "{words}"),
        Err(refusal) => refused(rt, refusal),
    }
}

// A line of words and then the machine, setting by setting.
pub fn machine(rt: &HostRuntime, words: &str, machine: Machine) -> io::Result<()> {
    let hertz = if machine.hertz50 { 50 } else { 60 };
    print!(rt;
        "{words}: {} columns, {hertz} Hz, interlace {}, latch {}, blink {}, interrupt {}, reverse {}",
        machine.columns(),
        u8::from(machine.interlace),
        Hex([machine.latch]),
        u8::from(machine.blink),
        u8::from(machine.interrupt),
        u8::from(machine.reverse)
    )?;
    println!(rt;
        ", watchdog {}, count {}, reset {}, 0A holds {}, z80 runs {}, blanked {}, graphics {}",
        u8::from(machine.watchdog),
        machine.count,
        u8::from(machine.reset),
        Hex([machine.held]),
        u8::from(machine.z80_runs()),
        u8::from(machine.blanked()),
        u8::from(machine.graphics())
    )
}
