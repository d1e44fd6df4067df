// What is done to the memories and the machine by hand, between the calls.
use crate::desk::{Desk, Memory};
use crate::forms::{self, Name};
use crate::say::{self, Hex};
use crate::strewn;
use std::io;

// What a line does to the memory that it names, or shows of it.
#[derive(Clone, Copy)]
pub enum ByHand {
    Lend(usize),
    Fill(u8),
    Put {
        place: usize,
        byte: u8,
    },
    Show {
        from: usize,
        count: usize,
    },
    Strew {
        seed: u32,
        every: usize,
        under: usize,
    },
}

fn no_such_place(rt: &HostRuntime) -> io::Result<()> {
    println!(rt; "expected a place, or places, that the memory has")
}

fn lend<const N: usize>(rt: &HostRuntime, memory: &mut Memory<N>, bytes: usize) -> io::Result<()> {
    if bytes > N {
        return println!(rt; "expected a length up to one more than the memory's own");
    }
    memory.lend(bytes);
    println!(rt; "lent")
}

fn put(rt: &HostRuntime, memory: &mut [u8], place: usize, byte: u8) -> io::Result<()> {
    if place >= memory.len() {
        return no_such_place(rt);
    }
    memory[place] = byte;
    println!(rt; "put")
}

fn show(rt: &HostRuntime, memory: &[u8], from: usize, count: usize) -> io::Result<()> {
    if from > memory.len() || count > memory.len() - from {
        return no_such_place(rt);
    }
    say::bytes(rt, "bytes", &memory[from..from + count])
}

fn to<const N: usize>(rt: &HostRuntime, memory: &mut Memory<N>, by_hand: ByHand) -> io::Result<()> {
    match by_hand {
        ByHand::Lend(bytes) => lend(rt, memory, bytes),
        ByHand::Fill(byte) => {
            memory.bytes.fill(byte);
            println!(rt; "filled")
        }
        ByHand::Put { place, byte } => put(rt, &mut memory.bytes, place, byte),
        ByHand::Show { from, count } => show(rt, &memory.bytes, from, count),
        ByHand::Strew { seed, every, under } => {
            strewn::strew(&mut memory.bytes, seed, every, under);
            println!(rt; "strewn")
        }
    }
}

// Obeys a line that names a memory, by its number.
pub fn to_memory(
    rt: &HostRuntime,
    desk: &mut Desk,
    number: usize,
    by_hand: ByHand,
) -> io::Result<()> {
    match forms::named(number) {
        Some(Name::Shared) => to(rt, &mut desk.shared, by_hand),
        Some(Name::Private) => to(rt, &mut desk.private, by_hand),
        Some(Name::Screen) => to(rt, &mut desk.screen, by_hand),
        Some(Name::Attribute) => to(rt, &mut desk.attribute, by_hand),
        Some(Name::Glyphs) => to(rt, &mut desk.glyphs, by_hand),
        Some(Name::Nvm) => to(rt, &mut desk.nvm, by_hand),
        Some(Name::Shadow) => to(rt, &mut desk.shadow, by_hand),
        Some(Name::Picture) => to(rt, &mut desk.picture, by_hand),
        Some(Name::Line) => to(rt, &mut desk.line, by_hand),
        Some(Name::Lines) => to(rt, &mut desk.lines, by_hand),
        Some(Name::Index) => to(rt, &mut desk.index, by_hand),
        // A line that fits a form with a NAME has the number of a memory.
        None => Ok(()),
    }
}

fn sum(memory: &[u8]) -> Hex<4> {
    Hex(strewn::sum(memory).to_be_bytes())
}

// Shows a sum of each memory, so that a change of any byte of one shows.
pub fn sums(rt: &HostRuntime, desk: &Desk) -> io::Result<()> {
    println!(rt;
        "sums: shared {} private {} screen {} attribute {} glyphs {} nvm {} \
         shadow {} picture {} line {} lines {} index {}",
        sum(&desk.shared.bytes),
        sum(&desk.private.bytes),
        sum(&desk.screen.bytes),
        sum(&desk.attribute.bytes),
        sum(&desk.glyphs.bytes),
        sum(&desk.nvm.bytes),
        sum(&desk.shadow.bytes),
        sum(&desk.picture.bytes),
        sum(&desk.line.bytes),
        sum(&desk.lines.bytes),
        sum(&desk.index.bytes)
    )
}

pub fn power(rt: &HostRuntime, desk: &mut Desk) -> io::Result<()> {
    desk.power_up();
    say::machine(rt, "power-up", desk.machine)
}

// A caller may hold any byte in the scroll latch.
pub fn latch(rt: &HostRuntime, desk: &mut Desk, byte: u8) -> io::Result<()> {
    desk.machine.latch = byte;
    say::machine(rt, "latched", desk.machine)
}

// A caller may hold any byte in the watchdog's count, and reset beside it.
pub fn count(rt: &HostRuntime, desk: &mut Desk, byte: u8, reset: bool) -> io::Result<()> {
    desk.machine.count = byte;
    desk.machine.reset = reset;
    say::machine(rt, "counted", desk.machine)
}
