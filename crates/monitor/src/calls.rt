// The calls of the library that no viewer is told of, each with the memories that it is lent.
use crate::desk::Desk;
use crate::say::{self, Hex};
use lent::{ByteRead, Refusal};
use machine::Written;
use std::io;

// The byte that C is told. A refusal is shown with the byte beside it, which has to be 0.
fn say_read(rt: &HostRuntime, outcome: Result<u8, Refusal>) -> io::Result<()> {
    let told = ByteRead::from(outcome);
    match outcome {
        Ok(_) => println!(rt; "reads {}", Hex([told.byte])),
        Err(refusal) => println!(rt;
            "refused {}, byte {}: {refusal}",
            told.refusal,
            Hex([told.byte])
        ),
    }
}

pub fn store_blind(rt: &HostRuntime, desk: &mut Desk, address: u32, byte: u8) -> io::Result<()> {
    let outcome = memories::store_8088(
        desk.machine,
        desk.shared.lent_mut(),
        desk.screen.lent_mut(),
        desk.attribute.lent_mut(),
        address,
        byte,
    );
    say::done(rt, "stored", outcome)
}

pub fn read(rt: &HostRuntime, desk: &Desk, address: u32) -> io::Result<()> {
    let outcome = memories::read_8088(
        desk.machine,
        desk.shared.lent(),
        desk.screen.lent(),
        desk.attribute.lent(),
        address,
    );
    say_read(rt, outcome)
}

pub fn store_z80(rt: &HostRuntime, desk: &mut Desk, address: u16, byte: u8) -> io::Result<()> {
    let outcome = memories::store_z80(
        desk.machine,
        desk.private.lent_mut(),
        desk.shared.lent_mut(),
        address,
        byte,
    );
    say::done(rt, "stored", outcome)
}

pub fn read_z80(rt: &HostRuntime, desk: &Desk, address: u16) -> io::Result<()> {
    let (private, shared) = (desk.private.lent(), desk.shared.lent());
    say_read(
        rt,
        memories::read_z80(desk.machine, private, shared, address),
    )
}

pub fn port(rt: &HostRuntime, desk: &mut Desk, port: u16, code: u8) -> io::Result<()> {
    let outcome = ports::write_port(
        desk.machine,
        desk.shadow.lent_mut(),
        desk.nvm.lent_mut(),
        port,
        code,
    );
    let told = Written::told(desk.machine, outcome);
    desk.machine = told.machine;
    match outcome {
        Ok(_) => say::machine(rt, "written", told.machine),
        Err(refusal) => say::refused(rt, refusal),
    }
}

pub fn tick(rt: &HostRuntime, desk: &mut Desk) -> io::Result<()> {
    desk.machine = desk.machine.vertical_tick();
    say::machine(rt, "ticked", desk.machine)
}

// So many ticks of the watchdog's clock.
pub fn watch(rt: &HostRuntime, desk: &mut Desk, ticks: usize) -> io::Result<()> {
    let mut watched = desk.machine;
    for _ in 0..ticks {
        watched = watched.watchdog_tick();
    }
    desk.machine = watched;
    say::machine(rt, "watched", desk.machine)
}

pub fn write_shadow(rt: &HostRuntime, desk: &mut Desk, place: usize, byte: u8) -> io::Result<()> {
    let outcome = shadow::write_shadow(desk.machine, desk.shadow.lent_mut(), place, byte);
    say::done(rt, "written", outcome)
}

pub fn read_shadow(rt: &HostRuntime, desk: &Desk, place: usize) -> io::Result<()> {
    say_read(
        rt,
        shadow::read_shadow(desk.machine, desk.shadow.lent(), place),
    )
}

// Works the index out afresh.
pub fn index(rt: &HostRuntime, desk: &mut Desk) -> io::Result<()> {
    let outcome = index::index_readers(
        desk.machine,
        desk.screen.lent(),
        desk.attribute.lent(),
        desk.index.lent_mut(),
    );
    say::done(rt, "indexed", outcome)
}
