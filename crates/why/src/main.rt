// Says in words why a cell of the screen shows what it shows: reads 8,192 bytes, a screen memory and then an attribute
// memory, and writes two sentences. The arguments are the cell's row and column, and 132 for a screen of 132 columns.
#![tactic(auto)]

mod arguments;

ghost use Rattle.std.specs.Prelude.{◌≡◌, cond};
ghost use Rattle.machine.specs.Settings.{columns};

use arguments::Asked;
use lent::{ATTRIBUTE_BYTES, NVM_BYTES, SCREEN_BYTES, SHADOW_BYTES};
use machine::Machine;
use sentences::TEXT_BYTES;
use std::io;

// The machine at power-up, which is at 80 columns, and if asked after the write to port 04 that sets 132.
fn machine(columns132: bool) -> Machine
    ensures { columns result ≡ cond columns132 132 80 }
{
    let machine = Machine::power_up();
    if !columns132 {
        return machine;
    }
    let mut shadow = [0; SHADOW_BYTES];
    let mut nvm = [0; NVM_BYTES];
    ports::write_port(machine, &mut shadow, &mut nvm, 0x04, 0x10).unwrap_or(machine)
}

fn main(rt: HostRuntime) -> io::Result<()> {
    let Some(
        Asked {
            row,
            column,
            columns132,
        },
    ) = arguments::read(&rt)
    else {
        return eprintln!(rt;
            "why: wants a row, 0 to 24, a column, 0 to 131, and 132 if the screen has 132 columns"
        );
    };
    let mut screen = [0; SCREEN_BYTES];
    let mut attribute = [0; ATTRIBUTE_BYTES];
    // One byte more than is wanted tells input that is too long.
    let mut beyond = [0; 1];
    let mut input = rt.stdin();
    let read = console::read_full(&mut input, &mut screen);
    let beside = console::read_full(&mut input, &mut attribute);
    let more = console::read_full(&mut input, &mut beyond);
    if read < SCREEN_BYTES || beside < ATTRIBUTE_BYTES || more > 0 {
        return eprintln!(rt; "why: standard input must be 8192 bytes: screen and attribute memory");
    }
    let mut text = [0; TEXT_BYTES];
    // A row and a column that are asked for are never refused.
    let bytes = sentences::say(
        machine(columns132),
        &screen,
        &attribute,
        row,
        column,
        &mut text,
    )
    .unwrap_or(0);
    rt.write_all(&text[..bytes])
}
