// Ports 0C and 10C, the DC012 control chip: scroll latch, blink, vertical interrupt, reverse field. Code 09, which
// acknowledges the interrupt, also sets the watchdog's count to 0.
#![tactic(auto)]

ghost use Rattle.std.specs.Prelude.{◌≡◌};
ghost use Rattle.machine.specs.Written.{written};
ghost use Rattle.dc012.specs.Dc012.{write_dc012};

use lent::Refusal;
use machine::Machine;

// What a code written to port 0C or 10C does, but for enabling and disabling the watchdog.
pub fn write_dc012(mut machine: Machine, code: u8) -> Result<Machine, Refusal>
    ensures { written machine result ≡ write_dc012 machine code }
{
    let latch = machine.scroll_latch();
    match code {
        0..=3 => machine.latch = latch / 4 * 4 + code,
        4..=7 => machine.latch = (code - 4) * 4 + latch % 4,
        0x08 => machine.blink = !machine.blink,
        0x09 => {
            machine.interrupt = false;
            machine.count = 0;
        }
        0x0A => machine.reverse = true,
        0x0B => machine.reverse = false,
        _ => return Err(Refusal::Code),
    }
    Ok(machine)
}
