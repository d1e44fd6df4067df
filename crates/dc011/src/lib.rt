// Port 04, the DC011 timing chip: columns, refresh rate, interlace.
#![tactic(auto)]

ghost use Rattle.std.specs.Prelude.{◌≡◌};
ghost use Rattle.machine.specs.Written.{written};
ghost use Rattle.dc011.specs.Dc011.{write_dc011};

use lent::Refusal;
use machine::Machine;

// What a code written to port 04 does: it sets the columns and interlace, or the refresh rate and no interlace.
pub fn write_dc011(machine: Machine, code: u8) -> Result<Machine, Refusal>
    ensures { written machine result ≡ write_dc011 machine code }
{
    match code {
        0x00 | 0x10 => Ok(Machine {
            columns132: code == 0x10,
            interlace: true,
            ..machine
        }),
        0x20 | 0x30 => Ok(Machine {
            hertz50: code == 0x30,
            interlace: false,
            ..machine
        }),
        _ => Err(Refusal::Code),
    }
}
