// Port 0A, the diagnostic write port: it holds its byte, and the rising edges of bits 6 and 7 start
// the copies between shadow and NVM.
#![tactic(auto)]

ghost use Rattle.std.specs.Prelude.{◌≡◌, ◌%◌, ◌&&◌, eqb};
ghost use Rattle.machine.specs.Written.{written};
ghost use Rattle.diagnostic.specs.Diagnostic.{write_diagnostic, written_port};

use lent::Refusal;
use machine::Machine;

// What a byte written to port 0A does, with a shadow and an NVM of one length.
pub fn write_diagnostic<const N: usize>(
    machine: Machine,
    shadow: &mut [u8; N],
    nvm: &mut [u8; N],
    code: u8,
) -> Result<Machine, Refusal>
    ensures { written_port (written machine result) shadow.new nvm.new
        ≡ write_diagnostic machine shadow.old nvm.old code }
{
    let saves = rises(machine.held / 64, code / 64);
    let recalls = rises(machine.held / 128, code / 128);
    match (saves, recalls) {
        (true, true) => return Err(Refusal::Edges),
        (true, false) => copy(shadow, nvm),
        (false, true) => copy(nvm, shadow),
        (false, false) => {}
    }
    Ok(Machine {
        held: code,
        ..machine
    })
}

// The lowest bit goes from 0 to 1.
fn rises(before: u8, after: u8) -> bool
    ensures { result ≡ (eqb (before % 2) 0 && eqb (after % 2) 1) }
{
    before % 2 == 0 && after % 2 == 1
}

// Copies all bytes. Of `copy_from_slice` the kit's compiler makes a call of `memmove` here, which a caller in C may not
// have.
fn copy<const N: usize>(from: &[u8; N], to: &mut [u8; N])
    ensures { to.new ≡ from.now }
{
    for at in 0..N {
        to[at] = from[at];
    }
}
