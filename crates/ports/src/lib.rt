// The write ports: 04 (DC011), 0A (diagnostic write), 0C and 10C (DC012). Document 01, "Ports"; document 02, ticket 3.
#![tactic(auto)]

ghost use Rattle.std.specs.Prelude.{◌≡◌};
ghost use Rattle.machine.specs.Written.{done, written};
ghost use Rattle.diagnostic.specs.Diagnostic.{written_port};
ghost use Rattle.ports.specs.Ports.{watched, write_port};

use dc011::write_dc011;
use dc012::write_dc012;
use diagnostic::write_diagnostic;
use lent::{NVM_BYTES, Refusal, SHADOW_BYTES, lend};
use machine::Machine;

// Writes a code to a port. The shadow and the NVM are lent for the copies that port 0A starts.
#[tactic(auto, unfolding(crate::specs::Ports::lengths_nvm, crate::specs::Ports::refusal_port))]
pub fn write_port(
    machine: Machine,
    shadow: &mut [u8],
    nvm: &mut [u8],
    port: u16,
    code: u8,
) -> Result<Machine, Refusal>
    ensures { written_port (written machine result) shadow.new nvm.new
        ≡ write_port machine shadow.old nvm.old port code }
{
    lend::<SHADOW_BYTES>(shadow)?;
    lend::<NVM_BYTES>(nvm)?;
    machine.stop_of_8088()?;
    match port {
        0x04 => write_dc011(machine, code),
        0x0A => {
            let Some(shadow) = shadow.as_mut_array::<SHADOW_BYTES>() else {
                unreachable!()
            };
            let Some(nvm) = nvm.as_mut_array::<NVM_BYTES>() else {
                unreachable!()
            };
            write_diagnostic(machine, shadow, nvm, code)
        }
        0x0C => Ok(watched(write_dc012(machine, code)?, true)),
        0x10C => Ok(watched(write_dc012(machine, code)?, false)),
        _ => Err(Refusal::Port),
    }
}

// An accepted write to a port of the DC012 also enables or disables the watchdog. The count starts anew where the
// watchdog is enabled, and stays 0 where it is disabled.
fn watched(machine: Machine, enabled: bool) -> Machine
    ensures { done result ≡ watched (done machine) enabled }
{
    if enabled && machine.watchdog {
        return machine;
    }
    Machine {
        watchdog: enabled,
        count: 0,
        ..machine
    }
}
