// The Z80's view: its private memory at 0000 to 07FF, and from 0800 the shared byte of the same
// address. A Z80 address has sixteen bits, so none is refused; but while the Z80 is held, every access is.
ghost use Rattle.std.specs.Prelude.{◌≡◌};
ghost use Rattle.lent.specs.Refusals.{answered};
ghost use Rattle.lent.specs.Answer.{byte_answered};
ghost use Rattle.memories.specs.ViewZ80.{read_z80, store_z80, stored_z80};

use lent::{PRIVATE_BYTES, Refusal, SHARED_BYTES, lend};
use machine::Machine;

// The first address at which the Z80 sees shared memory.
const SHARED_FROM: usize = 0x0800;

// Reads a byte as the Z80 does.
#[tactic(auto, unfolding(crate::specs::ViewZ80::lengths_z80, crate::specs::ViewZ80::refusal_z80, crate::specs::ViewZ80::is_private, crate::specs::ViewZ80::seen_z80))]
pub fn read_z80(
    machine: Machine,
    private: &[u8],
    shared: &[u8],
    address: u16,
) -> Result<u8, Refusal>
    ensures { byte_answered result ≡ read_z80 machine private.now shared.now address }
{
    let private = lend::<PRIVATE_BYTES>(private)?;
    let shared = lend::<SHARED_BYTES>(shared)?;
    machine.stop_of_z80()?;
    let at = address as usize;
    if at < SHARED_FROM {
        return Ok(private[at]);
    }
    Ok(shared[at])
}

// Stores a byte as the Z80 does.
#[tactic(auto, unfolding(crate::specs::ViewZ80::lengths_z80, crate::specs::ViewZ80::refusal_z80, crate::specs::ViewZ80::is_private))]
pub fn store_z80(
    machine: Machine,
    private: &mut [u8],
    shared: &mut [u8],
    address: u16,
    byte: u8,
) -> Result<(), Refusal>
    ensures { stored_z80 (answered result) private.new shared.new
        ≡ store_z80 machine private.old shared.old address byte }
{
    lend::<PRIVATE_BYTES>(private)?;
    lend::<SHARED_BYTES>(shared)?;
    machine.stop_of_z80()?;
    let at = address as usize;
    if at < SHARED_FROM {
        private[at] = byte;
    } else {
        shared[at] = byte;
    }
    Ok(())
}
