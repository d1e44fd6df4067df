// The NVM's shadow, read and written by place, by the 8088. Document 01, "Lent memory", second paragraph; document
// 02, ticket 3. The copies between shadow and NVM are the port 0A's, in the crate diagnostic.
#![tactic(auto)]

ghost use Rattle.std.specs.Prelude.{◌≡◌, ◌<◌, IsOk};
ghost use Rattle.lent.specs.Refusals.{answered};
ghost use Rattle.lent.specs.Lengths.{shadow_bytes};
ghost use Rattle.lent.specs.Answer.{byte_answered};
ghost use Rattle.shadow.specs.Shadow.{refused_place, read_shadow, write_shadow, written_shadow};

use lent::{Refusal, SHADOW_BYTES, lend};
use machine::Machine;

const LAST_PLACE: usize = 255;

// By what an access of a shadow of the right length is refused.
#[tactic(auto, unfolding(crate::specs::Shadow::refused_place))]
fn access(machine: Machine, place: usize) -> Result<(), Refusal>
    ensures number { answered result ≡ refused_place machine shadow_bytes place }
    ensures in_shadow { IsOk result → place < shadow_bytes }
{
    machine.stop_of_8088()?;
    if LAST_PLACE < place {
        return Err(Refusal::Place);
    }
    Ok(())
}

// Reads the low four bits of the byte at a place of the shadow.
#[tactic(auto, unfolding(crate::specs::Shadow::refused_place))]
pub fn read_shadow(machine: Machine, shadow: &[u8], place: usize) -> Result<u8, Refusal>
    ensures { byte_answered result ≡ read_shadow machine shadow.now place }
{
    let shadow = lend::<SHADOW_BYTES>(shadow)?;
    access(machine, place)?;
    Ok(shadow[place] % 16)
}

// Writes four bits at a place of the shadow.
#[tactic(auto, unfolding(crate::specs::Shadow::refused_place))]
pub fn write_shadow(
    machine: Machine,
    shadow: &mut [u8],
    place: usize,
    value: u8,
) -> Result<(), Refusal>
    ensures { written_shadow (answered result) shadow.new
        ≡ write_shadow machine shadow.old place value }
{
    lend::<SHADOW_BYTES>(shadow)?;
    access(machine, place)?;
    shadow[place] = value % 16;
    Ok(())
}
