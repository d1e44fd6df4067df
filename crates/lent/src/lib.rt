// What every call has in common: the lengths of the memories that a caller lends, the refusals, and the answer
// of a call that reads a byte. Document 01, "Lent memory" and "Numbers of refusal".
#![tactic(auto)]

ghost use Rattle.std.specs.Prelude.{◌≡◌, ◌↔◌, IsOk, IfOk, IfErr, length};
ghost use Rattle.lent.specs.declared.refusals.Refusal.TheVariants.{Length};
ghost use Rattle.lent.specs.Answer.{byte_answered};

pub mod refusals;

pub use refusals::{ACCEPTED, Refusal, answered};

pub const SHARED_BYTES: usize = 65536;

pub const PRIVATE_BYTES: usize = 2048;

pub const SCREEN_BYTES: usize = 4096;

pub const ATTRIBUTE_BYTES: usize = 4096;

pub const GLYPH_BYTES: usize = 4096;

pub const NVM_BYTES: usize = 256;

pub const SHADOW_BYTES: usize = 256;

pub const PICTURE_BYTES: usize = 6700;

pub const LINE_BYTES: usize = 1188;

pub const LIST_BYTES: usize = 480;

pub const INDEX_BYTES: usize = 8192;

// The answer of a call that reads a byte: the byte, or a refusal beside which the byte is 0.
#[repr(C)]
#[derive(Clone, Copy, Debug, PartialEq, Eq)]
pub struct ByteRead {
    pub refusal: u8,
    pub byte: u8,
}

impl From<Result<u8, Refusal>> for ByteRead {
    ghost from_gives = { λ outcome told. told ≡ byte_answered outcome };

    fn from(outcome: Result<u8, Refusal>) -> ByteRead {
        match outcome {
            Ok(byte) => ByteRead {
                refusal: ACCEPTED,
                byte,
            },
            Err(refusal) => ByteRead {
                refusal: refusal.number(),
                byte: 0,
            },
        }
    }
}

// A lent memory of the right length, which its type then says.
pub fn lend<const N: usize>(bytes: &[u8]) -> Result<&[u8; N], Refusal>
    ensures ok { IfOk result (λ lent. lent.now ≡ bytes.now) }
    ensures fits { IsOk result ↔ (length bytes.now ≡ N) }
    ensures by_1 { IfErr result (λ refusal. refusal ≡ Length) }
{
    match bytes.as_array() {
        Some(lent) => Ok(lent),
        None => Err(Refusal::Length),
    }
}
