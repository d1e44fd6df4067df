// The search for the byte after a row's last cell.

ghost use Rattle.std.specs.Prelude.{◌<◌, ◌≤◌, ◌≡◌, false, length, take, position};
ghost use Rattle.std.specs.List.{list_any};
ghost use Rattle.chain.specs.Inner.{is_ff};

use crate::TERMINATOR;

// So many bytes are looked at together, and then so many.
const MANY_TOGETHER: usize = 16;

const FEW_TOGETHER: usize = 8;

// Whether one of these bytes is the terminator. The loop has no way out but its end, so that the bytes
// can be looked at together.
fn has_terminator(bytes: &[u8]) -> bool
    ensures { result ≡ list_any is_ff bytes.now }
{
    let mut has = false;
    for byte in bytes {
        has |= *byte == TERMINATOR;
    }
    has
}

// Passes bytes, N together, as long as none of them is the terminator, and says how many.
fn pass_together<const N: usize>(bytes: &[u8]) -> usize
    requires { 0 < N }
    ensures within { result ≤ length bytes.now }
    ensures none { list_any is_ff (take result bytes.now) ≡ false }
{
    let mut passed = 0;
    for together in bytes.chunks_exact(N) {
        if has_terminator(together) {
            return passed;
        }
        passed += N;
    }
    passed
}

// Where the first terminator among these few bytes stands.
fn first_among_few(bytes: &[u8]) -> Option<usize>
    ensures { result ≡ position is_ff bytes.now }
{
    bytes.iter().position(|byte| *byte == TERMINATOR)
}

// Where the first terminator among these bytes stands.
pub fn first_terminator(bytes: &[u8]) -> Option<usize>
    ensures { result ≡ position is_ff bytes.now }
{
    let many = pass_together::<MANY_TOGETHER>(bytes);
    let passed = many + pass_together::<FEW_TOGETHER>(&bytes[many..]);
    let more = first_among_few(&bytes[passed..])?;
    Some(passed + more)
}
