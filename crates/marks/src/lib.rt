// The marks of a store: one number, whose bit r says of row r that its record changed. Document 01,
// "The picture".
#![tactic(auto)]

ghost use Rattle.std.specs.Prelude.{◌^◌, ◌<◌, ◌≡◌};
ghost use Rattle.marks.specs.Marks.{bit_set, marked, joined};

const BITS: usize = 32;

// The marks of the rows before, and of this one if it changed.
pub fn mark(marks: u32, row: usize, changed: bool) -> u32
    requires { (marks < 2 ^ row) × (row < 32) }
    ensures { result ≡ marked marks row changed }
{
    if changed {
        return marks | 1 << row;
    }
    marks
}

// The marks of both.
pub fn join(one: u32, other: u32) -> u32
    ensures { result ≡ joined one other }
{
    one | other
}

// Whether a row is among the marks of a store. It asks for a bit of a number, so no row is refused: one over 24 is
// never marked.
#[tactic(auto, unfolding(crate::specs::Marks::bit_set))]
pub fn is_marked(marks: u32, row: usize) -> bool
    ensures { result ≡ bit_set marks row }
{
    row < BITS && marks >> row & 1 == 1
}
