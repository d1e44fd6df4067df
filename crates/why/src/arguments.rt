// What the arguments ask: a row, a column, and whether the screen has 132 columns.
ghost use Rattle.std.specs.Prelude.{◌<◌, ◌≡◌, IfSome};
ghost use Rattle.why.specs.Arguments.{digit, number, cell};

const LAST_ROW: usize = 24;

const LAST_COLUMN: usize = 131;

#[derive(Clone, Copy)]
pub struct Asked {
    pub row: usize,
    pub column: usize,
    pub columns132: bool,
}

// The value of a digit.
fn digit(byte: u8) -> Option<usize>
    ensures value { result ≡ digit byte }
    ensures under_ten { IfSome result (λ value. value < 10) }
{
    match byte {
        b'0'..=b'9' => Some(usize::from(byte - b'0')),
        _ => None,
    }
}

// The number that a word of one to three digits is.
#[tactic(auto, using(crate::proofs::Laws::of_one, crate::proofs::Laws::of_two, crate::proofs::Laws::of_three, crate::proofs::Laws::of_none, crate::proofs::Laws::of_more))]
fn number(word: &[u8]) -> Option<usize>
    ensures { result ≡ number word.now }
{
    match *word {
        [ones] => digit(ones),
        [tens, ones] => Some(digit(tens)? * 10 + digit(ones)?),
        [hundreds, tens, ones] => Some(digit(hundreds)? * 100 + digit(tens)? * 10 + digit(ones)?),
        _ => None,
    }
}

// What a row and a column ask.
#[tactic(auto, unfolding(crate::specs::Arguments::cell))]
fn cell(row: usize, column: usize, columns132: bool) -> Option<Asked>
    ensures { result ≡ cell row column columns132 }
{
    if row > LAST_ROW || column > LAST_COLUMN {
        return None;
    }
    Some(Asked {
        row,
        column,
        columns132,
    })
}

// Room for a byte more than is wanted: a word that is longer still is answered as an empty one.
type Word = [u8; 4];

fn number_at(rt: &HostRuntime, i: usize) -> Option<usize> {
    let mut word: Word = [0; 4];
    let bytes = console::argument(rt, i, &mut word);
    number(&word[..bytes])
}

fn is_132_at(rt: &HostRuntime, i: usize) -> bool {
    let mut word: Word = [0; 4];
    let bytes = console::argument(rt, i, &mut word);
    &word[..bytes] == b"132".as_slice()
}

// What the program's arguments ask: two or three words after its own name.
pub fn read(rt: &HostRuntime) -> Option<Asked> {
    if !console::has_argument(rt, 2) || console::has_argument(rt, 4) {
        return None;
    }
    let row = number_at(rt, 1)?;
    let column = number_at(rt, 2)?;
    let columns132 = console::has_argument(rt, 3);
    if columns132 && !is_132_at(rt, 3) {
        return None;
    }
    cell(row, column, columns132)
}
