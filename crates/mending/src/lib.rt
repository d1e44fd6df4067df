// The store of a byte by the 8088 with a picture lent, which keeps the picture. Document 01, "The
// picture".
#![tactic(auto)]

ghost use Rattle.std.specs.Prelude.{ℕ, ◌-◌, ◌≤◌, ◌<◌, ◌≡◌, not, length};
ghost use Rattle.std.specs.Str.{bytes_eq};
ghost use Rattle.lent.specs.Lengths.{screen_bytes, attribute_bytes, picture_bytes};
ghost use Rattle.chain.specs.Chain.{rows};
ghost use Rattle.chain.specs.Inner.{ahead_of};
ghost use Rattle.chain.specs.Page.{chain_on};
ghost use Rattle.records.specs.Record.{record_bytes};
ghost use Rattle.records.specs.declared.RowRead.{RowRead};
ghost use Rattle.picture.specs.Draw.{chain_of};
ghost use Rattle.mending.specs.Mending.{mended, marks_of};
ghost use Rattle.mending.specs.Inner.{InPlaces, RowsNoted};
ghost use Rattle.mending.specs.Store.{store_answered, stored_with_picture, store_with_picture};

use chain::Page;
use lent::{ATTRIBUTE_BYTES, PICTURE_BYTES, Refusal, SCREEN_BYTES, SHARED_BYTES, lend};
use machine::Machine;
use readers::{Reader, first_reader};
use records::{Record, RowRead};

// What C is told of a store: bit r of the marks is set when record r changed.
#[repr(C)]
#[derive(Clone, Copy, Debug, PartialEq, Eq)]
pub struct Stored {
    pub refusal: u8,
    pub marks: u32,
}

impl From<Result<u32, Refusal>> for Stored {
    ghost from_gives = { λ outcome told. told ≡ store_answered outcome };

    fn from(outcome: Result<u32, Refusal>) -> Stored {
        match outcome {
            Ok(marks) => Stored {
                refusal: lent::ACCEPTED,
                marks,
            },
            Err(refusal) => Stored {
                refusal: refusal.number(),
                marks: 0,
            },
        }
    }
}

// Where the pairs after the 80th stand in a record.
const LAST_PAIRS_AT: usize = 164;

// Whether two parts of the same length differ. The loop has no way out but its end, so that the bytes are compared
// together. To compare slices as they are, compilers call the C library's `bcmp`, which a caller in C may not have.
fn differ(kept: &[u8], drawn: &[u8]) -> bool
    requires { length drawn.now ≡ length kept.now }
    ensures { result ≡ not (bytes_eq kept.now drawn.now) }
{
    let mut differ = false;
    for at in 0..kept.len() {
        differ |= kept[at] != drawn[at];
    }
    differ
}

// Whether a record that was drawn differs from the one that was kept, in three parts. A processor waits where it reads
// bytes just written in other pieces than it wrote them in. So each part begins where a piece began; and the first
// pairs, which `draw_row` writes last and in smaller pieces, come after the last ones.
fn records_differ(kept: &Record, drawn: &Record) -> bool
    ensures { result ≡ not (bytes_eq kept.now drawn.now) }
{
    let last = differ(&kept[LAST_PAIRS_AT..], &drawn[LAST_PAIRS_AT..]);
    let first = differ(
        &kept[records::HEAD_BYTES..LAST_PAIRS_AT],
        &drawn[records::HEAD_BYTES..LAST_PAIRS_AT],
    );
    let head = differ(&kept[..records::HEAD_BYTES], &drawn[..records::HEAD_BYTES]);
    last | first | head
}

// Puts a record that was drawn in the place of the one that was kept, and says whether they differed. Most records
// come out as they were, and are not written.
fn replace(kept: &mut Record, drawn: &Record) -> bool
    ensures value { result ≡ not (bytes_eq kept.old drawn.now) }
    ensures kept_after { kept.new ≡ drawn.now }
{
    if !records_differ(kept, drawn) {
        return false;
    }
    kept.copy_from_slice(drawn);
    true
}

// The same of the part of a picture that is the record.
fn replace_part(part: &mut [u8], drawn: &Record) -> bool
    requires { length part.old ≡ record_bytes }
    ensures value { result ≡ not (bytes_eq part.old drawn.now) }
    ensures part_after { part.new ≡ drawn.now }
{
    let Some(kept) = part.as_mut_array() else {
        unreachable!()
    };
    replace(kept, drawn)
}

// What is done with each row that a mend reads, beside the drawing of its record: what is kept for it, and what a row
// leaves of that.
pub trait Beside {
    type Kept;

    ghost noted: { (row : ℕ) → RowRead → (before after : Self.Kept) → Type 0 };

    fn note(row: usize, read: &RowRead, kept: &mut Self::Kept)
        requires { InPlaces read.now × row < rows }
        ensures { noted row read.now kept.old kept.new };
}

// Nothing else is done.
struct PictureAlone;

impl Beside for PictureAlone {
    type Kept = ();

    ghost noted = { λ row read before after. Unit {0} };

    fn note(_row: usize, _read: &RowRead, _kept: &mut ()) {}
}

// Mends the picture from a row on, and marks the rows whose record changed. Each row is drawn apart from what is kept
// of it, in room that is made once.
pub fn mend<B: Beside>(page: &Page, first: Reader, picture: &mut [u8], kept: &mut B::Kept) -> u32
    requires room { length picture.old ≡ picture_bytes }
    requires within { first.row ≤ rows }
    requires comes { first.ahead ≡ ahead_of (chain_on page.now) first.row }
    ensures marks { result
        ≡ marks_of picture.old (mended (chain_on page.now) first.row picture.old) }
    ensures picture_after { picture.new ≡ mended (chain_on page.now) first.row picture.old }
    ensures rows_noted { RowsNoted B.noted (chain_on page.now) first.row (rows - first.row)
        kept.old kept.new }
{
    let mut drawn = [0; records::RECORD_BYTES];
    let mut ahead = first.ahead;
    let mut marks = 0;
    for row in first.row..chain::ROWS {
        let at = row * records::RECORD_BYTES;
        let end = at + records::RECORD_BYTES;
        let read = records::read_ahead(page, ahead);
        records::draw_row(page, &read, &mut drawn);
        B::note(row, &read, kept);
        let changed = replace_part(&mut picture[at..end], &drawn);
        marks = marks::mark(marks, row, changed);
        ahead = read.next;
    }
    marks
}

// The rows of memories whose lengths were tested.
pub fn page_lent<'a>(machine: Machine, screen: &'a [u8], attribute: &'a [u8]) -> Page<'a>
    requires screen_fits { length screen.now ≡ screen_bytes }
    requires attribute_fits { length attribute.now ≡ attribute_bytes }
    ensures { chain_on result ≡ chain_of machine screen.now attribute.now }
{
    let Some(screen) = screen.as_array() else {
        unreachable!()
    };
    let Some(attribute) = attribute.as_array() else {
        unreachable!()
    };
    picture::page_of(machine, screen, attribute)
}

// Stores a byte as the 8088 does, mends the picture from the first row that read it, and marks the rows that changed.
#[tactic(auto, unfolding(crate::specs::Store::lengths_with_picture, memories::specs::View8088::lengths_8088, memories::specs::View8088::refused_access))]
pub fn store_with_picture(
    machine: Machine,
    shared: &mut [u8],
    screen: &mut [u8],
    attribute: &mut [u8],
    picture: &mut [u8],
    address: u32,
    byte: u8,
) -> Result<u32, Refusal>
    ensures { stored_with_picture (store_answered result)
        shared.new screen.new attribute.new picture.new
        ≡ store_with_picture machine
        shared.old screen.old attribute.old picture.old address byte }
{
    lend::<SHARED_BYTES>(shared)?;
    lend::<SCREEN_BYTES>(screen)?;
    lend::<ATTRIBUTE_BYTES>(attribute)?;
    lend::<PICTURE_BYTES>(picture)?;
    let seen = memories::access_8088(machine, address)?;
    // The walk of memory before the store.
    let first = first_reader(&page_lent(machine, screen, attribute), seen);
    memories::view8088::store_at(shared, screen, attribute, seen, byte);
    // Where no row reads the byte, room for a record is not even made.
    let Some(first) = first else {
        return Ok(0);
    };
    let page = page_lent(machine, screen, attribute);
    Ok(mend::<PictureAlone>(&page, first, picture, &mut ()))
}
