// The index of first readers: for each place of screen and then of attribute memory the number of the first row that
// reads it. It is worked out afresh, or kept by a store that takes its first row from it. Document 02, ticket 8.
#![tactic(auto)]

ghost use Rattle.std.specs.Prelude.{ℕ, ◌≤◌, ◌≡◌, Some, length};
ghost use Rattle.lent.specs.Lengths.{picture_bytes, index_bytes};
ghost use Rattle.lent.specs.Refusals.{answered};
ghost use Rattle.memories.specs.Inner.{InMemory};
ghost use Rattle.chain.specs.Chain.{rows};
ghost use Rattle.chain.specs.Inner.{ahead_of};
ghost use Rattle.chain.specs.Page.{chain_on};
ghost use Rattle.records.specs.declared.RowRead.{RowRead};
ghost use Rattle.mending.specs.Mending.{mended, marks_of};
ghost use Rattle.mending.specs.Store.{store_answered};
ghost use Rattle.index.specs.Index.{entries, indexed, index_readers};
ghost use Rattle.index.specs.Store.{renewed_entry, stored_with_index, store_with_index};
ghost use Rattle.index.specs.Inner.{row_named, lower, Changed, read_at, RowsNumbered};

pub mod numbering;

use chain::{Head, Page};
use lent::{
    ATTRIBUTE_BYTES, INDEX_BYTES, PICTURE_BYTES, Refusal, SCREEN_BYTES, SHARED_BYTES, lend,
};
use machine::Machine;
use memories::Seen;
use mending::{Beside, page_lent};
use numbering::{Forget, Lower, NO_ROW};
use readers::Reader;
use records::RowRead;

pub type Index = [u8; INDEX_BYTES];

// Passes the first rows without drawing them, and writes their numbers to an index of which a store keeps the entries
// that are under its first row. Answers what lies ahead then.
fn pass_rows(page: &Page, passed: usize, first: usize, index: &mut Index) -> Option<Head>
    requires { passed ≤ rows × first ≤ rows }
    ensures lies_ahead { result ≡ ahead_of (chain_on page.now) passed }
    ensures rows_numbered { RowsNumbered (chain_on page.now) first 0 passed index.old index.new }
{
    let mut ahead = Some(Head::first());
    for row in 0..passed {
        // After a torn row all rows are dark, and a dark row reads nothing.
        if ahead.is_none() {
            return None;
        }
        let read = records::read_ahead(page, ahead);
        numbering::number_passed(index, &read, row as u8, first as u8);
        ahead = read.next;
    }
    ahead
}

// Works the index out afresh from screen and attribute memory.
#[tactic(auto, unfolding(crate::specs::Index::lengths_index))]
pub fn index_readers(
    machine: Machine,
    screen: &[u8],
    attribute: &[u8],
    index: &mut [u8],
) -> Result<(), Refusal>
    ensures { indexed (answered result) index.new
        ≡ index_readers machine screen.now attribute.now index.old }
{
    let screen = lend(screen)?;
    let attribute = lend(attribute)?;
    let index = index.as_mut_array().ok_or(Refusal::Length)?;
    index.fill(NO_ROW);
    let page = picture::page_of(machine, screen, attribute);
    pass_rows(&page, chain::ROWS, 0, index);
    Ok(())
}

// Beside the drawing of its record, a row's number is written to the index.
struct RowNumbers;

impl Beside for RowNumbers {
    type Kept = Index;

    ghost noted = { λ row read before after. Changed (read_at read) (lower row) before after };

    fn note(row: usize, read: &RowRead, index: &mut Index) {
        numbering::change_row(index, read, Lower { row: row as u8 });
    }
}

// Mends picture and index from a row on. Every entry that is not under that row is worked out anew, so the numbers of
// the rows ahead of it are written too. A call of its own, so that a store of a byte that no row reads stays short.
#[inline(never)]
fn mend_both(page: &Page, first: usize, picture: &mut [u8], index: &mut [u8]) -> u32
    requires picture_fits { length picture.old ≡ picture_bytes }
    requires index_fits { length index.old ≡ index_bytes }
    requires within { first ≤ rows }
    ensures marks { result ≡ marks_of picture.old (mended (chain_on page.now) first picture.old) }
    ensures picture_after { picture.new ≡ mended (chain_on page.now) first picture.old }
    ensures index_after { index.new
        ≡ entries (renewed_entry (chain_on page.now) first index.old) index_bytes }
{
    let Some(index) = index.as_mut_array() else {
        unreachable!()
    };
    numbering::change_all(index, Forget { first: first as u8 });
    let ahead = pass_rows(page, first, first, index);
    let reader = Reader { row: first, ahead };
    mending::mend::<RowNumbers>(page, reader, picture, index)
}

// The row that the index names for a byte that the 8088 sees. A byte of shared memory has no entry, and a number over
// 24 is no row.
fn row_named(index: &[u8], seen: Seen) -> Option<usize>
    requires { length index.now ≡ index_bytes × InMemory seen }
    ensures { result ≡ row_named index.now (Some seen) }
{
    let entry = match seen {
        Seen::Screen(place) => index[place],
        Seen::Attribute(place) => index[SCREEN_BYTES + place],
        Seen::Shared(_) => NO_ROW,
    };
    let row = entry as usize;
    (row < chain::ROWS).then_some(row)
}

// Stores a byte as the 8088 does, takes the first row that reads it from the index, and mends picture and index from
// there.
#[tactic(auto, unfolding(crate::specs::Store::lengths_with_index, mending::specs::Store::lengths_with_picture, memories::specs::View8088::lengths_8088, memories::specs::View8088::refused_access))]
pub fn store_with_index(
    machine: Machine,
    shared: &mut [u8],
    screen: &mut [u8],
    attribute: &mut [u8],
    picture: &mut [u8],
    index: &mut [u8],
    address: u32,
    byte: u8,
) -> Result<u32, Refusal>
    ensures { stored_with_index (store_answered result)
        shared.new screen.new attribute.new picture.new index.new
        ≡ store_with_index machine
        shared.old screen.old attribute.old picture.old index.old
        address byte }
{
    lend::<SHARED_BYTES>(shared)?;
    lend::<SCREEN_BYTES>(screen)?;
    lend::<ATTRIBUTE_BYTES>(attribute)?;
    lend::<PICTURE_BYTES>(picture)?;
    lend::<INDEX_BYTES>(index)?;
    let seen = memories::access_8088(machine, address)?;
    memories::view8088::store_at(shared, screen, attribute, seen, byte);
    // Where no row reads the byte there is nothing else to do.
    let Some(first) = row_named(index, seen) else {
        return Ok(0);
    };
    let page = page_lent(machine, screen, attribute);
    Ok(mend_both(&page, first, picture, index))
}
