// The record of one row: its start, kind and count, and the pairs of character and attribute.
// Document 01, "The picture".
#![tactic(auto)]

mod cells;

ghost use Rattle.std.specs.Prelude.{◌-◌, ◌*◌, ◌≤◌, ◌≡◌, ◌++◌, take, drop};
ghost use Rattle.chain.specs.Page.{chain_on};
ghost use Rattle.records.specs.Record.{head_bytes, record_pairs, fill_pairs, header};
ghost use Rattle.records.specs.Inner.{pairs_of, no_link, row_read, record_read};

use chain::{Head, Page};

pub const RECORD_BYTES: usize = 268;
// The bytes of a record ahead of its pairs: the start, its high byte at 0, then kind and count.
pub const HEAD_BYTES: usize = 4;

pub const START_LOW_AT: usize = 1;

pub const KIND_AT: usize = 2;

pub const COUNT_AT: usize = 3;

pub const RECORD_PAIRS: usize = 132;
// The count of a torn row, and of a dark one.
pub const TORN: u8 = 255;

pub const DARK: u8 = 254;

pub type Record = [u8; RECORD_BYTES];

// A row that was read: its head, how many cells it shows and its count; and the bytes of screen memory that it read,
// whether its link is wild, and the row that the chain leads to, if it leads to one. With a type for at most 132 cells
// the four functions that draw would ask nothing, but all that read a row would have to take it apart.
#[derive(Clone, Copy)]
pub struct RowRead {
    pub head: Head,
    pub cells: usize,
    pub count: u8,
    pub reads: usize,
    pub wild: bool,
    pub next: Option<Head>,
}

// A row that has no link, torn or dark: it leads to a dark one.
fn unlinked(head: Head, cells: usize, count: u8, reads: usize) -> RowRead
    ensures { result ≡ no_link head cells count reads }
{
    RowRead {
        head,
        cells,
        count,
        reads,
        wild: false,
        next: None,
    }
}

// Reads the row that lies ahead: up to its terminator, after which the link leads on, or up to its capacity. A part of
// the loops over rows: handed on by a call, what was read goes through memory.
#[inline(always)]
#[tactic(auto, unfolding(chain::specs::Reading::reads, chain::specs::Wild::wild, chain::specs::Chain::row_from))]
pub fn read_ahead(page: &Page, ahead: Option<Head>) -> RowRead
    ensures value { result ≡ row_read (chain_on page.now) ahead }
    ensures fits { result.cells ≤ record_pairs }
{
    let Some(head) = ahead else {
        return unlinked(Head::first(), 0, DARK, 0);
    };
    let Some(cells) = page.find_terminator(&head) else {
        let capacity = page.capacity(head.kind);
        return unlinked(head, capacity, TORN, capacity + 1);
    };
    RowRead {
        head,
        cells,
        count: cells as u8,
        reads: cells + 3,
        wild: page.is_wild(&head, cells),
        next: Some(page.link(&head, cells)),
    }
}

fn write_head(into: &mut Record, head: &Head, count: u8)
    ensures { into.new ≡ header head.now count ++ pairs_of into.old }
{
    let start = head.start.at();
    into[0] = (start / 256) as u8;
    into[START_LOW_AT] = (start % 256) as u8;
    into[KIND_AT] = head.kind;
    into[COUNT_AT] = count;
}

// Fills all pairs. An array of a length that is known is filled the quickest.
fn fill(into: &mut Record)
    ensures head_stays { take head_bytes into.new ≡ take head_bytes into.old }
    ensures filled { pairs_of into.new ≡ fill_pairs record_pairs }
{
    for pair in 0..RECORD_PAIRS {
        into[HEAD_BYTES + 2 * pair] = 0x20;
        into[HEAD_BYTES + 2 * pair + 1] = 0x0E;
    }
}

// Fills the pairs after a row's cells, which are put later: all of them, or none of a row that leaves none.
fn fill_after(into: &mut Record, cells: usize)
    ensures head_stays { take head_bytes into.new ≡ take head_bytes into.old }
    ensures filled { drop (2 * cells) (pairs_of into.new)
        ≡ fill_pairs (record_pairs - cells) }
{
    if cells < RECORD_PAIRS {
        fill(into);
    }
}

// The record of a row that was read. Reading and drawing are two functions: compilers make both a part of the loops
// that call them, and one function of both would be too large for that.
pub fn draw_row(page: &Page, row: &RowRead, into: &mut Record)
    requires { row.now.cells ≤ record_pairs }
    ensures { into.new
        ≡ record_read page.now.screen.now page.now.attribute.now row.now }
{
    write_head(into, &row.head, row.count);
    fill_after(into, row.cells);
    cells::draw_cells(page, row, &mut into[HEAD_BYTES..]);
}
