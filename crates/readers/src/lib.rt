// The first row that reads a byte, found by a walk that draws nothing. Document 01, "The picture": "Let
// f be the first row that reads the stored byte".
#![tactic(auto)]

ghost use Rattle.std.specs.Prelude.{◌+◌, ◌≤◌, ◌<◌, ◌≡◌, ◌++◌, Some};
ghost use Rattle.chain.specs.Chain.{places};
ghost use Rattle.chain.specs.Page.{chain_on};
ghost use Rattle.chain.specs.Reading.{from};
ghost use Rattle.readers.specs.Readers.{among, reads_byte};
ghost use Rattle.readers.specs.Inner.{found, InMemory};

use chain::{Head, Page, Place};
use memories::Seen;

// Where the walk comes to a row that reads the byte: the row's number, and what lies ahead there.
#[derive(Clone, Copy)]
pub struct Reader {
    pub row: usize,
    pub ahead: Option<Head>,
}

// Whether a place is one of so many from a start on.
fn among(place: usize, start: Place, bytes: usize) -> bool
    requires { place < places × bytes ≤ places }
    ensures { result ≡ among place (from start bytes) }
{
    (place + lent::SCREEN_BYTES - start.at()) % lent::SCREEN_BYTES < bytes
}

// A whole row reads its cells, FF and the link, and beside the cells and the low byte of the link.
fn whole_reads(seen: Seen, start: Place, cells: usize) -> bool
    requires { InMemory seen × cells ≤ 132 }
    ensures { result
        ≡ reads_byte (Some seen) (from start (cells + 3))
        (from start cells ++ from (start + cells + 1) 1) }
{
    match seen {
        Seen::Screen(place) => among(place, start, cells + 3),
        Seen::Attribute(place) => {
            among(place, start, cells) || among(place, start.after(cells + 1), 1)
        }
        Seen::Shared(_) => false,
    }
}

// A torn row reads a byte more than its cells, and beside the cells.
fn torn_reads(seen: Seen, start: Place, capacity: usize) -> bool
    requires { InMemory seen × capacity ≤ 132 }
    ensures { result ≡ reads_byte (Some seen) (from start (capacity + 1)) (from start capacity) }
{
    match seen {
        Seen::Screen(place) => among(place, start, capacity + 1),
        Seen::Attribute(place) => among(place, start, capacity),
        Seen::Shared(_) => false,
    }
}

// The first row that reads a byte, by the walk of memory as it is, if there is one. A part of the store that asks for
// it, as the kit's compiler has no other way to see that a byte of shared memory needs no walk.
#[inline(always)]
pub fn first_reader(page: &Page, seen: Seen) -> Option<Reader>
    requires { InMemory seen }
    ensures { result ≡ found (chain_on page.now) (Some seen) }
{
    // No walk for a byte that no row can read.
    if let Seen::Shared(_) = seen {
        return None;
    }
    let mut head = Head::first();
    for row in 0..chain::ROWS {
        let reader = Reader {
            row,
            ahead: Some(head),
        };
        let Some(cells) = page.find_terminator(&head) else {
            // After a torn row all rows are dark, and a dark row reads nothing.
            return torn_reads(seen, head.start, page.capacity(head.kind)).then_some(reader);
        };
        if whole_reads(seen, head.start, cells) {
            return Some(reader);
        }
        head = page.link(&head, cells);
    }
    None
}
