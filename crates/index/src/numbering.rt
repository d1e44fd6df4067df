// The entries of an index: those that are not under a row are forgotten, and a row's number is written to all that it
// reads.
ghost use Rattle.std.specs.Prelude.{ℕ, ◌≤◌, ◌<◌, ◌≡◌, map, length};
ghost use Rattle.lent.specs.Lengths.{index_bytes};
ghost use Rattle.chain.specs.Chain.{places};
ghost use Rattle.chain.specs.Reading.{from};
ghost use Rattle.readers.specs.Readers.{among};
ghost use Rattle.mending.specs.Inner.{InPlaces};
ghost use Rattle.index.specs.Inner.{forgotten, lower, unless_numbered, number_put, Changed, read_at};
ghost use Rattle.index.specs.Twice.{forgotten_twice, lower_twice, unless_twice};

use crate::Index;
use chain::Place;
use lent::{INDEX_BYTES, SCREEN_BYTES};
use records::RowRead;

// The entry of a place that no row reads.
pub const NO_ROW: u8 = 255;

// What becomes of an entry. What is done twice comes to the same as what is done once, so that it doesn't matter which
// places a row reads more than once.
pub trait Change: Copy {
    ghost changed: { Self → (entry : ℕ) → ℕ };

    fn of(self, entry: u8) -> u8
        ensures { result ≡ changed self entry };

    ghost twice: { (change : Self) (entry : ℕ) → changed change (changed change entry) ≡ changed change entry };
}

// An entry that is not under a row is forgotten.
#[derive(Clone, Copy)]
pub struct Forget {
    pub first: u8,
}

impl Change for Forget {
    ghost changed = { λ change. forgotten change.first };

    ghost twice = { λ change. forgotten_twice change.first };

    fn of(self, entry: u8) -> u8 {
        if entry < self.first { entry } else { NO_ROW }
    }
}

// A row's number in the place of an entry that is over it.
#[derive(Clone, Copy)]
pub struct Lower {
    pub row: u8,
}

impl Change for Lower {
    ghost changed = { λ change. lower change.row };

    ghost twice = { λ change. lower_twice change.row };

    fn of(self, entry: u8) -> u8 {
        if self.row < entry { self.row } else { entry }
    }
}

// A row's number where none stands. It takes longer; but of the numbers under the first row that is drawn all stay,
// those too that are over the row's.
#[derive(Clone, Copy)]
pub struct UnlessNumbered {
    pub row: u8,
}

impl Change for UnlessNumbered {
    ghost changed = { λ change. unless_numbered change.row };

    ghost twice = { λ change. unless_twice change.row };

    fn of(self, entry: u8) -> u8 {
        if entry == NO_ROW { self.row } else { entry }
    }
}

// Changes entries that stand next to each other. The loop has no way out but its end, so that they can be written
// together.
pub fn change_all<C: Change>(entries: &mut [u8], change: C)
    ensures { entries.new ≡ map (C.changed change) entries.old }
{
    for at in 0..entries.len() {
        entries[at] = change.of(entries[at]);
    }
}

// Changes the entries of so many places from a start on: up to the end of memory, and then from place 0 on.
fn change_places<C: Change>(entries: &mut [u8], start: Place, bytes: usize, change: C)
    requires { length entries.old ≡ places × bytes ≤ places }
    ensures { Changed (λ place. among place (from start bytes)) (C.changed change)
        entries.old entries.new }
{
    let at = start.at();
    let straight = start.before_the_end(bytes);
    change_all(&mut entries[at..at + straight], change);
    change_all(&mut entries[0..bytes - straight], change);
}

// Changes the entries of all that a row reads: bytes of screen memory, the attribute bytes beside its cells and, if it
// has a link, the one beside its low byte.
pub fn change_row<C: Change>(index: &mut Index, read: &RowRead, change: C)
    requires { InPlaces read.now }
    ensures { Changed (read_at read.now) (C.changed change) index.old index.new }
{
    let start = read.head.start;
    let low = start.after(read.cells + 1);
    let links = usize::from(read.next.is_some());
    change_places(&mut index[0..SCREEN_BYTES], start, read.reads, change);
    let beside = &mut index[SCREEN_BYTES..INDEX_BYTES];
    change_places(beside, start, read.cells, change);
    change_places(beside, low, links, change);
}

// Writes the number of a row that a store passes, of which the first that is drawn is told.
pub fn number_passed(index: &mut Index, read: &RowRead, row: u8, first: u8)
    requires { InPlaces read.now }
    ensures { Changed (read_at read.now) (number_put first row) index.old index.new }
{
    if row < first {
        change_row(index, read, UnlessNumbered { row });
    } else {
        change_row(index, read, Lower { row });
    }
}
