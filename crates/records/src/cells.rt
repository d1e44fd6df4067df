// The pairs of a row's cells.

ghost use Rattle.std.specs.Prelude.{◌*◌, ◌≤◌, ◌≡◌, ◌++◌, length, drop};
ghost use Rattle.records.specs.Record.{record_pairs, cell_pairs};
ghost use Rattle.records.specs.Inner.{pairs_in};

use crate::RowRead;
use chain::{Memory, Page};

// The pairs of cells that stand next to each other in memory. The loop has no way out but its end, and the parts have
// the length that it goes to, so that the cells can be copied together.
fn put_cells(characters: &[u8], attributes: &[u8], pairs: &mut [u8])
    requires beside { length attributes.now ≡ length characters.now }
    requires room { length pairs.old ≡ 2 * length characters.now }
    ensures { pairs.new
        ≡ pairs_in characters.now attributes.now (length characters.now) }
{
    let cells = characters.len();
    let beside = &attributes[..cells];
    let pairs = &mut pairs[..2 * cells];
    for cell in 0..cells {
        pairs[2 * cell] = characters[cell];
        pairs[2 * cell + 1] = beside[cell] % 16;
    }
}

// The pairs of a row's cells: of those up to the end of memory, and then of those from place 0 on. It is apart from
// `draw_cells`, since a row took a dozen instructions more, a dark one an eighth, where each asked for both its parts.
fn draw_round(page: &Page, row: &RowRead, pairs: &mut [u8])
    requires few { row.now.cells ≤ record_pairs }
    requires room { length pairs.old ≡ 2 * record_pairs }
    ensures { pairs.new
        ≡ cell_pairs page.now.screen.now page.now.attribute.now row.now.head.start row.now.cells
        ++ drop (2 * row.now.cells) pairs.old }
{
    let screen: &Memory = page.screen;
    let attribute: &Memory = page.attribute;
    let start = row.head.start.at();
    let straight = row.head.start.before_the_end(row.cells);
    put_cells(
        &screen[start..start + straight],
        &attribute[start..start + straight],
        &mut pairs[..2 * straight],
    );
    let rest = row.cells - straight;
    put_cells(
        &screen[..rest],
        &attribute[..rest],
        &mut pairs[2 * straight..2 * row.cells],
    );
}

// The same. A row that ends before memory does is one part, and most do.
pub fn draw_cells(page: &Page, row: &RowRead, pairs: &mut [u8])
    requires few { row.now.cells ≤ record_pairs }
    requires room { length pairs.old ≡ 2 * record_pairs }
    ensures { pairs.new
        ≡ cell_pairs page.now.screen.now page.now.attribute.now row.now.head.start row.now.cells
        ++ drop (2 * row.now.cells) pairs.old }
{
    let screen: &Memory = page.screen;
    let attribute: &Memory = page.attribute;
    let start = row.head.start.at();
    let end = start + row.cells;
    if end > lent::SCREEN_BYTES {
        draw_round(page, row, pairs);
        return;
    }
    put_cells(
        &screen[start..end],
        &attribute[start..end],
        &mut pairs[..2 * row.cells],
    );
}
