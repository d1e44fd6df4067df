// The whole screen: which scan of which row each of its lines shows, as the scroll latch says. Document
// 02, ticket 5.
#![tactic(auto)]

ghost use Rattle.std.specs.Prelude.{◌+◌, ◌-◌, ◌/◌, ◌%◌, ◌≤◌, ◌<◌, ◌≡◌, length};
ghost use Rattle.lent.specs.Refusals.{answered};
ghost use Rattle.chain.specs.Chain.{rows};
ghost use Rattle.whole_screen.specs.Screen.{scrolls, run_start, run_end, screen_lines};
ghost use Rattle.whole_screen.specs.Call.{kinds_in, latch_most, listed, list_lines};
ghost use Rattle.whole_screen.specs.Inner.{lines_of_rows, Listed, lines_from, number_at, by_number, run_of};

use lent::Refusal;
use machine::Machine;
use picture::Picture;

mod lines;

// "A screen is 240 lines": those of the rows at rest.
pub const LINES: usize = chain::ROWS_AT_REST * glyphs::LAST_SCAN;
// A row has ten scans, so a run can have moved up by nine at most.
const LATCH_MOST: u8 = 9;

// A row and a scan for each line.
type List = [u8; lent::LIST_BYTES];

// Every line that the rows have in full.
type Lines = [u8; 2 * lines::LINES_OF_ROWS];

// The rows that scroll: the first of them, and the row after the last.
#[derive(Clone, Copy)]
struct Run {
    first: usize,
    end: usize,
}

// Whether a row of the picture scrolls: bit 2 of its kind.
fn row_scrolls(picture: &Picture, row: usize) -> bool
    requires { row < rows }
    ensures { result ≡ scrolls (kinds_in picture.now row) }
{
    picture[row * records::RECORD_BYTES + records::KIND_AT] % 8 / 4 == 1
}

// The first run of rows that scroll, if there is one. A call of its own: of loops among what follows them a compiler
// makes longer ones.
#[inline(never)]
fn first_run(picture: &Picture) -> Option<Run>
    ensures { result ≡ run_of (kinds_in picture.now) }
{
    let first = (0..chain::ROWS).find(|row| row_scrolls(picture, *row))?;
    let end = (first..chain::ROWS)
        .find(|row| !row_scrolls(picture, *row))
        .unwrap_or(chain::ROWS);
    Some(Run { first, end })
}

fn all_lines() -> &'static Lines
    ensures { Listed result.now }
{
    &lines::ALL_LINES
}

// Fills a part of the list. All rows in full have ten lines each, numbered from the top; the part's lines are those
// from one number on. A part of no lines is not copied: to copy no bytes is a call too.
fn put_lines(from: usize, part: &mut [u8])
    requires even { length part.old % 2 ≡ 0 }
    requires among { from + length part.old / 2 ≤ lines_of_rows }
    ensures { part.new ≡ lines_from from (length part.old / 2) }
{
    if part.is_empty() {
        return;
    }
    let all = all_lines();
    let at = 2 * from;
    part.copy_from_slice(&all[at..at + part.len()]);
}

// Fills the list where a run scrolls. Of all lines the run's first row lacks the top ones, as many as the latch says, and
// its last row so many that a row is gone.
fn put_scrolled(run: Run, latch: usize, list: &mut List)
    requires run { (run.first < run.end) × (run.end ≤ rows) }
    requires latch { latch ≤ latch_most }
    ensures { list.new ≡ by_number (number_at run.first run.end latch) }
{
    let top = run.first * glyphs::LAST_SCAN;
    let foot = (run.end - 1) * glyphs::LAST_SCAN;
    put_lines(0, &mut list[0..2 * top]);
    put_lines(top + latch, &mut list[2 * top..2 * foot]);
    put_lines(
        foot + glyphs::LAST_SCAN,
        &mut list[2 * foot..lent::LIST_BYTES],
    );
}

// Fills the list.
fn put_screen(picture: &Picture, latch: usize, list: &mut List)
    requires { latch ≤ latch_most }
    ensures { list.new ≡ screen_lines (kinds_in picture.now) latch }
{
    if latch == 0 {
        put_lines(0, list);
        return;
    }
    match first_run(picture) {
        Some(run) => put_scrolled(run, latch, list),
        None => put_lines(0, list),
    }
}

// Lists the lines of the whole screen from the top: for each the row and the scan that it shows.
#[tactic(auto, unfolding(crate::specs::Call::lengths_list))]
pub fn list_lines(machine: Machine, picture: &[u8], list: &mut [u8]) -> Result<(), Refusal>
    ensures { listed (answered result) list.new ≡ list_lines machine picture.now list.old }
{
    let picture = lent::lend(picture)?;
    let list = list.as_mut_array().ok_or(Refusal::Length)?;
    let latch = machine.scroll_latch();
    if latch > LATCH_MOST {
        return Err(Refusal::Latch);
    }
    put_screen(picture, latch as usize, list);
    Ok(())
}
