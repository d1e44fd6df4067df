// A scan line of a row of the picture, as the tube shows it. Document 01, "Dots".
#![tactic(auto)]

ghost use Rattle.std.specs.Prelude.{◌≤◌, ◌<◌, ◌≡◌, take};
ghost use Rattle.lent.specs.Lengths.{line_bytes};
ghost use Rattle.lent.specs.Refusals.{answered};
ghost use Rattle.chain.specs.Chain.{rows, wide};
ghost use Rattle.picture.specs.Picture.{record_in};
ghost use Rattle.scan_line.specs.Line.{kind_in, count_in, row_dots, dots_of_line, shows_nothing, line_of};
ghost use Rattle.scan_line.specs.Inner.{cells_of};
ghost use Rattle.scan_line.specs.Call.{drawn_line, draw_line};

use dots::Shades;
use glyphs::{Scan, Table};
use lent::Refusal;
use machine::Machine;
use picture::Picture;
use records::Record;

type Line = [u8; lent::LINE_BYTES];

// "A line has 800 or 1,188 dots".
const LINE_DOTS_80: usize = 800;

const LINE_DOTS_132: usize = 1188;

// How many dots a line has.
pub fn dots_of_line(machine: Machine) -> usize
    ensures value { result ≡ dots_of_line machine }
    ensures fits { result ≤ line_bytes }
{
    if machine.columns132 {
        LINE_DOTS_132
    } else {
        LINE_DOTS_80
    }
}

// How many cells a row can have.
fn cells_of(columns132: bool, wide: bool) -> usize
    ensures { result ≡ cells_of columns132 wide }
{
    let cells = if columns132 { 132 } else { 80 };
    if wide { cells / 2 } else { cells }
}

// A row of the picture at a scan of the screen, and what its dots are made of.
#[derive(Clone, Copy)]
struct Row<'a> {
    machine: Machine,
    table: &'a Table,
    bytes: &'a Record,
    scan: Scan,
}

impl Row<'_> {
    fn kind(&self) -> u8
        ensures { result ≡ kind_in self.now.bytes.now }
    {
        self.bytes[records::KIND_AT] % 8
    }

    // Whether the whole line is 0.
    #[tactic(auto, unfolding(crate::specs::Line::shows_nothing))]
    fn shows_nothing(&self) -> bool
        ensures { result ≡ shows_nothing self.now.machine (count_in self.now.bytes.now) }
    {
        let off = self.machine.blanked() | self.machine.graphics();
        off | (self.bytes[records::COUNT_AT] == records::DARK)
    }

    // Draws the record's first pairs, as many as a row can have cells. A compiler makes a loop of each of the four, in
    // which nothing is left to decide.
    fn draw_cells<const COLUMNS132: bool, const WIDE: bool>(&self, line: &mut Line)
        requires columns { self.now.machine.columns132 ≡ COLUMNS132 }
        requires kind { wide (kind_in self.now.bytes.now) ≡ WIDE }
        ensures { take (dots_of_line self.now.machine) line.new
            ≡ row_dots self.now.machine self.now.table.now self.now.bytes.now self.now.scan }
    {
        let table = self.table;
        let bytes = self.bytes;
        let scan = self.scan.of_glyph(self.kind());
        let shades = Shades::new(self.machine, scan);
        let width = dots::cell_width(COLUMNS132, WIDE);
        let cells = cells_of(COLUMNS132, WIDE);
        for cell in 0..cells {
            let pair = records::HEAD_BYTES + 2 * cell;
            let glyph = glyphs::byte(table, bytes[pair], scan);
            let at = cell * width;
            shades.draw_cell(WIDE, bytes[pair + 1], glyph, &mut line[at..at + width]);
        }
    }

    fn draw_dots(&self, line: &mut Line)
        ensures { take (dots_of_line self.now.machine) line.new
            ≡ row_dots self.now.machine self.now.table.now self.now.bytes.now self.now.scan }
    {
        match (self.machine.columns132, chain::is_wide(self.kind())) {
            (true, true) => self.draw_cells::<true, true>(line),
            (true, false) => self.draw_cells::<true, false>(line),
            (false, true) => self.draw_cells::<false, true>(line),
            (false, false) => self.draw_cells::<false, false>(line),
        }
    }

    #[tactic(auto, unfolding(crate::specs::Line::line_of))]
    fn draw(&self, line: &mut Line)
        ensures { line.new ≡ line_of self.now.machine self.now.table.now self.now.bytes.now self.now.scan }
    {
        if self.shows_nothing() {
            line.fill(0);
            return;
        }
        self.draw_dots(line);
        line[dots_of_line(self.machine)..].fill(0);
    }
}

#[tactic(auto, unfolding(picture::specs::Picture::record_in))]
fn record_in(picture: &Picture, row: usize) -> &Record
    requires { row < rows }
    ensures { result.now ≡ record_in picture.now row }
{
    let at = row * records::RECORD_BYTES;
    let Some(bytes) = picture[at..at + records::RECORD_BYTES].as_array() else {
        unreachable!()
    };
    bytes
}

// Draws the dots of one scan line of a row.
#[tactic(auto, unfolding(crate::specs::Call::lengths_line, crate::specs::Call::on_tube))]
pub fn draw(
    machine: Machine,
    picture: &[u8],
    table: &[u8],
    row: usize,
    scan: usize,
    line: &mut [u8],
) -> Result<(), Refusal>
    ensures { drawn_line (answered result) line.new
        ≡ draw_line machine picture.now table.now row scan line.old }
{
    let picture = lent::lend(picture)?;
    let table = lent::lend(table)?;
    let line = line.as_mut_array().ok_or(Refusal::Length)?;
    if row >= chain::ROWS {
        return Err(Refusal::Place);
    }
    let scan = Scan::new(scan).ok_or(Refusal::Place)?;
    let row = Row {
        machine,
        table,
        bytes: record_in(picture, row),
        scan,
    };
    row.draw(line);
    Ok(())
}
