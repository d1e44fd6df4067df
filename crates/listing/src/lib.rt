// The row lister's text: a line for each row of a picture. Document 01, "Screens and ports worked
// out".
#![tactic(auto)]

ghost use Rattle.std.specs.Prelude.{◌*◌, ◌≤◌, ◌<◌, ◌≡◌, length, take};
ghost use Rattle.chain.specs.Chain.{rows};
ghost use Rattle.picture.specs.Draw.{drawn as drawn_picture, drawing_answered};
ghost use Rattle.ascii.specs.Text.{with_words};
ghost use Rattle.listing.specs.Listing.{text_bytes, heading, counted, line_of, lines_to};
ghost use Rattle.listing.specs.Listing.{refused_text, text_of, drawing, listed, list_rows};

use ascii::Text;
use lent::Refusal;
use machine::Machine;
use picture::{Drawing, Picture};

// The heading and a line with each number at its longest, five digits.
const HEADING_MOST: usize = 26;

const LINE_MOST: usize = 23;

pub const TEXT_BYTES: usize = HEADING_MOST + chain::ROWS * LINE_MOST;

// What listing answers: how many bytes of text there are, and the drawing's answer, of which the text says all but the
// wild row.
#[derive(Clone, Copy, Debug, PartialEq, Eq)]
pub struct Listed {
    pub bytes: usize,
    pub drawn: Result<Drawing, Refusal>,
}

type Lines = Text<TEXT_BYTES>;

#[tactic(auto, using(ascii::proofs::Laws::with_both), unfolding(crate::specs::Listing::heading, ascii::specs::Ascii::ascii))]
fn put_heading(lines: &mut Lines, columns: u16, reads: u16)
    ensures { lines.new ≡ with_words text_bytes lines.old (heading columns reads) }
{
    lines.put("columns ");
    lines.put_decimal(columns);
    lines.put(" reads ");
    lines.put_decimal(reads);
    lines.put("\n");
}

#[tactic(auto, using(ascii::proofs::Laws::with_both), unfolding(crate::specs::Listing::counted, ascii::specs::Ascii::ascii))]
fn put_counted(lines: &mut Lines, count: u8)
    ensures { lines.new ≡ with_words text_bytes lines.old (counted count) }
{
    if count == records::TORN {
        lines.put("torn");
    } else {
        lines.put_decimal(u16::from(count));
    }
}

#[tactic(auto, using(ascii::proofs::Laws::with_both, ascii::proofs::Laws::with_none), unfolding(crate::specs::Listing::line_of, crate::specs::Listing::line, crate::specs::Listing::row_and_start, ascii::specs::Ascii::ascii))]
fn put_row(lines: &mut Lines, picture: &Picture, row: usize)
    requires { row < rows }
    ensures { lines.new ≡ with_words text_bytes lines.old (line_of picture.now row) }
{
    let head = row * records::RECORD_BYTES;
    let count = picture[head + records::COUNT_AT];
    if count == records::DARK {
        return;
    }
    lines.put_decimal(row as u16);
    lines.put(" ");
    lines.put_hex(picture[head]);
    lines.put_hex(picture[head + records::START_LOW_AT]);
    lines.put(" ");
    lines.put_decimal(u16::from(picture[head + records::KIND_AT]));
    lines.put(" ");
    put_counted(lines, count);
    lines.put("\n");
}

#[tactic(auto, using(ascii::proofs::Laws::with_both, ascii::proofs::Laws::with_none), unfolding(crate::specs::Listing::lines_to))]
fn put_rows(lines: &mut Lines, picture: &Picture)
    ensures { lines.new ≡ with_words text_bytes lines.old (lines_to picture.now rows) }
{
    for row in 0..chain::ROWS {
        put_row(lines, picture, row);
    }
}

#[tactic(auto, using(ascii::proofs::Laws::with_both), unfolding(crate::specs::Listing::refused_text, ascii::specs::Ascii::ascii))]
fn put_refused(lines: &mut Lines, number: u8)
    ensures { lines.new ≡ with_words text_bytes lines.old (refused_text number) }
{
    lines.put("refused ");
    lines.put_decimal(u16::from(number));
    lines.put("\n");
}

#[tactic(auto, using(ascii::proofs::Laws::with_both), unfolding(crate::specs::Listing::text_of))]
fn put_drawn(lines: &mut Lines, columns: u16, drawn: Result<Drawing, Refusal>, picture: &Picture)
    ensures { lines.new
        ≡ with_words text_bytes lines.old
        (text_of columns (drawn_picture (drawing_answered drawn) picture.now)) }
{
    match drawn {
        Ok(drawing) => {
            put_heading(lines, columns, drawing.reads);
            put_rows(lines, picture);
        }
        Err(refusal) => put_refused(lines, refusal.number()),
    }
}

// The drawing of what was read. `beyond` bytes came after the two memories: none, or the input was
// too long.
#[tactic(auto, unfolding(crate::specs::Listing::drawing))]
fn draw_read(
    screen: &[u8],
    attribute: &[u8],
    beyond: usize,
    picture: &mut Picture,
) -> Result<Drawing, Refusal>
    ensures { drawn_picture (drawing_answered result) picture.new
        ≡ drawing screen.now attribute.now beyond picture.old }
{
    if beyond != 0 {
        return Err(Refusal::Length);
    }
    picture::draw(Machine::power_up(), screen, attribute, picture)
}

// Draws what was read at power-up, which is at 80 columns, and lists its rows.
pub fn list_rows(
    screen: &[u8],
    attribute: &[u8],
    beyond: usize,
    picture: &mut Picture,
    text: &mut [u8; TEXT_BYTES],
) -> Listed
    ensures text_after { listed result picture.new text.new
        ≡ list_rows screen.now attribute.now beyond
        picture.old text.old }
    ensures bytes_in_bounds { (result.bytes ≤ length text.new)
        × (result.bytes ≡ length (take result.bytes text.new)) }
{
    let drawn = draw_read(screen, attribute, beyond, picture);
    let columns = Machine::power_up().columns() as u16;
    let mut lines = Text::new();
    put_drawn(&mut lines, columns, drawn, picture);
    let bytes = lines.copy_to(text);
    Listed { bytes, drawn }
}
