// The picture: a record for each row of the chain, drawn afresh from memory. Document 01, "The
// picture".
#![tactic(auto)]

ghost use Rattle.std.specs.Prelude.{◌≤◌, ◌≡◌, length};
ghost use Rattle.chain.specs.Page.{chain_on};
ghost use Rattle.chain.specs.Reading.{walk_reads};
ghost use Rattle.records.specs.Record.{record_bytes, record_pairs};
ghost use Rattle.records.specs.Inner.{record_read};
ghost use Rattle.picture.specs.Picture.{picture_of};
ghost use Rattle.picture.specs.Wild.{first_wild};
ghost use Rattle.picture.specs.Draw.{chain_of, drawing_answered, drawn, draw};
ghost use Rattle.picture.specs.Inner.{named};

use chain::{Head, Memory, Page};
use lent::Refusal;
use machine::Machine;
use records::RowRead;

pub type Picture = [u8; lent::PICTURE_BYTES];

// What a drawing answers: the bytes of screen memory that the walk read, and the first row whose link is wild.
#[derive(Clone, Copy, Debug, PartialEq, Eq)]
pub struct Drawing {
    pub reads: u16,
    pub wild: Option<u8>,
}

// The same as numbers: whether the link of any row is wild, and the first such row, or 0.
#[repr(C)]
#[derive(Clone, Copy, Debug, PartialEq, Eq)]
pub struct Drawn {
    pub refusal: u8,
    pub reads: u16,
    pub wild: bool,
    pub wild_row: u8,
}

impl From<Result<Drawing, Refusal>> for Drawn {
    ghost from_gives = { λ outcome told. told ≡ drawing_answered outcome };

    fn from(outcome: Result<Drawing, Refusal>) -> Drawn {
        match outcome {
            Ok(drawing) => Drawn {
                refusal: lent::ACCEPTED,
                reads: drawing.reads,
                wild: drawing.wild.is_some(),
                wild_row: drawing.wild.unwrap_or(0),
            },
            Err(refusal) => Drawn {
                refusal: refusal.number(),
                reads: 0,
                wild: false,
                wild_row: 0,
            },
        }
    }
}

// The rows that a machine's column setting and two memories make.
pub fn page_of<'a>(machine: Machine, screen: &'a Memory, attribute: &'a Memory) -> Page<'a>
    ensures { chain_on result ≡ chain_of machine screen.now attribute.now }
{
    Page {
        columns: machine.columns(),
        screen,
        attribute,
    }
}

// Names a row that is wild, unless one before it is named.
fn name(before: Option<u8>, row: u8, wild: bool) -> Option<u8>
    ensures { result ≡ named before row wild }
{
    if wild { before.or(Some(row)) } else { before }
}

// The record of a row, in its part of the picture.
fn draw_part(page: &Page, row: &RowRead, part: &mut [u8])
    requires fits { row.now.cells ≤ record_pairs }
    requires room { length part.old ≡ record_bytes }
    ensures { part.new
        ≡ record_read page.now.screen.now page.now.attribute.now row.now }
{
    let Some(record) = part.as_mut_array() else {
        unreachable!()
    };
    records::draw_row(page, row, record);
}

fn draw_rows(page: &Page, picture: &mut Picture) -> Drawing
    ensures reads { result.reads ≡ walk_reads (chain_on page.now) }
    ensures wild { result.wild ≡ first_wild (chain_on page.now) }
    ensures picture_after { picture.new ≡ picture_of (chain_on page.now) }
{
    let mut ahead = Some(Head::first());
    let mut reads = 0;
    let mut wild = None;
    for row in 0..chain::ROWS {
        let at = row * records::RECORD_BYTES;
        let end = at + records::RECORD_BYTES;
        let read = records::read_ahead(page, ahead);
        draw_part(page, &read, &mut picture[at..end]);
        reads += read.reads;
        wild = name(wild, row as u8, read.wild);
        ahead = read.next;
    }
    Drawing {
        reads: reads as u16,
        wild,
    }
}

// Draws the picture afresh from screen and attribute memory.
#[tactic(auto, unfolding(crate::specs::Draw::lengths_picture))]
pub fn draw(
    machine: Machine,
    screen: &[u8],
    attribute: &[u8],
    picture: &mut [u8],
) -> Result<Drawing, Refusal>
    ensures { drawn (drawing_answered result) picture.new
        ≡ draw machine screen.now attribute.now picture.old }
{
    let screen = lent::lend(screen)?;
    let attribute = lent::lend(attribute)?;
    let picture = picture.as_mut_array().ok_or(Refusal::Length)?;
    let page = page_of(machine, screen, attribute);
    Ok(draw_rows(&page, picture))
}
