// Why a cell of the screen shows what it shows: the place that holds it, and the link that led to its row. Document 02,
// ticket 6.
#![tactic(auto)]

ghost use Rattle.std.specs.Prelude.{◌<◌, ◌≡◌, ◌↔◌, IsOk, IfOk, IfErr};
ghost use Rattle.lent.specs.declared.refusals.Refusal.TheVariants.{Place as PlaceRefused};
ghost use Rattle.chain.specs.Chain.{rows};
ghost use Rattle.chain.specs.Page.{chain_on};
ghost use Rattle.records.specs.Record.{record_pairs};
ghost use Rattle.explaining.specs.Explain.{reached, why};
ghost use Rattle.explaining.specs.Call.{in_numbers, explain};
ghost use Rattle.explaining.specs.Numbers.{numbers, told};
ghost use Rattle.explaining.specs.Inner.{follows, in_row};

use chain::{Head, Page};
use lent::Refusal;
use machine::Machine;

// What the chain comes to at a row: its head, and what led there: the place of the link's low byte, or nothing to row
// 0, where the chain begins.
#[derive(Clone, Copy)]
pub struct Reached {
    pub head: Head,
    pub led: Option<u16>,
}

// Why a cell shows what it shows.
#[derive(Clone, Copy, Debug, PartialEq, Eq)]
pub enum Why {
    // A cell: the place that holds it, the kind of its row, and what led to the row.
    Cell {
        place: u16,
        kind: u8,
        led: Option<u16>,
    },
    // Fill: the place of the terminator that ended the row.
    Fill {
        place: u16,
        led: Option<u16>,
    },
    // Past the row's capacity.
    Past(Option<u16>),
    // Dark: the row that tore.
    Dark(u8),
}

// The number of each answer, which C is told; 0 where the call is refused.
pub const CELL: u8 = 1;

pub const FILL: u8 = 2;

pub const PAST: u8 = 3;

pub const DARK: u8 = 4;

// The answer as numbers. What an answer does not have is 0, and `linked` is set where a link led to the row.
#[repr(C)]
#[derive(Clone, Copy, Debug, PartialEq, Eq)]
pub struct Explained {
    pub refusal: u8,
    pub answer: u8,
    pub place: u16,
    pub kind: u8,
    pub tore: u8,
    pub linked: bool,
    pub link: u16,
}

// What led to a row, as numbers.
fn led_by(led: Option<u16>) -> Explained
    ensures { result ≡ numbers 0 0 0 0 0 led }
{
    Explained {
        refusal: lent::ACCEPTED,
        answer: 0,
        place: 0,
        kind: 0,
        tore: 0,
        linked: led.is_some(),
        link: led.unwrap_or(0),
    }
}

impl From<Result<Why, Refusal>> for Explained {
    ghost from_gives = { λ outcome given. given ≡ told (in_numbers outcome) };

    fn from(outcome: Result<Why, Refusal>) -> Explained {
        match outcome {
            Ok(Why::Cell { place, kind, led }) => Explained {
                answer: CELL,
                place,
                kind,
                ..led_by(led)
            },
            Ok(Why::Fill { place, led }) => Explained {
                answer: FILL,
                place,
                ..led_by(led)
            },
            Ok(Why::Past(led)) => Explained {
                answer: PAST,
                ..led_by(led)
            },
            Ok(Why::Dark(tore)) => Explained {
                answer: DARK,
                tore,
                ..led_by(None)
            },
            Err(refusal) => Explained {
                refusal: refusal.number(),
                ..led_by(None)
            },
        }
    }
}

// What a row leads to: the row that its link points to, and the place of the link; a torn one leads nowhere.
fn follow(page: &Page, head: &Head) -> Option<Reached>
    ensures { result ≡ follows (chain_on page.now) head.now }
{
    let cells = page.find_terminator(head)?;
    Some(Reached {
        head: page.link(head, cells),
        led: Some(head.start.after(cells + 1).at() as u16),
    })
}

// What the chain comes to at a row: back link by link, to row 0, where it begins; of a dark row, the row that tore.
pub fn reach(page: &Page, row: usize) -> Result<Reached, u8>
    requires { row < rows }
    ensures { result ≡ reached (chain_on page.now) row }
{
    if row == 0 {
        return Ok(Reached {
            head: Head::first(),
            led: None,
        });
    }
    let before = reach(page, row - 1)?;
    follow(page, &before.head).ok_or((row - 1) as u8)
}

// Why a column of a row that is not dark shows what it shows.
fn explain_in_row(page: &Page, found: &Reached, column: usize) -> Why
    ensures { result ≡ in_row (chain_on page.now) found.now column }
{
    let start = found.head.start;
    let led = found.led;
    if column >= page.capacity(found.head.kind) {
        return Why::Past(led);
    }
    match page.find_terminator(&found.head) {
        Some(cells) if column >= cells => Why::Fill {
            place: start.after(cells).at() as u16,
            led,
        },
        _ => Why::Cell {
            place: start.after(column).at() as u16,
            kind: found.head.kind,
            led,
        },
    }
}

// A cell of the screen: a row that the chain has, and a column that a record has.
#[derive(Clone, Copy)]
pub struct Position {
    pub row: usize,
    pub column: usize,
    pub ghost on_a_row: { row < rows },
    pub ghost in_a_column: { column < record_pairs },
}

impl Position {
    pub fn new(row: usize, column: usize) -> Result<Position, Refusal>
        ensures ok { IfOk result (λ at. (at.row ≡ row) × (at.column ≡ column)) }
        ensures fits { IsOk result ↔ ((row < rows) × (column < record_pairs)) }
        ensures by_5 { IfErr result (λ refusal. refusal ≡ PlaceRefused) }
    {
        if row < chain::ROWS && column < records::RECORD_PAIRS {
            Ok(Position { row, column })
        } else {
            Err(Refusal::Place)
        }
    }
}

// Why a cell of a page shows what it shows.
pub fn explain_at(page: &Page, at: &Position) -> Why
    ensures { result ≡ why (chain_on page.now) at.now.row at.now.column }
{
    match reach(page, at.row) {
        Ok(found) => explain_in_row(page, &found, at.column),
        Err(tore) => Why::Dark(tore),
    }
}

// Says why a cell shows what it shows.
#[tactic(auto, unfolding(crate::specs::Call::on_screen))]
pub fn explain(
    machine: Machine,
    screen: &[u8],
    attribute: &[u8],
    row: usize,
    column: usize,
) -> Result<Why, Refusal>
    ensures { in_numbers result ≡ explain machine screen.now attribute.now row column }
{
    let screen = lent::lend(screen)?;
    let attribute = lent::lend(attribute)?;
    let at = Position::new(row, column)?;
    let page = picture::page_of(machine, screen, attribute);
    Ok(explain_at(&page, &at))
}
