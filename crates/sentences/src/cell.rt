// The first sentence: why the cell shows what it shows.
ghost use Rattle.std.specs.Prelude.{◌≡◌};
ghost use Rattle.chain.specs.Page.{chain_on};
ghost use Rattle.ascii.specs.Text.{with_words};
ghost use Rattle.sentences.specs.Sentences.{row_and_column, shown, held_in, fill_sentence, past_sentence};
ghost use Rattle.sentences.specs.Sentences.{past_in, dark_sentence, sentence, text_bytes};

use super::words::put_around;
use super::{Sentences, words};
use chain::{Page, Place};
use explaining::{Position, Reached, Why};

#[tactic(auto, using(ascii::proofs::Laws::with_both), unfolding(crate::specs::Sentences::row_and_column, ascii::specs::Ascii::ascii))]
fn put_row_and_column(text: &mut Sentences, at: &Position)
    ensures { text.new ≡ with_words text_bytes text.old (row_and_column at.now.row at.now.column) }
{
    put_around(text, "Row ", at.row as u16, ", column ");
    text.put_decimal(at.column as u16);
}

#[tactic(auto, using(ascii::proofs::Laws::with_both, chain::proofs::Alike::same_place), unfolding(crate::specs::Sentences::shown, ascii::specs::Ascii::ascii))]
fn put_shown(text: &mut Sentences, page: &Page, at: &Position, place: u16)
    ensures { text.new
        ≡ with_words text_bytes text.old
        (shown page.now.screen.now page.now.attribute.now at.now.row at.now.column place) }
{
    let place = Place::new(place as usize);
    put_row_and_column(text, at);
    text.put(" shows ");
    words::put_character(text, chain::byte_at(page.screen, place));
    words::put_attribute(text, chain::byte_at(page.attribute, place));
}

#[tactic(auto, using(ascii::proofs::Laws::with_both), unfolding(crate::specs::Sentences::held_in, ascii::specs::Ascii::ascii))]
fn put_held_in(text: &mut Sentences, place: u16, kind: u8)
    ensures { text.new ≡ with_words text_bytes text.old (held_in place kind) }
{
    put_around(text, ", held at place ", place, " of screen memory in ");
    words::put_kind(text, kind);
    text.put(".\n");
}

#[tactic(auto, using(ascii::proofs::Laws::with_both), unfolding(crate::specs::Sentences::fill_sentence, ascii::specs::Ascii::ascii))]
fn put_fill(text: &mut Sentences, at: &Position, place: u16)
    ensures { text.new ≡ with_words text_bytes text.old (fill_sentence at.now.row at.now.column place) }
{
    put_row_and_column(text, at);
    put_around(
        text,
        " is filled with a blank, since the row's end mark stands at place ",
        place,
        " of screen memory.\n",
    );
}

#[tactic(auto, using(ascii::proofs::Laws::with_both), unfolding(crate::specs::Sentences::past_sentence, ascii::specs::Ascii::ascii))]
fn put_past_kind(text: &mut Sentences, at: &Position, kind: u8, last: u16)
    ensures { text.new
        ≡ with_words text_bytes text.old (past_sentence at.now.row at.now.column kind last) }
{
    put_around(text, "Row ", at.row as u16, " has no column ");
    text.put_decimal(at.column as u16);
    text.put(": ");
    words::put_kind(text, kind);
    put_around(text, " has columns 0 to ", last, " only.\n");
}

// No column is past the end of a dark row.
#[tactic(auto, using(ascii::proofs::Laws::with_none))]
fn put_past(text: &mut Sentences, page: &Page, at: &Position, reached: Result<Reached, u8>)
    ensures { text.new
        ≡ with_words text_bytes text.old
        (past_in page.now.columns at.now.row at.now.column reached) }
{
    if let Ok(found) = reached {
        let kind = found.head.kind;
        let last = page.capacity(kind).saturating_sub(1);
        put_past_kind(text, at, kind, last as u16);
    }
}

#[tactic(auto, using(ascii::proofs::Laws::with_both), unfolding(crate::specs::Sentences::dark_sentence, ascii::specs::Ascii::ascii))]
fn put_dark(text: &mut Sentences, at: &Position, tore: u8)
    ensures { text.new ≡ with_words text_bytes text.old (dark_sentence at.now.row at.now.column tore) }
{
    put_row_and_column(text, at);
    put_around(
        text,
        " is dark, since row ",
        u16::from(tore),
        " is torn: its end mark is missing or too far on, so no row follows it.\n",
    );
}

// Puts the sentence for each answer.
#[tactic(auto, using(ascii::proofs::Laws::with_both, ascii::proofs::Laws::with_none))]
pub fn put_sentence(text: &mut Sentences, page: &Page, at: &Position, why: Why)
    ensures { text.new
        ≡ with_words text_bytes text.old (sentence (chain_on page.now) at.now.row at.now.column why) }
{
    match why {
        Why::Cell {
            place,
            kind,
            led: _,
        } => {
            put_shown(text, page, at, place);
            put_held_in(text, place, kind);
        }
        Why::Fill { place, led: _ } => put_fill(text, at, place),
        Why::Past(_) => put_past(text, page, at, explaining::reach(page, at.row)),
        Why::Dark(tore) => put_dark(text, at, tore),
    }
}
