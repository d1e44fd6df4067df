// The answer why a cell shows what it shows, as two sentences: one about the cell, and one about the chain that led to
// its row. Document 02, ticket 6.
#![tactic(auto)]

mod cell;
mod links;
mod words;

ghost use Rattle.std.specs.Prelude.{◌≤◌, ◌<◌, ◌≡◌, IfOk, length, take};
ghost use Rattle.chain.specs.Chain.{rows};
ghost use Rattle.chain.specs.Page.{chain_on};
ghost use Rattle.ascii.specs.Text.{with_words};
ghost use Rattle.sentences.specs.Sentences.{last_row, both_sentences, said, say, text_bytes};

use ascii::Text;
use chain::Page;
use explaining::{Position, Why};
use lent::Refusal;
use machine::Machine;

// The first sentence and a clause of the second with each number at its longest, five digits.
const SENTENCE_MOST: usize = 190;

const CLAUSE_MOST: usize = 59;

pub const TEXT_BYTES: usize = SENTENCE_MOST + chain::ROWS * CLAUSE_MOST;

type Sentences = Text<TEXT_BYTES>;

// The last row that the second sentence names.
fn last_row(row: usize, why: Why) -> usize
    ensures { result ≡ last_row row why }
{
    match why {
        Why::Dark(tore) => usize::from(tore),
        _ => row,
    }
}

// Puts both sentences.
#[tactic(auto, using(ascii::proofs::Laws::with_both))]
fn put_both(text: &mut Sentences, page: &Page, at: &Position, why: Why)
    requires { last_row at.now.row why < rows }
    ensures { text.new
        ≡ with_words text_bytes text.old
        (both_sentences (chain_on page.now) at.now.row at.now.column why) }
{
    cell::put_sentence(text, page, at, why);
    links::put_chain(text, page, last_row(at.row, why));
}

#[tactic(auto, using(crate::proofs::Laws::last_on_screen, crate::proofs::Lengths::both_fit, ascii::proofs::Laws::with_all), unfolding(crate::specs::Sentences::say, crate::specs::Sentences::text_of, explaining::specs::Call::on_screen))]
// Says why a cell shows what it shows, and answers how many bytes of text there are.
pub fn say(
    machine: Machine,
    screen: &[u8],
    attribute: &[u8],
    row: usize,
    column: usize,
    text: &mut [u8; TEXT_BYTES],
) -> Result<usize, Refusal>
    ensures text_after { said result text.new
        ≡ say machine screen.now attribute.now row column text.old }
    ensures bytes_in_bounds { IfOk result (λ bytes. (bytes ≤ length text.new)
        × (bytes ≡ length (take bytes text.new))) }
{
    let screen = lent::lend(screen)?;
    let attribute = lent::lend(attribute)?;
    let at = Position::new(row, column)?;
    let page = picture::page_of(machine, screen, attribute);
    let why = explaining::explain_at(&page, &at);
    let mut sentences = Text::new();
    put_both(&mut sentences, &page, &at, why);
    Ok(sentences.copy_to(text))
}
