// The second sentence: the chain of links that led to the row.
ghost use Rattle.std.specs.Prelude.{◌<◌, ◌≡◌};
ghost use Rattle.chain.specs.Chain.{rows};
ghost use Rattle.chain.specs.Page.{chain_on};
ghost use Rattle.ascii.specs.Text.{with_words};
ghost use Rattle.sentences.specs.Sentences.{clause, link_clause, chain_sentence, text_bytes};

use super::Sentences;
use super::words::put_around;
use chain::Page;
use explaining::Reached;

#[tactic(auto, using(ascii::proofs::Laws::with_both), unfolding(crate::specs::Sentences::clause, ascii::specs::Ascii::ascii))]
fn put_clause(text: &mut Sentences, place: u16, row: u16, start: u16)
    ensures { text.new ≡ with_words text_bytes text.old (clause place row start) }
{
    put_around(text, "; the link at place ", place, " leads to row ");
    text.put_decimal(row);
    text.put(" at place ");
    text.put_decimal(start);
}

// No link led to row 0, nor to a dark row.
#[tactic(auto, using(ascii::proofs::Laws::with_none))]
fn put_link(text: &mut Sentences, row: u16, reached: Result<Reached, u8>)
    ensures { text.new ≡ with_words text_bytes text.old (link_clause row reached) }
{
    let Ok(found) = reached else {
        return;
    };
    if let Some(place) = found.led {
        put_clause(text, place, row, found.head.start.at() as u16);
    }
}

// Puts the chain to a row: where row 0 starts, and a clause for each row after it.
#[tactic(auto, using(ascii::proofs::Laws::with_both, ascii::proofs::Laws::with_none), unfolding(crate::specs::Sentences::chain_sentence, crate::specs::Sentences::clauses_to, ascii::specs::Ascii::ascii))]
pub fn put_chain(text: &mut Sentences, page: &Page, last: usize)
    requires { last < rows }
    ensures { text.new
        ≡ with_words text_bytes text.old (chain_sentence (chain_on page.now) last) }
{
    text.put("Row 0 starts at place 0");
    for row in 0..last {
        let next = row + 1;
        put_link(text, next as u16, explaining::reach(page, next));
    }
    text.put(".\n");
}
