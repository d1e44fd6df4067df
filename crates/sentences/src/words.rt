// The words for a character, an attribute and a kind.
ghost use Rattle.std.specs.Prelude.{◌≡◌, ◌++◌};
ghost use Rattle.ascii.specs.Numbers.{decimal};
ghost use Rattle.ascii.specs.Text.{with_words};
ghost use Rattle.sentences.specs.Words.{character_words, said_if, attribute_words, width_words, kind_words};
ghost use Rattle.sentences.specs.Sentences.{text_bytes};

use super::Sentences;

// The kinds in bits 1 and 0, beside the two halves.
const NORMAL: u8 = 3;

const DOUBLE_WIDTH: u8 = 2;

// Puts words around a number.
#[tactic(auto, using(ascii::proofs::Laws::with_both))]
pub fn put_around(text: &mut Sentences, before: &str, number: u16, after: &str)
    ensures { text.new
        ≡ with_words text_bytes text.old (before.now ++ decimal number ++ after.now) }
{
    text.put(before);
    text.put_decimal(number);
    text.put(after);
}

#[tactic(auto, unfolding(crate::specs::Words::character_words, crate::specs::Words::printable, ascii::specs::Ascii::ascii))]
pub fn put_character(text: &mut Sentences, byte: u8)
    ensures { text.new ≡ with_words text_bytes text.old (character_words byte) }
{
    match byte {
        b' ' => text.put("a blank"),
        33..=126 => text.put_bytes(&[b'"', byte, b'"']),
        _ => put_around(text, "character number ", u16::from(byte), ""),
    }
}

// Puts words where something holds.
#[tactic(auto, using(ascii::proofs::Laws::with_none), unfolding(crate::specs::Words::said_if))]
fn put_if(holds: bool, text: &mut Sentences, words: &str)
    ensures { text.new ≡ with_words text_bytes text.old (said_if holds words.now) }
{
    if holds {
        text.put(words);
    }
}

#[tactic(auto, using(ascii::proofs::Laws::with_both), unfolding(crate::specs::Words::attribute_words, ascii::specs::Ascii::ascii))]
pub fn put_attribute(text: &mut Sentences, attribute: u8)
    ensures { text.new ≡ with_words text_bytes text.old (attribute_words attribute) }
{
    put_if(attribute / 2 % 2 == 0, text, ", bold");
    put_if(attribute / 4 % 2 == 0, text, ", blinking");
    put_if(attribute / 8 % 2 == 0, text, ", underlined");
    put_if(attribute % 2 == 1, text, ", in reverse");
}

#[tactic(auto, unfolding(crate::specs::Words::width_words, ascii::specs::Ascii::ascii))]
fn width(kind: u8) -> &'static str
    ensures { result.now ≡ width_words kind }
{
    match kind % 4 {
        NORMAL => "a row of normal width",
        DOUBLE_WIDTH => "a row of double width",
        chain::TOP_HALF => "the top half of a row of double height",
        _ => "the bottom half of a row of double height",
    }
}

#[tactic(auto, using(ascii::proofs::Laws::with_both), unfolding(crate::specs::Words::kind_words, ascii::specs::Ascii::ascii))]
pub fn put_kind(text: &mut Sentences, kind: u8)
    ensures { text.new ≡ with_words text_bytes text.old (kind_words kind) }
{
    text.put(width(kind));
    put_if(kind / 4 % 2 == 1, text, " that scrolls");
}
