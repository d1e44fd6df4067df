// What a word of a line is to the form's word at the same place.
ghost use Rattle.std.specs.Prelude.{◌≤◌, ◌≡◌};
ghost use Rattle.std.specs.Str.{bytes_eq};
ghost use Rattle.commands.specs.Texts.{texts};
ghost use Rattle.commands.specs.Words.{first_word};
ghost use Rattle.commands.specs.Meanings.{number, named, meaning};

use super::words::split_word;

#[derive(Clone, Copy)]
pub enum Meaning {
    Number(usize),
    // The word that the form has.
    Plain,
}

// The number that a word is to a base, with no more digits than the form's word has. A number stays within 32 bits.
fn number(base: u32, form: &[u8], word: &[u8]) -> Option<usize>
    requires least { 2 ≤ base }
    requires most { base ≤ 16 }
    ensures { result ≡ number base form.now word.now }
{
    if word.len() > form.len() {
        return None;
    }
    let mut value = 0u32;
    for byte in word {
        let digit = char::from(*byte).to_digit(base)?;
        value = value.checked_mul(base)?.checked_add(digit)?;
    }
    Some(value as usize)
}

// Whether a name's first word is the word. A name with no words is found by no bytes.
fn is_named(name: &[u8], word: &[u8]) -> bool
    ensures { result ≡ bytes_eq (first_word name.now) word.now }
{
    match split_word(name) {
        Some((first, _)) => first == word,
        None => word.is_empty(),
    }
}

// The number of the first name whose first word is the word.
fn named(names: &[&[u8]], word: &[u8]) -> Option<usize>
    ensures { result ≡ named (texts names.now) word.now }
{
    names.iter().position(|name| is_named(name, word))
}

// What a word is to the form's word, if it fits it: H begins a hexadecimal number, D a decimal one, N a name.
pub fn meaning_of(names: &[&[u8]], form: &[u8], word: &[u8]) -> Option<Meaning>
    ensures { result ≡ meaning (texts names.now) form.now word.now }
{
    match form {
        [b'H', ..] => number(16, form, word).map(Meaning::Number),
        [b'D', ..] => number(10, form, word).map(Meaning::Number),
        [b'N', ..] => named(names, word).map(Meaning::Number),
        _ => {
            if form == word {
                return Some(Meaning::Plain);
            }
            None
        }
    }
}
