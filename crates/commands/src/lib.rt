// A line typed at a monitor: the first form that it fits, and the numbers in it.
#![tactic(auto)]

mod meanings;
mod words;

ghost use Rattle.std.specs.Prelude.{◌≡◌, length};
ghost use Rattle.commands.specs.Words.{words, has_words};
ghost use Rattle.commands.specs.Texts.{texts, text};
ghost use Rattle.commands.specs.Commands.{fitted, fitting, is_meant};

use meanings::Meaning;

// A form by its number, and the first four numbers of the line that fits it. Those that it has not are 0.
#[derive(Clone, Copy)]
pub struct Command {
    pub form: usize,
    pub numbers: [usize; 4],
}

// How many forms a table has: its own length, under the name by which crates/runs speaks of it.
pub fn form_count(forms: &[&[u8]]) -> usize
    ensures { result ≡ length (texts forms.now) }
{
    forms.len()
}

// The text of a form, or no text where the table has none of that number.
pub fn form_text<'a>(forms: &[&'a [u8]], form: usize) -> &'a [u8]
    ensures { result.now ≡ text (texts forms.now) form }
{
    match forms.get(form) {
        Some(text) => *text,
        None => &[],
    }
}

// Whether a line has words: one that has none is passed over.
pub fn has_words(line: &[u8]) -> bool
    ensures { result ≡ has_words line.now }
{
    words::split_word(line).is_some()
}

// Whether the line's first word is the form's.
pub fn is_meant(forms: &[&[u8]], form: usize, line: &[u8]) -> bool
    ensures { result ≡ is_meant (texts forms.now) form line.now }
{
    let wanted = words::split_word(form_text(forms, form));
    let typed = words::split_word(line);
    match (wanted, typed) {
        (Some((wanted, _)), Some((typed, _))) => wanted == typed,
        _ => false,
    }
}

// The first form that the line fits, with its numbers.
pub fn parse(forms: &[&[u8]], names: &[&[u8]], line: &[u8]) -> Option<Command>
    ensures { result ≡ fitting (texts forms.now) (texts names.now) line.now }
{
    for (form, text) in forms.iter().enumerate() {
        let fit = fitted(names, form, text, line);
        if fit.is_some() {
            return fit;
        }
    }
    None
}

// The numbers of a line that fits a form, word by word. A fifth is not kept.
fn fitted(names: &[&[u8]], number: usize, mut form: &[u8], mut line: &[u8]) -> Option<Command>
    ensures { result
        ≡ fitted (texts names.now) number (words form.now) (words line.now) }
{
    let mut numbers = [0; 4];
    let mut found = 0;
    while let Some((wanted, form_left)) = words::split_word(form) {
        let (typed, line_left) = words::split_word(line)?;
        if let Meaning::Number(n) = meanings::meaning_of(names, wanted, typed)? {
            if found < numbers.len() {
                numbers[found] = n;
                found += 1;
            }
        }
        form = form_left;
        line = line_left;
    }
    if has_words(line) {
        return None;
    }
    Some(Command {
        form: number,
        numbers,
    })
}
