// The forms of the lines. H stands for a hexadecimal digit, D for a decimal one, NAME for a memory.
use crate::{input, say};
use commands::Command;
use std::io;

#[derive(Clone, Copy)]
pub enum Form {
    // The calls of the library.
    Store,
    Blind,
    Read,
    Z80Store,
    Z80Read,
    Port,
    Tick,
    Watch,
    ShadowWrite,
    ShadowRead,
    Draw,
    Index,
    IndexStore,
    Ask,
    Marked,
    Why,
    Line,
    Lines,
    Glyph,
    Dots,
    Scroll,
    // What is done by hand, or only shown.
    Power,
    Machine,
    Latch,
    Count,
    Viewers,
    Wait,
    Rows,
    Text,
    List,
    Sums,
    Help,
    Lend,
    Fill,
    Put,
    Bytes,
    Strew,
}

// A form too many or too few in the table below does not compile.
const FORM_COUNT: usize = Form::Strew as usize + 1;

// Each form beside its words, in the order that help shows.
const FORMS: [(Form, &str); FORM_COUNT] = [
    (Form::Store, "store HHHHHHHH HH"),
    (Form::Blind, "blind HHHHHHHH HH"),
    (Form::Read, "read HHHHHHHH"),
    (Form::Z80Store, "z80 store HHHH HH"),
    (Form::Z80Read, "z80 read HHHH"),
    (Form::Port, "port HHHH HH"),
    (Form::Tick, "tick"),
    (Form::Watch, "watch DDDDD"),
    (Form::ShadowWrite, "shadow write DDDDD HH"),
    (Form::ShadowRead, "shadow read DDDDD"),
    (Form::Draw, "draw"),
    (Form::Index, "index"),
    (Form::IndexStore, "index store HHHHHHHH HH"),
    (Form::Ask, "ask DDDDD"),
    (Form::Marked, "marked HHHHHHHH DDDDD"),
    (Form::Why, "why DDDDD DDDDD"),
    (Form::Line, "line DDDDD DDDDD"),
    (Form::Lines, "lines"),
    (Form::Glyph, "glyph HH"),
    (Form::Dots, "dots"),
    (Form::Scroll, "scroll"),
    (Form::Power, "power"),
    (Form::Machine, "machine"),
    (Form::Latch, "latch HH"),
    (Form::Count, "count DDD D"),
    (Form::Viewers, "viewers"),
    (Form::Wait, "wait DDDDD HHHHHHHH"),
    (Form::Rows, "rows"),
    (Form::Text, "text"),
    (Form::List, "list DDDDD"),
    (Form::Sums, "sums"),
    (Form::Help, "help"),
    (Form::Lend, "lend NAME DDDDD"),
    (Form::Fill, "fill NAME HH"),
    (Form::Put, "put NAME DDDDD HH"),
    (Form::Bytes, "bytes NAME DDDDD DDDDD"),
    (Form::Strew, "strew NAME DDDDD DDDDD DDDDD"),
];

#[derive(Clone, Copy)]
pub enum Name {
    Shared,
    Private,
    Screen,
    Attribute,
    Glyphs,
    Nvm,
    Shadow,
    Picture,
    Line,
    Lines,
    Index,
}

// The memories beside their names.
const NAMES: [(Name, &str); Name::Index as usize + 1] = [
    (Name::Shared, "shared"),
    (Name::Private, "private"),
    (Name::Screen, "screen"),
    (Name::Attribute, "attribute"),
    (Name::Glyphs, "glyphs"),
    (Name::Nvm, "nvm"),
    (Name::Shadow, "shadow"),
    (Name::Picture, "picture"),
    (Name::Line, "line"),
    (Name::Lines, "lines"),
    (Name::Index, "index"),
];

fn form_texts() -> [&'static [u8]; FORM_COUNT] {
    FORMS.map(|(_, text)| text.as_bytes())
}

// The form that a line has, with its numbers. One that is too long has none, and one with no words has none either,
// which is seen before the forms are gone through.
pub fn parse(line: &[u8]) -> Option<(Form, Command)> {
    let line = input::unless_long(line);
    if !commands::has_words(line) {
        return None;
    }
    let names = NAMES.map(|(_, name)| name.as_bytes());
    let command = commands::parse(&form_texts(), &names, line)?;
    let (form, _) = FORMS.get(command.form)?;
    Some((*form, command))
}

// The memory of a number that a line has in place of its name.
pub fn named(number: usize) -> Option<Name> {
    let (name, _) = NAMES.get(number)?;
    Some(*name)
}

// A form's text. Each is UTF-8, as the table has it.
fn text_of(texts: &[&'static [u8]], form: usize) -> &'static str {
    std::str::from_utf8(commands::form_text(texts, form)).unwrap_or("")
}

// Shows every form.
pub fn help(rt: &HostRuntime) -> io::Result<()> {
    let texts = form_texts();
    for form in 0..commands::form_count(&texts) {
        println!(rt; "  {}", text_of(&texts, form))?;
    }
    println!(rt;
        "H is a hexadecimal digit, D a decimal one, and fewer will do; NAME is one of shared private \
         screen attribute glyphs nvm shadow picture line lines index"
    )
}

// A line of no form: a remark is shown as it is, and of a line with no words nothing is said.
pub fn no_form(rt: &HostRuntime, line: &[u8]) -> io::Result<()> {
    if input::is_long(line) {
        return println!(rt; "expected at most 200 bytes in a line");
    }
    if input::is_remark(line) {
        return say::line(rt, line);
    }
    if commands::has_words(line) {
        return expected(rt, line);
    }
    Ok(())
}

// Tells what was expected: the forms that begin with the line's first word.
fn expected(rt: &HostRuntime, line: &[u8]) -> io::Result<()> {
    let texts = form_texts();
    let mut meant = false;
    for form in 0..commands::form_count(&texts) {
        if commands::is_meant(&texts, form, line) {
            println!(rt; "expected {}", text_of(&texts, form))?;
            meant = true;
        }
    }
    if !meant {
        println!(rt; "expected one of the lines that help shows")?;
    }
    Ok(())
}
