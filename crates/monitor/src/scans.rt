// The scan line and the glyph part, shown.
use crate::desk::Desk;
use crate::say::{self, Hex};
use std::io;

pub fn is_marked(rt: &HostRuntime, marks: u32, row: usize) -> io::Result<()> {
    if marks::is_marked(marks, row) {
        println!(rt; "marked")
    } else {
        println!(rt; "not marked")
    }
}

// A dot's shade as a character: a point for an unlit one.
fn shown(dot: u8) -> u8 {
    match dot {
        0 => b'.',
        1 => b'1',
        2 => b'2',
        3 => b'3',
        _ => b'?',
    }
}

pub fn draw_line(rt: &HostRuntime, desk: &mut Desk, row: usize, scan: usize) -> io::Result<()> {
    let outcome = scan_line::draw(
        desk.machine,
        desk.picture.lent(),
        desk.glyphs.lent(),
        row,
        scan,
        desk.line.lent_mut(),
    );
    match outcome {
        Ok(()) => {
            let mut text = desk.line.bytes;
            for dot in &mut text {
                *dot = shown(*dot);
            }
            say::line(rt, &text[..scan_line::dots_of_line(desk.machine)])
        }
        Err(refusal) => say::refused(rt, refusal),
    }
}

pub fn part(rt: &HostRuntime, desk: &Desk, code: u8) -> io::Result<()> {
    match glyphs::part(desk.glyphs.lent(), code) {
        Ok(part) => say::bytes(rt, "part", part),
        Err(refusal) => say::refused(rt, refusal),
    }
}

pub fn count(rt: &HostRuntime, desk: &Desk) -> io::Result<()> {
    println!(rt; "dots of a line: {}", scan_line::dots_of_line(desk.machine))
}

pub fn scroll(rt: &HostRuntime, desk: &Desk) -> io::Result<()> {
    println!(rt; "scroll latch: {}", Hex([desk.machine.scroll_latch()]))
}
