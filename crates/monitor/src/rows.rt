// What the kept picture says, row by row, and what the row lister does.
use crate::desk::Desk;
use crate::say::Hex;
use records::{DARK, HEAD_BYTES, RECORD_BYTES, RECORD_PAIRS, TORN};
use std::io;

// A line for each row of the picture that is not dark: row, start, kind, count.
pub fn list(rt: &HostRuntime, picture: &[u8]) -> io::Result<()> {
    for (row, record) in picture.chunks_exact(RECORD_BYTES).enumerate() {
        match record {
            [_, _, _, DARK, ..] => {}
            [high, low, kind, TORN, ..] => {
                let start = Hex([*high, *low]);
                println!(rt; "row {row} start {start} kind {kind} torn")?;
            }
            [high, low, kind, count, ..] => {
                let start = Hex([*high, *low]);
                println!(rt; "row {row} start {start} kind {kind} cells {count}")?;
            }
            _ => {}
        }
    }
    Ok(())
}

// A character as it can be shown.
fn shown(character: u8) -> u8 {
    match character {
        0x20..=0x7E => character,
        _ => b'.',
    }
}

fn show_row(rt: &HostRuntime, record: &[u8], columns: usize) -> io::Result<()> {
    let mut text = [b' '; RECORD_PAIRS];
    let cells = record.iter().skip(HEAD_BYTES).step_by(2);
    for (to, character) in text.iter_mut().zip(cells) {
        *to = shown(*character);
    }
    print!(rt; "|")?;
    rt.write_all(&text[..columns.min(RECORD_PAIRS)])?;
    println!(rt; "|")
}

// The characters of every row, as many as a row has columns.
pub fn show(rt: &HostRuntime, picture: &[u8], columns: usize) -> io::Result<()> {
    for record in picture.chunks_exact(RECORD_BYTES) {
        show_row(rt, record, columns)?;
    }
    Ok(())
}

// The row lister's text of the two memories, with so many bytes after them. The kept picture stays.
pub fn list_afresh(rt: &HostRuntime, desk: &Desk, beyond: usize) -> io::Result<()> {
    let mut picture = [0u8; lent::PICTURE_BYTES];
    let mut text = [0u8; listing::TEXT_BYTES];
    let listed = listing::list_rows(
        desk.screen.lent(),
        desk.attribute.lent(),
        beyond,
        &mut picture,
        &mut text,
    );
    let bytes = listed.bytes;
    rt.write_all(&text[..bytes])
}
