// The lines of the whole screen, shown row by row.
use crate::desk::Desk;
use crate::say;
use std::io;

// Shows a list in stretches: of each row the first line as row and scan, the last one as its scan.
fn show(rt: &HostRuntime, list: &[u8]) -> io::Result<()> {
    let mut ahead: Option<(u8, u8)> = None;
    for pair in list.chunks_exact(2) {
        if let [row, scan] = pair {
            match ahead {
                None => print!(rt; " {row}:{scan}")?,
                Some((other, last)) if other != *row => print!(rt; "-{last} {row}:{scan}")?,
                Some(_) => {}
            }
            ahead = Some((*row, *scan));
        }
    }
    match ahead {
        Some((_, last)) => println!(rt; "-{last}"),
        None => println!(rt),
    }
}

// Lists the lines of the kept picture, and shows which scans of which rows they are.
pub fn list(rt: &HostRuntime, desk: &mut Desk) -> io::Result<()> {
    match whole_screen::list_lines(desk.machine, desk.picture.lent(), desk.lines.lent_mut()) {
        Ok(()) => {
            print!(rt; "lines")?;
            show(rt, &desk.lines.bytes[..lent::LIST_BYTES])
        }
        Err(refusal) => say::refused(rt, refusal),
    }
}
