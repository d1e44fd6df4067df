// The row lister: reads 8,192 bytes, a screen memory and then an attribute memory, and writes a line
// for each row that the screen shows at 80 columns.
#![tactic(auto)]

use lent::{ATTRIBUTE_BYTES, PICTURE_BYTES, SCREEN_BYTES};
use listing::TEXT_BYTES;
use picture::Drawing;
use std::io;

// On standard error, so that the list stays what its readers know.
fn tell_wild(rt: &HostRuntime, drawing: Drawing) -> io::Result<()> {
    match drawing.wild {
        Some(row) => eprintln!(rt; "rows: the link of row {row} is wild"),
        None => Ok(()),
    }
}

fn main(rt: HostRuntime) -> io::Result<()> {
    let mut screen = [0; SCREEN_BYTES];
    let mut attribute = [0; ATTRIBUTE_BYTES];
    // One byte more than is wanted tells input that is too long.
    let mut beyond = [0; 1];
    let mut picture = [0; PICTURE_BYTES];
    let mut text = [0; TEXT_BYTES];
    let mut input = rt.stdin();
    let screen_bytes = console::read_full(&mut input, &mut screen);
    let attribute_bytes = console::read_full(&mut input, &mut attribute);
    let beyond_bytes = console::read_full(&mut input, &mut beyond);
    let listed = listing::list_rows(
        &screen[..screen_bytes],
        &attribute[..attribute_bytes],
        beyond_bytes,
        &mut picture,
        &mut text,
    );
    let text_bytes = listed.bytes;
    rt.write_all(&text[..text_bytes])?;
    match listed.drawn {
        Ok(drawing) => tell_wild(&rt, drawing),
        Err(_) => Ok(()),
    }
}
