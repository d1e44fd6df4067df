// Shows the whole tube: reads 12,288 bytes, a screen memory, an attribute memory and a glyph table, and
// writes a picture of what the screen shows as a PGM of four greys. Each argument is a setting.
#![tactic(auto)]

mod fault;
mod image;
mod settings;

use fault::Fault;
use lent::{ATTRIBUTE_BYTES, GLYPH_BYTES, PICTURE_BYTES, SCREEN_BYTES};
use settings::Settings;
use std::io;

fn show(rt: &HostRuntime) -> Result<(), Fault> {
    let settings = Settings::from_arguments(rt).ok_or(Fault::Argument)?;
    let mut screen = [0; SCREEN_BYTES];
    let mut attribute = [0; ATTRIBUTE_BYTES];
    let mut table = [0; GLYPH_BYTES];
    // One byte more than is wanted tells input that is too long.
    let mut beyond = [0; 1];
    let mut input = rt.stdin();
    let read = console::read_full(&mut input, &mut screen);
    let beside = console::read_full(&mut input, &mut attribute);
    let glyphs = console::read_full(&mut input, &mut table);
    let more = console::read_full(&mut input, &mut beyond);
    if (read < SCREEN_BYTES) | (beside < ATTRIBUTE_BYTES) | (glyphs < GLYPH_BYTES) | (more > 0) {
        return Err(Fault::Input);
    }
    let machine = settings.machine()?;
    let mut picture = [0; PICTURE_BYTES];
    picture::draw(machine, &screen, &attribute, &mut picture)?;
    image::write(rt, machine, &picture, &table)
}

fn main(rt: HostRuntime) -> io::Result<()> {
    match show(&rt) {
        Err(Fault::Output(error)) => Err(error),
        Err(fault) => eprintln!(rt; "tube: {fault}"),
        Ok(()) => Ok(()),
    }
}
