// The picture of the tube as a PGM: every line of the screen, as the list of its lines says.
use crate::fault::Fault;
use glyphs::Table;
use lent::{LINE_BYTES, LIST_BYTES};
use machine::Machine;
use picture::Picture;

// A dot of the tube is twice as high as it is wide, so each line is written twice.
const HEIGHT: usize = whole_screen::LINES * 2;

fn scan_line(
    rt: &HostRuntime,
    machine: Machine,
    picture: &Picture,
    table: &Table,
    row: u8,
    scan: u8,
) -> Result<(), Fault> {
    let mut line = [0; LINE_BYTES];
    scan_line::draw(
        machine,
        picture,
        table,
        row as usize,
        scan as usize,
        &mut line,
    )?;
    let dots = &line[..scan_line::dots_of_line(machine)];
    rt.write_all(dots)?;
    rt.write_all(dots)?;
    Ok(())
}

// Writes the picture of the whole tube to standard output.
pub fn write(
    rt: &HostRuntime,
    machine: Machine,
    picture: &Picture,
    table: &Table,
) -> Result<(), Fault> {
    let mut list = [0; LIST_BYTES];
    whole_screen::list_lines(machine, picture, &mut list)?;
    let dots = scan_line::dots_of_line(machine);
    println!(rt; "P5\n{dots} {HEIGHT}\n3")?;
    for line in list.chunks_exact(2) {
        scan_line(rt, machine, picture, table, line[0], line[1])?;
    }
    Ok(())
}
