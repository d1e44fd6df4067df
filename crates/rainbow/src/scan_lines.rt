// The glyph table, the scan line and the list of the whole screen.
ghost use Rattle.std.specs.Prelude.{◌≡◌};
ghost use Rattle.scan_line.specs.Line.{dots_of_line};
ghost use Rattle.scan_line.specs.Call.{drawn_line, draw_line};
ghost use Rattle.whole_screen.specs.Call.{listed, list_lines};
ghost use Rattle.rainbow.specs.Part.{part_place};

use machine::Machine;

// Where a code's bytes stand in the table, and how many there are. A reference cannot be handed to C.
#[repr(C)]
#[derive(Clone, Copy, Debug, PartialEq, Eq)]
pub struct PartPlace {
    pub refusal: u8,
    pub at: usize,
    pub length: usize,
}

// Where the sixteen bytes of a code stand in the glyph table.
#[unsafe(no_mangle)]
pub extern "C" fn rainbow_glyph_part(table: &[u8], code: u8) -> PartPlace
    ensures { result ≡ part_place table.now code }
{
    match glyphs::part(table, code) {
        Ok(part) => PartPlace {
            refusal: lent::ACCEPTED,
            at: code as usize * glyphs::CODE_BYTES,
            length: part.len(),
        },
        Err(refusal) => PartPlace {
            refusal: refusal.number(),
            at: 0,
            length: 0,
        },
    }
}

// Draws the dots of one scan line of a row.
#[unsafe(no_mangle)]
pub extern "C" fn rainbow_scan_line(
    machine: Machine,
    picture: &[u8],
    table: &[u8],
    row: usize,
    scan: usize,
    line: &mut [u8],
) -> u8
    ensures { drawn_line result line.new
        ≡ draw_line machine picture.now table.now row scan line.old }
{
    lent::answered(scan_line::draw(machine, picture, table, row, scan, line))
}

// How many dots a scan line has: 800 or 1,188.
#[unsafe(no_mangle)]
pub extern "C" fn rainbow_dots_of_line(machine: Machine) -> usize
    ensures { result ≡ dots_of_line machine }
{
    scan_line::dots_of_line(machine)
}

// Lists the lines of the whole screen: for each the row and the scan that it shows.
#[unsafe(no_mangle)]
pub extern "C" fn rainbow_list_lines(machine: Machine, picture: &[u8], list: &mut [u8]) -> u8
    ensures { listed result list.new
        ≡ list_lines machine picture.now list.old }
{
    lent::answered(whole_screen::list_lines(machine, picture, list))
}
