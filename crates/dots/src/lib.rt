// The dots of a cell: a glyph byte's eight bits and the fill after them, as the cell's attribute shows
// them. Document 01, "Dots".
#![tactic(auto)]

ghost use Rattle.std.specs.Prelude.{◌≡◌, ◌≤◌, ◌<◌, ◌&&◌, ◌==◌, ◌++◌, ◌-◌, ◌%◌, if◌then◌else◌, true, false, length, replicate};
ghost use Rattle.std.specs.Int.{w64, to_le_bytes};
ghost use Rattle.std.specs.Int.Bits.{bit_xor};
ghost use Rattle.dots.specs.Attributes.{is_reverse, is_underlined, underline_scan, xor, steady, blinks, intensity, shade};
ghost use Rattle.dots.specs.Shading.{Shading, shading, shown_cell};
ghost use Rattle.dots.specs.Inner.{eight, half_word, OfEach, TurnOfEach, UnlitOfEach, last_byte, width_of};

use glyphs::Scan;
use machine::Machine;
use std::marker::Model;

// An attribute is taken modulo 16.
pub const ATTRIBUTES: usize = 16;
// The scan of a glyph that underline lights.
const UNDERLINE_SCAN: usize = 9;

// What decides how a dot of a glyph is shown.
#[derive(Clone, Copy)]
struct Look {
    machine: Machine,
    attribute: u8,
    scan: Scan,
}

impl Look {
    // Whether underline lights all dots.
    fn is_underlined(&self) -> bool
        ensures { result ≡ (is_underlined self.now.attribute && self.now.scan == underline_scan) }
    {
        (self.attribute / 8 % 2 == 0) & (self.scan.number() == UNDERLINE_SCAN)
    }

    // A lit dot that does not blink.
    fn steady(&self) -> u8
        ensures { result ≡ steady self.now.attribute }
    {
        if self.attribute / 2 % 2 == 0 { 3 } else { 2 }
    }

    // What blinking takes off a lit dot.
    fn dimmed(&self) -> u8
        ensures { result ≡ (if blinks self.now.attribute && self.now.machine.blink then 1 else 0) }
    {
        ((self.attribute / 4 % 2 == 0) & self.machine.blink) as u8
    }

    fn lit(&self) -> u8
        ensures { result ≡ intensity self.now.machine self.now.attribute true }
    {
        self.steady() - self.dimmed()
    }

    // Whether lit dots are shown unlit, and unlit ones lit.
    fn is_inverted(&self) -> bool
        ensures { result ≡ xor (is_reverse self.now.attribute) self.now.machine.reverse }
    {
        (self.attribute % 2 == 1) ^ self.machine.reverse
    }

    // An unlit dot of the glyph. Underline comes ahead of reverse. What a lit dot shows is worked out for one that is not
    // too, so that only numbers are chosen between: a line asks this of every attribute, and of a way around the work a
    // compiler makes jumps.
    fn unlit(&self) -> u8
        ensures { result ≡ shade self.now.machine self.now.attribute self.now.scan false }
    {
        let shown = self.lit();
        if self.is_inverted() ^ self.is_underlined() {
            shown
        } else {
            0
        }
    }

    // By what the shade of a lit dot of the glyph differs from that of an unlit one: one of them is lit as the cell shows
    // them, and the other is not, unless underline lights both.
    fn turn(&self) -> u8
        ensures { result ≡ bit_xor (shade self.now.machine self.now.attribute self.now.scan true)
            (shade self.now.machine self.now.attribute self.now.scan false) }
    {
        let shown = self.lit();
        if self.is_underlined() { 0 } else { shown }
    }
}

// The four dots of each half of a glyph, its upper bit in the lowest byte: FF where a dot is lit.
const NARROW_HALVES: [u64; 16] = [
    0x00000000, 0xff000000, 0x00ff0000, 0xffff0000, 0x0000ff00, 0xff00ff00, 0x00ffff00, 0xffffff00,
    0x000000ff, 0xff0000ff, 0x00ff00ff, 0xffff00ff, 0x0000ffff, 0xff00ffff, 0x00ffffff, 0xffffffff,
];

// The same, each dot twice. Written out too, since a constant calls no function.
const WIDE_HALVES: [u64; 16] = [
    0x0000000000000000,
    0xffff000000000000,
    0x0000ffff00000000,
    0xffffffff00000000,
    0x00000000ffff0000,
    0xffff0000ffff0000,
    0x0000ffffffff0000,
    0xffffffffffff0000,
    0x000000000000ffff,
    0xffff00000000ffff,
    0x0000ffff0000ffff,
    0xffffffff0000ffff,
    0x00000000ffffffff,
    0xffff0000ffffffff,
    0x0000ffffffffffff,
    0xffffffffffffffff,
];

// The dots of each half of a glyph, as a narrow cell has them or a wide one.
fn halves(wide: bool) -> &'static [u64; 16]
    ensures { OfEach (half_word wide) result.now }
{
    if wide { &WIDE_HALVES } else { &NARROW_HALVES }
}

// Eight dots alike.
fn eight(dot: u8) -> u64
    ensures { result ≡ eight dot }
{
    dot as u64 * 0x0101010101010101
}

// Puts eight dots, and the last of them again as often as there is room.
fn put_filled(word: u64, into: &mut [u8])
    requires { 8 ≤ length into.old }
    ensures { into.new ≡ to_le_bytes w64 word ++ replicate (length into.old - 8) (last_byte word) }
{
    let dots = word.to_le_bytes();
    into[..8].copy_from_slice(&dots);
    into[8..].fill(dots[7]);
}

// How the cells of a machine show dots at a scan of the glyph, worked out for each attribute.
#[derive(Drop)]
pub struct Shades {
    machine: Machine,
    scan: Scan,
    // By what lit dots of the glyph differ from unlit ones, eight of them.
    turns: [u64; ATTRIBUTES],
    // Eight unlit dots.
    unlit: [u64; ATTRIBUTES],
}

impl Model for Shades {
    ghost Value = { Shading };

    ghost view = { λ s. shading s.machine s.scan };

    ghost invariant = { λ s. TurnOfEach s.machine s.scan s.turns × UnlitOfEach s.machine s.scan s.unlit };
}

impl Shades {
    pub fn new(machine: Machine, scan: Scan) -> Shades
        ensures { result ≡ shading machine scan }
    {
        let mut turns = [0; ATTRIBUTES];
        let mut unlit = [0; ATTRIBUTES];
        for at in 0..ATTRIBUTES {
            let look = Look {
                machine,
                attribute: at as u8,
                scan,
            };
            turns[at] = eight(look.turn());
            unlit[at] = eight(look.unlit());
        }
        Shades {
            machine,
            scan,
            turns,
            unlit,
        }
    }

    // Draws a cell of a glyph byte: eight dots, and after them bit 0 again. A wide one shows each dot twice.
    pub fn draw_cell(&self, wide: bool, attribute: u8, glyph: u8, into: &mut [u8])
        requires { length into.old ≡ width_of self.now.machine.columns132 wide }
        ensures { into.new ≡ shown_cell self.now wide (attribute % 16) glyph }
    {
        let attribute = attribute as usize % ATTRIBUTES;
        let turn = self.turns[attribute];
        let unlit = self.unlit[attribute];
        let halves = halves(wide);
        let upper = halves[(glyph / 16) as usize];
        let lower = halves[(glyph % 16) as usize];
        if wide {
            let four = upper & turn ^ unlit;
            let (first, rest) = into.split_at_mut(8);
            first.copy_from_slice(&four.to_le_bytes());
            put_filled(lower & turn ^ unlit, rest);
        } else {
            put_filled((upper | lower << 32) & turn ^ unlit, into);
        }
    }
}

// How many dots a cell has.
pub fn cell_width(columns132: bool, wide: bool) -> usize
    ensures { result ≡ width_of columns132 wide }
{
    let dots = if columns132 { 9 } else { 10 };
    if wide { 2 * dots } else { dots }
}
