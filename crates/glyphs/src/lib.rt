// The glyph table: where the bytes of a code stand, and which scan of a glyph a row shows. Document 01,
// "Dots".
#![tactic(auto)]

ghost use Rattle.std.specs.Prelude.{◌≤◌, ◌<◌, ◌≡◌, ℕ};
ghost use Rattle.glyphs.specs.Glyphs.{code_bytes, glyph_byte, told_part, part_answer};
ghost use Rattle.glyphs.specs.Scans.{first_scan, last_scan, scan_address, glyph_scan, scan_of};

use lent::Refusal;
use std::marker::Model;

// A code has so many bytes in the table.
pub const CODE_BYTES: usize = 16;

// A glyph table, all codes of it.
pub type Table = [u8; lent::GLYPH_BYTES];

pub const FIRST_SCAN: usize = 1;

pub const LAST_SCAN: usize = 10;

// A scan, by its number of 1 to 10.
#[derive(Clone, Copy)]
pub struct Scan {
    number: usize,
}

impl Model for Scan {
    ghost Value = { ℕ };

    ghost view = { λ s. s.number };

    ghost invariant = { λ s. (first_scan ≤ s.number) × (s.number ≤ last_scan) };

    ghost inverse = { λ n. record { number = n } };
}

impl Scan {
    // The scan with a number, if there is one.
    pub fn new(number: usize) -> Option<Scan>
        ensures { result ≡ scan_of number }
    {
        match number {
            FIRST_SCAN..=LAST_SCAN => Some(Scan { number }),
            _ => None,
        }
    }

    pub fn number(self) -> usize
        ensures { result ≡ self }
    {
        self.number
    }

    // The scan address. Scan 1 stands at the end of a code's sixteen bytes, scan 2 at their start.
    pub fn address(self) -> usize
        ensures value { result ≡ scan_address self }
        ensures of_a_code { result < code_bytes }
    {
        (self.number + 14) % 16
    }

    // The scan of a glyph that a row of a kind shows at this scan of the screen.
    pub fn of_glyph(self, kind: u8) -> Scan
        ensures { result ≡ glyph_scan kind self }
    {
        let half = (self.number + 1) / 2;
        match kind % 4 {
            chain::TOP_HALF => Scan { number: half },
            chain::BOTTOM_HALF => Scan { number: half + 5 },
            _ => self,
        }
    }
}

// The sixteen scan bytes of a code, where they stand in the table. Of what `lend` gives it is not said where that stands.
#[tactic(auto, unfolding(crate::specs::Glyphs::glyph_part, crate::specs::Glyphs::part_start, crate::specs::Glyphs::part_refusal))]
pub fn part(table: &[u8], code: u8) -> Result<&[u8], Refusal>
    ensures { told_part result ≡ part_answer table.entry.ref_ptr table.now code }
{
    if table.len() != lent::GLYPH_BYTES {
        return Err(Refusal::Length);
    }
    let at = code as usize * CODE_BYTES;
    Ok(&table[at..at + CODE_BYTES])
}

// The glyph byte of a code at a scan.
pub fn byte(table: &Table, code: u8, scan: Scan) -> u8
    ensures { result ≡ glyph_byte table.now code (scan_address scan) }
{
    table[code as usize * CODE_BYTES + scan.address()]
}
