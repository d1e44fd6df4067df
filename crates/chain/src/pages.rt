// What rows are read from: the column setting and the two memories.

ghost use Rattle.std.specs.Prelude.{◌≤◌};

use crate::search::first_terminator;
use crate::{Head, Place, byte_at, is_wide};

// Screen memory, or attribute memory.
pub type Memory = [u8; lent::SCREEN_BYTES];

#[derive(Clone, Copy)]
pub struct Page<'a> {
    pub columns: usize,
    pub screen: &'a Memory,
    pub attribute: &'a Memory,
    pub ghost few: { columns ≤ 132 },
}

impl<'a> Page<'a> {
    ghost use Rattle.std.specs.Prelude.{◌+◌, ◌≡◌, IfSome};
    ghost use Rattle.chain.specs.Chain.{capacity, terminator, link};
    ghost use Rattle.chain.specs.Wild.{wild_link};
    ghost use Rattle.chain.specs.Page.{chain_on};

    // How many cells a row of a kind can have.
    #[tactic(auto, unfolding(crate::specs::Chain::capacity))]
    pub fn capacity(&self, kind: u8) -> usize
        ensures value { result ≡ capacity self.now.columns kind }
        ensures fits { result ≤ 132 }
    {
        if is_wide(kind) {
            self.columns / 2
        } else {
            self.columns
        }
    }

    // How many bytes after a row's start its terminator stands, among the first capacity + 1: up to the end of memory,
    // and then from place 0 on.
    pub fn find_terminator(&self, head: &Head) -> Option<usize>
        ensures found { result ≡ terminator (chain_on self.now) head.now }
        ensures fits { IfSome result (λ cells. cells ≤ 132) }
    {
        let bytes = self.capacity(head.kind) + 1;
        let start = head.start;
        let straight = start.before_the_end(bytes);
        let at = start.at();
        let screen: &Memory = self.screen;
        if let Some(cells) = first_terminator(&screen[at..at + straight]) {
            return Some(cells);
        }
        let more = first_terminator(&screen[..bytes - straight])?;
        Some(straight + more)
    }

    // The link of a row with so many cells.
    #[tactic(auto, unfolding(crate::specs::Chain::byte_at, crate::specs::Chain::link))]
    pub fn link(&self, head: &Head, cells: usize) -> Head
        ensures { result
            ≡ link self.now.screen.now self.now.attribute.now (head.now.start + cells) }
    {
        let terminator = head.start.after(cells);
        let low = byte_at(self.screen, terminator.after(1)) as usize;
        let high = byte_at(self.screen, terminator.after(2)) as usize;
        Head {
            start: Place::new(low + 256 * high),
            kind: byte_at(self.attribute, terminator.after(1)) % 8,
        }
    }

    // Whether the link of a row with so many cells is wild: whether any of the top four bits of its high byte is set,
    // which play no part in where it leads.
    #[tactic(auto, unfolding(crate::specs::Chain::byte_at, crate::specs::Wild::wild_link))]
    pub fn is_wild(&self, head: &Head, cells: usize) -> bool
        ensures { result ≡ wild_link self.now.screen.now (head.now.start + cells) }
    {
        byte_at(self.screen, head.start.after(cells).after(2)) / 16 != 0
    }
}
