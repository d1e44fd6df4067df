// What the monitor keeps: the machine, the viewers, and the memories with how many bytes of each it lends.
ghost use Rattle.std.specs.Prelude.{◌≤◌};

use machine::Machine;
use viewers::Viewers;

// Each memory has one byte more than the list says, so that it can be lent too long.
pub const SHARED_BYTES: usize = lent::SHARED_BYTES + 1;

pub const PRIVATE_BYTES: usize = lent::PRIVATE_BYTES + 1;

pub const SCREEN_BYTES: usize = lent::SCREEN_BYTES + 1;

pub const ATTRIBUTE_BYTES: usize = lent::ATTRIBUTE_BYTES + 1;

pub const GLYPHS_BYTES: usize = lent::GLYPH_BYTES + 1;

pub const NVM_BYTES: usize = lent::NVM_BYTES + 1;

pub const SHADOW_BYTES: usize = lent::SHADOW_BYTES + 1;

pub const PICTURE_BYTES: usize = lent::PICTURE_BYTES + 1;

pub const LINE_BYTES: usize = lent::LINE_BYTES + 1;

pub const LINES_BYTES: usize = lent::LIST_BYTES + 1;

pub const INDEX_BYTES: usize = lent::INDEX_BYTES + 1;

// A memory, and how many bytes of it are lent.
#[derive(Clone, Copy)]
pub struct Memory<const N: usize> {
    pub bytes: [u8; N],
    lent: usize,
    ghost within: { lent ≤ N },
}

impl<const N: usize> Memory<N> {
    fn empty() -> Self {
        Memory {
            bytes: [0; N],
            lent: 0,
        }
    }

    // Lends so many bytes from now on, or as many as the memory has.
    pub fn lend(&mut self, bytes: usize) {
        self.lent = bytes.min(N);
    }

    pub fn lent(&self) -> &[u8] {
        &self.bytes[..self.lent]
    }

    pub fn lent_mut(&mut self) -> &mut [u8] {
        let lent = self.lent;
        let bytes = &mut self.bytes;
        let bytes = &mut bytes[..];
        &mut bytes[..lent]
    }
}

// The memories in the order of document 01's list and then 02's.
#[derive(Clone, Copy)]
pub struct Desk {
    pub machine: Machine,
    pub viewers: Viewers,
    pub shared: Memory<SHARED_BYTES>,
    pub private: Memory<PRIVATE_BYTES>,
    pub screen: Memory<SCREEN_BYTES>,
    pub attribute: Memory<ATTRIBUTE_BYTES>,
    pub glyphs: Memory<GLYPHS_BYTES>,
    pub nvm: Memory<NVM_BYTES>,
    pub shadow: Memory<SHADOW_BYTES>,
    pub picture: Memory<PICTURE_BYTES>,
    pub line: Memory<LINE_BYTES>,
    pub lines: Memory<LINES_BYTES>,
    pub index: Memory<INDEX_BYTES>,
}

impl Desk {
    // As at power-up, with every byte 00.
    pub fn start() -> Self {
        let mut desk = Desk {
            machine: Machine::power_up(),
            viewers: Viewers::start(),
            shared: Memory::empty(),
            private: Memory::empty(),
            screen: Memory::empty(),
            attribute: Memory::empty(),
            glyphs: Memory::empty(),
            nvm: Memory::empty(),
            shadow: Memory::empty(),
            picture: Memory::empty(),
            line: Memory::empty(),
            lines: Memory::empty(),
            index: Memory::empty(),
        };
        desk.power_up();
        desk
    }

    // The machine at power-up, the viewers at their start, and every memory lent whole. The bytes stay.
    pub fn power_up(&mut self) {
        self.machine = Machine::power_up();
        self.viewers = Viewers::start();
        self.shared.lend(lent::SHARED_BYTES);
        self.private.lend(lent::PRIVATE_BYTES);
        self.screen.lend(lent::SCREEN_BYTES);
        self.attribute.lend(lent::ATTRIBUTE_BYTES);
        self.glyphs.lend(lent::GLYPH_BYTES);
        self.nvm.lend(lent::NVM_BYTES);
        self.shadow.lend(lent::SHADOW_BYTES);
        self.picture.lend(lent::PICTURE_BYTES);
        self.line.lend(lent::LINE_BYTES);
        self.lines.lend(lent::LIST_BYTES);
        self.index.lend(lent::INDEX_BYTES);
    }
}
