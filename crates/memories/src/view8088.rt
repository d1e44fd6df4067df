// The 8088's view: shared memory from 00000, screen memory from EE000, attribute memory from EF000. In reset
// every access is refused.
ghost use Rattle.std.specs.Prelude.{◌≡◌, true, Some, IfOk, IfSome};
ghost use Rattle.lent.specs.Refusals.{accepted, answered};
ghost use Rattle.lent.specs.Answer.{byte_answered};
ghost use Rattle.memories.specs.View8088.{lengths_8088, seen_8088, refused_access};
ghost use Rattle.memories.specs.View8088.{store_seen, read_8088, store_8088, stored_8088};
ghost use Rattle.memories.specs.Inner.{InMemory};

use lent::{ATTRIBUTE_BYTES, Refusal, SCREEN_BYTES, SHARED_BYTES, lend};
use machine::Machine;

const SHARED_LAST: usize = SHARED_BYTES - 1;

const SCREEN_AT: usize = 0xEE000;

const SCREEN_LAST: usize = 0xEEFFF;

const ATTRIBUTE_AT: usize = 0xEF000;

const ATTRIBUTE_LAST: usize = 0xEFFFF;

// The memory that an 8088 address names, with the place in it.
#[derive(Clone, Copy, Debug, PartialEq, Eq)]
pub enum Seen {
    Shared(usize),
    Screen(usize),
    Attribute(usize),
}

// Which byte of which memory the 8088 sees at an address, if it sees one.
#[tactic(auto, unfolding(crate::specs::View8088::within, crate::specs::View8088::seen_8088))]
pub fn seen_8088(address: u32) -> Option<Seen>
    ensures memory { result ≡ seen_8088 address }
    ensures place { IfSome result InMemory }
{
    let at = address as usize;
    match at {
        0..=SHARED_LAST => Some(Seen::Shared(at)),
        SCREEN_AT..=SCREEN_LAST => Some(Seen::Screen(at - SCREEN_AT)),
        ATTRIBUTE_AT..=ATTRIBUTE_LAST => Some(Seen::Attribute(at - ATTRIBUTE_AT)),
        _ => None,
    }
}

// What an access of the 8088 sees, or by what it is refused once all that it is lent has the lengths of the list.
#[tactic(auto, unfolding(crate::specs::View8088::refused_access))]
pub fn access_8088(machine: Machine, address: u32) -> Result<Seen, Refusal>
    ensures number { answered result ≡ refused_access machine true address }
    ensures memory { IfOk result (λ seen. Some seen ≡ seen_8088 address) }
    ensures place { IfOk result InMemory }
{
    machine.stop_of_8088()?;
    seen_8088(address).ok_or(Refusal::Address)
}

// Reads a byte as the 8088 does.
#[tactic(auto, unfolding(crate::specs::View8088::lengths_8088, crate::specs::View8088::refused_access))]
pub fn read_8088(
    machine: Machine,
    shared: &[u8],
    screen: &[u8],
    attribute: &[u8],
    address: u32,
) -> Result<u8, Refusal>
    ensures { byte_answered result
        ≡ read_8088 machine shared.now screen.now attribute.now address }
{
    let shared = lend::<SHARED_BYTES>(shared)?;
    let screen = lend::<SCREEN_BYTES>(screen)?;
    let attribute = lend::<ATTRIBUTE_BYTES>(attribute)?;
    Ok(match access_8088(machine, address)? {
        Seen::Shared(place) => shared[place],
        Seen::Screen(place) => screen[place],
        Seen::Attribute(place) => attribute[place],
    })
}

// Stores a byte where an access of the 8088 sees it. A place that the memory has not changes nothing.
pub fn store_at(shared: &mut [u8], screen: &mut [u8], attribute: &mut [u8], seen: Seen, byte: u8)
    ensures { stored_8088 accepted shared.new screen.new attribute.new
        ≡ store_seen (Some seen) shared.old screen.old attribute.old byte }
{
    match seen {
        Seen::Shared(place) if place < shared.len() => shared[place] = byte,
        Seen::Screen(place) if place < screen.len() => screen[place] = byte,
        Seen::Attribute(place) if place < attribute.len() => attribute[place] = byte,
        _ => {}
    }
}

// Stores a byte as the 8088 does, with no picture lent.
#[tactic(auto, unfolding(crate::specs::View8088::lengths_8088, crate::specs::View8088::refused_access))]
pub fn store_8088(
    machine: Machine,
    shared: &mut [u8],
    screen: &mut [u8],
    attribute: &mut [u8],
    address: u32,
    byte: u8,
) -> Result<(), Refusal>
    ensures { stored_8088 (answered result) shared.new screen.new attribute.new
        ≡ store_8088 machine shared.old screen.old attribute.old address byte }
{
    lend::<SHARED_BYTES>(shared)?;
    lend::<SCREEN_BYTES>(screen)?;
    lend::<ATTRIBUTE_BYTES>(attribute)?;
    let seen = access_8088(machine, address)?;
    store_at(shared, screen, attribute, seen, byte);
    Ok(())
}
