// What the 8088 and the Z80 see, and the NVM's shadow.
ghost use Rattle.std.specs.Prelude.{◌≡◌};
ghost use Rattle.memories.specs.View8088.{read_8088, store_8088, stored_8088};
ghost use Rattle.memories.specs.ViewZ80.{read_z80, store_z80, stored_z80};
ghost use Rattle.shadow.specs.Shadow.{read_shadow, write_shadow, written_shadow};

use lent::ByteRead;
use machine::Machine;

// Reads a byte as the 8088 does.
#[unsafe(no_mangle)]
pub extern "C" fn rainbow_read_8088(
    machine: Machine,
    shared: &[u8],
    screen: &[u8],
    attribute: &[u8],
    address: u32,
) -> ByteRead
    ensures { result
        ≡ read_8088 machine shared.now screen.now attribute.now address }
{
    ByteRead::from(memories::read_8088(machine, shared, screen, attribute, address))
}

// Stores a byte as the 8088 does, with no picture lent.
#[unsafe(no_mangle)]
pub extern "C" fn rainbow_store_8088(
    machine: Machine,
    shared: &mut [u8],
    screen: &mut [u8],
    attribute: &mut [u8],
    address: u32,
    byte: u8,
) -> u8
    ensures { stored_8088 result shared.new screen.new attribute.new
        ≡ store_8088 machine shared.old screen.old attribute.old address byte }
{
    lent::answered(memories::store_8088(machine, shared, screen, attribute, address, byte))
}

// Reads a byte as the Z80 does.
#[unsafe(no_mangle)]
pub extern "C" fn rainbow_read_z80(
    machine: Machine,
    private: &[u8],
    shared: &[u8],
    address: u16,
) -> ByteRead
    ensures { result ≡ read_z80 machine private.now shared.now address }
{
    ByteRead::from(memories::read_z80(machine, private, shared, address))
}

// Stores a byte as the Z80 does.
#[unsafe(no_mangle)]
pub extern "C" fn rainbow_store_z80(
    machine: Machine,
    private: &mut [u8],
    shared: &mut [u8],
    address: u16,
    byte: u8,
) -> u8
    ensures { stored_z80 result private.new shared.new
        ≡ store_z80 machine private.old shared.old address byte }
{
    lent::answered(memories::store_z80(machine, private, shared, address, byte))
}

// Reads the low four bits at a place of the shadow.
#[unsafe(no_mangle)]
pub extern "C" fn rainbow_read_shadow(machine: Machine, shadow: &[u8], place: usize) -> ByteRead
    ensures { result ≡ read_shadow machine shadow.now place }
{
    ByteRead::from(shadow::read_shadow(machine, shadow, place))
}

// Writes four bits at a place of the shadow.
#[unsafe(no_mangle)]
pub extern "C" fn rainbow_write_shadow(
    machine: Machine,
    shadow: &mut [u8],
    place: usize,
    value: u8,
) -> u8
    ensures { written_shadow result shadow.new
        ≡ write_shadow machine shadow.old place value }
{
    lent::answered(shadow::write_shadow(machine, shadow, place, value))
}
