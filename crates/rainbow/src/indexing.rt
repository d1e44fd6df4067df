// The index of first readers: worked out afresh, and kept by a store.
ghost use Rattle.std.specs.Prelude.{◌≡◌};
ghost use Rattle.index.specs.Index.{indexed, index_readers};
ghost use Rattle.index.specs.Store.{stored_with_index, store_with_index};

use machine::Machine;
use mending::Stored;

// Works the index out afresh from screen and attribute memory.
#[unsafe(no_mangle)]
pub extern "C" fn rainbow_index_readers(
    machine: Machine,
    screen: &[u8],
    attribute: &[u8],
    index: &mut [u8],
) -> u8
    ensures { indexed result index.new
        ≡ index_readers machine screen.now attribute.now index.old }
{
    lent::answered(index::index_readers(machine, screen, attribute, index))
}

// Stores a byte as the 8088 does, takes the first row that reads it from the index, mends picture and index from there,
// and marks the rows that changed.
#[unsafe(no_mangle)]
pub extern "C" fn rainbow_store_with_index(
    machine: Machine,
    shared: &mut [u8],
    screen: &mut [u8],
    attribute: &mut [u8],
    picture: &mut [u8],
    index: &mut [u8],
    address: u32,
    byte: u8,
) -> Stored
    ensures { stored_with_index result
        shared.new screen.new attribute.new picture.new index.new
        ≡ store_with_index machine
        shared.old screen.old attribute.old picture.old index.old
        address byte }
{
    Stored::from(index::store_with_index(
        machine, shared, screen, attribute, picture, index, address, byte,
    ))
}
