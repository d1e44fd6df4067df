// The picture: drawn afresh, kept by a store, and which rows the store changed; and why a cell shows what it shows.
ghost use Rattle.std.specs.Prelude.{◌≡◌};
ghost use Rattle.picture.specs.Draw.{drawn, draw};
ghost use Rattle.mending.specs.Store.{stored_with_picture, store_with_picture};
ghost use Rattle.marks.specs.Marks.{bit_set};
ghost use Rattle.explaining.specs.Call.{explain};
ghost use Rattle.explaining.specs.Numbers.{told};

use explaining::Explained;
use machine::Machine;
use mending::Stored;
use picture::Drawn;

// Draws the picture afresh from screen and attribute memory.
#[unsafe(no_mangle)]
pub extern "C" fn rainbow_draw(
    machine: Machine,
    screen: &[u8],
    attribute: &[u8],
    picture: &mut [u8],
) -> Drawn
    ensures { drawn result picture.new
        ≡ draw machine screen.now attribute.now picture.old }
{
    Drawn::from(picture::draw(machine, screen, attribute, picture))
}

// Stores a byte as the 8088 does, mends the picture, and marks the rows that changed.
#[unsafe(no_mangle)]
pub extern "C" fn rainbow_store_with_picture(
    machine: Machine,
    shared: &mut [u8],
    screen: &mut [u8],
    attribute: &mut [u8],
    picture: &mut [u8],
    address: u32,
    byte: u8,
) -> Stored
    ensures { stored_with_picture result
        shared.new screen.new attribute.new picture.new
        ≡ store_with_picture machine
        shared.old screen.old attribute.old picture.old address byte }
{
    Stored::from(mending::store_with_picture(
        machine, shared, screen, attribute, picture, address, byte,
    ))
}

// Whether a row is among the marks of a store.
#[unsafe(no_mangle)]
pub extern "C" fn rainbow_is_marked(marks: u32, row: usize) -> bool
    ensures { result ≡ bit_set marks row }
{
    marks::is_marked(marks, row)
}

// Says why a cell shows what it shows.
#[unsafe(no_mangle)]
pub extern "C" fn rainbow_explain(
    machine: Machine,
    screen: &[u8],
    attribute: &[u8],
    row: usize,
    column: usize,
) -> Explained
    ensures { result
        ≡ told (explain machine screen.now attribute.now row column) }
{
    Explained::from(explaining::explain(machine, screen, attribute, row, column))
}
