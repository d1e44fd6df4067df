// The viewers of one screen: their start, the drawing and the stores that serve them, and the ask of one.
ghost use Rattle.std.specs.Prelude.{◌≡◌};
ghost use Rattle.viewers.specs.Viewers.{start, ask};
ghost use Rattle.viewers.specs.Serving.{drawn_serving, draw_for_viewers, stored_serving, store_for_viewers};
ghost use Rattle.viewers.specs.Serving.{stored_serving_index, store_with_index_for_viewers};

use machine::Machine;
use viewers::{Asked, DrawnForViewers, StoredForViewers, Viewers};

// The viewers at the start: all rows wait for all.
#[unsafe(no_mangle)]
pub extern "C" fn rainbow_start_viewers() -> Viewers
    ensures { result ≡ start }
{
    Viewers::start()
}

// Hands a viewer the marks that wait for it, and clears them.
#[unsafe(no_mangle)]
pub extern "C" fn rainbow_ask(viewers: Viewers, viewer: usize) -> Asked
    ensures { result ≡ ask viewers viewer }
{
    Asked::told(viewers, viewers.ask(viewer))
}

// Draws the picture afresh, and sets all rows for all viewers.
#[unsafe(no_mangle)]
pub extern "C" fn rainbow_draw_for_viewers(
    machine: Machine,
    viewers: Viewers,
    screen: &[u8],
    attribute: &[u8],
    picture: &mut [u8],
) -> DrawnForViewers
    ensures { drawn_serving result picture.new
        ≡ draw_for_viewers machine viewers screen.now attribute.now picture.old }
{
    let outcome = viewers::draw_for_viewers(machine, viewers, screen, attribute, picture);
    DrawnForViewers::told(viewers, outcome)
}

// Stores a byte as the 8088 does, mends the picture, and adds the marks to those of every viewer.
#[unsafe(no_mangle)]
pub extern "C" fn rainbow_store_for_viewers(
    machine: Machine,
    viewers: Viewers,
    shared: &mut [u8],
    screen: &mut [u8],
    attribute: &mut [u8],
    picture: &mut [u8],
    address: u32,
    byte: u8,
) -> StoredForViewers
    ensures { stored_serving result
        shared.new screen.new attribute.new picture.new
        ≡ store_for_viewers machine viewers
        shared.old screen.old attribute.old picture.old address byte }
{
    let outcome = viewers::store_for_viewers(
        machine, viewers, shared, screen, attribute, picture, address, byte,
    );
    StoredForViewers::told(viewers, outcome)
}

// The same store with an index lent.
#[unsafe(no_mangle)]
pub extern "C" fn rainbow_store_with_index_for_viewers(
    machine: Machine,
    viewers: Viewers,
    shared: &mut [u8],
    screen: &mut [u8],
    attribute: &mut [u8],
    picture: &mut [u8],
    index: &mut [u8],
    address: u32,
    byte: u8,
) -> StoredForViewers
    ensures { stored_serving_index result
        shared.new screen.new attribute.new picture.new index.new
        ≡ store_with_index_for_viewers machine viewers
        shared.old screen.old attribute.old picture.old index.old
        address byte }
{
    let outcome = viewers::store_with_index_for_viewers(
        machine, viewers, shared, screen, attribute, picture, index, address, byte,
    );
    StoredForViewers::told(viewers, outcome)
}
