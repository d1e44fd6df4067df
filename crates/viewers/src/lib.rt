// The eight viewers of one screen: the marks that wait for each, and the stores and the drawing that serve
// them. Document 02, ticket 7, and ticket 8 for the store with an index.
#![tactic(auto)]

ghost use Rattle.std.specs.Prelude.{◌≡◌};
ghost use Rattle.viewers.specs.Viewers.{start, added, ask, ask_answered};
ghost use Rattle.viewers.specs.Serving.{drawing_served, drawn_serving, draw_for_viewers};
ghost use Rattle.mending.specs.Store.{store_answered};
ghost use Rattle.viewers.specs.Serving.{served, store_served, stored_serving, store_for_viewers};
ghost use Rattle.viewers.specs.Serving.{stored_serving_index, store_with_index_for_viewers};

use lent::Refusal;
use machine::Machine;
use mending::Stored;
use picture::{Drawing, Drawn};

pub const VIEWERS: usize = 8;

// The bits of rows 0 to 24.
const ALL_ROWS: u32 = 0x01FFFFFF;

// The marks that wait for each viewer. A caller keeps them, hands them to each call that serves viewers, and keeps what
// comes back.
#[repr(C)]
#[derive(Clone, Copy, Debug, PartialEq, Eq)]
pub struct Viewers {
    pub waiting: [u32; VIEWERS],
}

// What C is told of an ask: the marks that waited for the viewer. Refused, there are none, and the viewers are as they
// were.
#[repr(C)]
#[derive(Clone, Copy, Debug, PartialEq, Eq)]
pub struct Asked {
    pub refusal: u8,
    pub marks: u32,
    pub viewers: Viewers,
}

// What C is told of a drawing that serves viewers.
#[repr(C)]
#[derive(Clone, Copy, Debug, PartialEq, Eq)]
pub struct DrawnForViewers {
    pub drawn: Drawn,
    pub viewers: Viewers,
}

// What C is told of a store that serves viewers.
#[repr(C)]
#[derive(Clone, Copy, Debug, PartialEq, Eq)]
pub struct StoredForViewers {
    pub stored: Stored,
    pub viewers: Viewers,
}

impl Asked {
    // What an ask of viewers answers, as numbers.
    pub fn told(before: Viewers, outcome: Result<(u32, Viewers), Refusal>) -> Asked
        ensures { result ≡ ask_answered before outcome }
    {
        match outcome {
            Ok((marks, viewers)) => Asked {
                refusal: lent::ACCEPTED,
                marks,
                viewers,
            },
            Err(refusal) => Asked {
                refusal: refusal.number(),
                marks: 0,
                viewers: before,
            },
        }
    }
}

impl DrawnForViewers {
    // What a drawing that serves viewers answers, as numbers.
    pub fn told(kept: Viewers, outcome: Result<(Drawing, Viewers), Refusal>) -> DrawnForViewers
        ensures { result ≡ drawing_served kept outcome }
    {
        match outcome {
            Ok((drawing, viewers)) => DrawnForViewers {
                drawn: Drawn::from(Ok(drawing)),
                viewers,
            },
            Err(refusal) => DrawnForViewers {
                drawn: Drawn::from(Err(refusal)),
                viewers: kept,
            },
        }
    }
}

impl StoredForViewers {
    // What a store that serves viewers answers, as numbers.
    pub fn told(before: Viewers, outcome: Result<(u32, Viewers), Refusal>) -> StoredForViewers
        ensures { result ≡ store_served before outcome }
    {
        match outcome {
            Ok((marks, viewers)) => StoredForViewers {
                stored: Stored::from(Ok(marks)),
                viewers,
            },
            Err(refusal) => StoredForViewers {
                stored: Stored::from(Err(refusal)),
                viewers: before,
            },
        }
    }
}

impl Viewers {
    // All rows wait for all, at the start and after a fresh drawing.
    pub fn start() -> Viewers
        ensures { result ≡ start }
    {
        Viewers {
            waiting: [ALL_ROWS; VIEWERS],
        }
    }

    // Adds marks to those that wait for each viewer.
    fn add(self, marks: u32) -> Viewers
        ensures { result ≡ added self marks }
    {
        let mut waiting = self.waiting;
        for viewer in 0..VIEWERS {
            waiting[viewer] = marks::join(waiting[viewer], marks);
        }
        Viewers { waiting }
    }

    // What a store that serves viewers answers: its own marks, and the viewers with the marks added to those of each. One
    // that is refused has none to add.
    #[tactic(auto, using(crate::proofs::Laws::none_added))]
    fn serve(self, stored: Result<u32, Refusal>) -> Result<(u32, Viewers), Refusal>
        ensures { store_served self result ≡ served self (store_answered stored) }
    {
        let marks = stored?;
        Ok((marks, self.add(marks)))
    }

    // Hands a viewer the marks that wait for it, and clears them.
    pub fn ask(self, viewer: usize) -> Result<(u32, Viewers), Refusal>
        ensures { ask_answered self result ≡ ask self viewer }
    {
        if viewer >= VIEWERS {
            return Err(Refusal::Viewer);
        }
        let mut waiting = self.waiting;
        let marks = waiting[viewer];
        waiting[viewer] = 0;
        Ok((marks, Viewers { waiting }))
    }
}

// Draws the picture afresh, and sets all rows for all viewers.
pub fn draw_for_viewers(
    machine: Machine,
    viewers: Viewers,
    screen: &[u8],
    attribute: &[u8],
    picture: &mut [u8],
) -> Result<(Drawing, Viewers), Refusal>
    ensures { drawn_serving (drawing_served viewers result) picture.new
        ≡ draw_for_viewers machine viewers screen.now attribute.now picture.old }
{
    let drawing = picture::draw(machine, screen, attribute, picture)?;
    // Whatever waited before, all rows wait for all then.
    let _ = viewers;
    Ok((drawing, Viewers::start()))
}

// Stores a byte as the 8088 does, mends the picture, and adds the marks to those of every viewer.
pub fn store_for_viewers(
    machine: Machine,
    viewers: Viewers,
    shared: &mut [u8],
    screen: &mut [u8],
    attribute: &mut [u8],
    picture: &mut [u8],
    address: u32,
    byte: u8,
) -> Result<(u32, Viewers), Refusal>
    ensures { stored_serving (store_served viewers result)
        shared.new screen.new attribute.new picture.new
        ≡ store_for_viewers machine viewers
        shared.old screen.old attribute.old picture.old address byte }
{
    let stored = mending::store_with_picture(
        machine, shared, screen, attribute, picture, address, byte,
    );
    viewers.serve(stored)
}

// The same store with an index lent.
pub fn store_with_index_for_viewers(
    machine: Machine,
    viewers: Viewers,
    shared: &mut [u8],
    screen: &mut [u8],
    attribute: &mut [u8],
    picture: &mut [u8],
    index: &mut [u8],
    address: u32,
    byte: u8,
) -> Result<(u32, Viewers), Refusal>
    ensures { stored_serving_index (store_served viewers result)
        shared.new screen.new attribute.new picture.new index.new
        ≡ store_with_index_for_viewers machine viewers
        shared.old screen.old attribute.old picture.old index.old
        address byte }
{
    let outcome = index::store_with_index(
        machine, shared, screen, attribute, picture, index, address, byte,
    );
    viewers.serve(outcome)
}
