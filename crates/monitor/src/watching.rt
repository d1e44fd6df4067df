// The calls that serve viewers: the stores and the drawing, which keep the picture and the viewers both, and the ask.
use crate::desk::Desk;
use crate::say::{self, Hex};
use lent::Refusal;
use mending::Stored;
use picture::Drawn;
use std::io;
use viewers::{Asked, DrawnForViewers, StoredForViewers, Viewers};

// The bits of a number of marks. All are shown, also those that no row has.
const MARK_BITS: usize = 32;

// The marks that C is told, and each row that is marked. A refusal is shown with the marks beside it, which have to
// be 0.
fn say_marks(
    rt: &HostRuntime,
    words: &str,
    refused: Option<Refusal>,
    told: Stored,
) -> io::Result<()> {
    let marks = Hex(told.marks.to_be_bytes());
    match refused {
        Some(_) => print!(rt; "refused {}, marks {marks}", told.refusal)?,
        None => print!(rt; "{words}, marks {marks}")?,
    }
    for row in 0..MARK_BITS {
        if marks::is_marked(told.marks, row) {
            print!(rt; " {row}")?;
        }
    }
    say::end(rt, refused)
}

// Obeys a line that stores as the 8088 does, with the picture lent.
pub fn store(rt: &HostRuntime, desk: &mut Desk, address: u32, byte: u8) -> io::Result<()> {
    let outcome = viewers::store_for_viewers(
        desk.machine,
        desk.viewers,
        desk.shared.lent_mut(),
        desk.screen.lent_mut(),
        desk.attribute.lent_mut(),
        desk.picture.lent_mut(),
        address,
        byte,
    );
    let told = StoredForViewers::told(desk.viewers, outcome);
    desk.viewers = told.viewers;
    say_marks(rt, "stored", outcome.err(), told.stored)
}

// The same with the index lent too.
pub fn store_with_index(
    rt: &HostRuntime,
    desk: &mut Desk,
    address: u32,
    byte: u8,
) -> io::Result<()> {
    let outcome = viewers::store_with_index_for_viewers(
        desk.machine,
        desk.viewers,
        desk.shared.lent_mut(),
        desk.screen.lent_mut(),
        desk.attribute.lent_mut(),
        desk.picture.lent_mut(),
        desk.index.lent_mut(),
        address,
        byte,
    );
    let told = StoredForViewers::told(desk.viewers, outcome);
    desk.viewers = told.viewers;
    say_marks(rt, "stored", outcome.err(), told.stored)
}

// Obeys a line in which a viewer asks.
pub fn ask(rt: &HostRuntime, desk: &mut Desk, viewer: usize) -> io::Result<()> {
    let outcome = desk.viewers.ask(viewer);
    let told = Asked::told(desk.viewers, outcome);
    desk.viewers = told.viewers;
    let (refusal, marks) = (told.refusal, told.marks);
    say_marks(rt, "asked", outcome.err(), Stored { refusal, marks })
}

// How many bytes C is told that a drawing read, and the first wild row.
fn say_drawn(rt: &HostRuntime, refused: Option<Refusal>, told: Drawn) -> io::Result<()> {
    match refused {
        Some(_) => print!(rt; "refused {}, bytes read {}", told.refusal, told.reads)?,
        None => print!(rt; "drawn, bytes read: {}", told.reads)?,
    }
    if told.wild {
        print!(rt; ", first wild row: {}", told.wild_row)?;
    } else {
        print!(rt; ", no wild row named")?;
    }
    say::end(rt, refused)
}

// Obeys a line that draws the picture afresh.
pub fn draw(rt: &HostRuntime, desk: &mut Desk) -> io::Result<()> {
    let outcome = viewers::draw_for_viewers(
        desk.machine,
        desk.viewers,
        desk.screen.lent(),
        desk.attribute.lent(),
        desk.picture.lent_mut(),
    );
    let told = DrawnForViewers::told(desk.viewers, outcome);
    desk.viewers = told.viewers;
    say_drawn(rt, outcome.err(), told.drawn)
}

// A line of words and then the marks that wait, viewer by viewer.
pub fn say_waiting(rt: &HostRuntime, words: &str, viewers: Viewers) -> io::Result<()> {
    print!(rt; "{words}")?;
    for marks in viewers.waiting {
        print!(rt; " {}", Hex(marks.to_be_bytes()))?;
    }
    println!(rt)
}

// A caller may hold any number in place of a viewer's marks.
pub fn wait(rt: &HostRuntime, desk: &mut Desk, viewer: usize, marks: u32) -> io::Result<()> {
    if viewer >= viewers::VIEWERS {
        return println!(rt; "expected a viewer of 0 to 7");
    }
    desk.viewers.waiting[viewer] = marks;
    say_waiting(rt, "waits:", desk.viewers)
}
