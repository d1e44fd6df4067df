// The monitor: calls of the library typed as lines of text, one call a line, on memories and a machine that it
// keeps from power-up. It reads the files that its arguments name, one after the other, or standard input.
#![tactic(auto)]

mod calls;
mod desk;
mod forms;
mod hand;
mod input;
mod lines;
mod rows;
mod say;
mod scans;
mod strewn;
mod watching;
mod why;

use desk::Desk;
use forms::Form;
use hand::ByHand;
use std::fs::File;
use std::io;
use std::io::Read;

fn main(rt: HostRuntime) -> io::Result<()> {
    let mut desk = Desk::start();
    if !console::has_argument(&rt, 1) {
        return take(&rt, &mut desk, &mut rt.stdin(), false);
    }
    // A file stays open until the next one is: a pipe that is named twice has a reader all the time.
    let mut before: Option<File> = None;
    for argument in 1..usize::MAX {
        if !console::has_argument(&rt, argument) {
            break;
        }
        let mut file = input::opened(&rt, argument)?;
        drop(before);
        if let Some(file) = &mut file {
            take(&rt, &mut desk, file, true)?;
        }
        before = file;
    }
    Ok(())
}

// Takes lines to the end of a file. One of a file that an argument names is shown first, so that what is written reads
// alone. A proved loop has to end, so it counts to a number that no run reaches.
fn take<R: Read>(rt: &HostRuntime, desk: &mut Desk, from: &mut R, shown: bool) -> io::Result<()> {
    for _ in 0..u64::MAX {
        let mut text = [0u8; input::TEXT_BYTES];
        let Some(line) = input::next_line(from, &mut text) else {
            break;
        };
        if shown {
            input::echo(rt, line)?;
        }
        obey(rt, desk, line)?;
    }
    Ok(())
}

// A number of a line as the byte, the word or the 32 bits that a call takes. Its form leaves it no more digits than
// that, but D where a byte is meant.
fn byte(n: usize) -> u8 {
    (n % 256) as u8
}

fn word(n: usize) -> u16 {
    (n % 65536) as u16
}

fn long(n: usize) -> u32 {
    (n % 4294967296) as u32
}

fn obey(rt: &HostRuntime, desk: &mut Desk, line: &[u8]) -> io::Result<()> {
    let Some((form, command)) = forms::parse(line) else {
        return forms::no_form(rt, line);
    };
    let [a, b, c, d] = command.numbers;
    match form {
        Form::Store => watching::store(rt, desk, long(a), byte(b)),
        Form::Blind => calls::store_blind(rt, desk, long(a), byte(b)),
        Form::Read => calls::read(rt, desk, long(a)),
        Form::Z80Store => calls::store_z80(rt, desk, word(a), byte(b)),
        Form::Z80Read => calls::read_z80(rt, desk, word(a)),
        Form::Port => calls::port(rt, desk, word(a), byte(b)),
        Form::Tick => calls::tick(rt, desk),
        Form::Watch => calls::watch(rt, desk, a),
        Form::ShadowWrite => calls::write_shadow(rt, desk, a, byte(b)),
        Form::ShadowRead => calls::read_shadow(rt, desk, a),
        Form::Draw => watching::draw(rt, desk),
        Form::Index => calls::index(rt, desk),
        Form::IndexStore => watching::store_with_index(rt, desk, long(a), byte(b)),
        Form::Ask => watching::ask(rt, desk, a),
        Form::Marked => scans::is_marked(rt, long(a), b),
        Form::Why => why::explain(rt, desk, a, b),
        Form::Line => scans::draw_line(rt, desk, a, b),
        Form::Lines => lines::list(rt, desk),
        Form::Glyph => scans::part(rt, desk, byte(a)),
        Form::Dots => scans::count(rt, desk),
        Form::Scroll => scans::scroll(rt, desk),
        Form::Power => hand::power(rt, desk),
        Form::Machine => say::machine(rt, "machine", desk.machine),
        Form::Latch => hand::latch(rt, desk, byte(a)),
        Form::Count => hand::count(rt, desk, byte(a), b != 0),
        Form::Viewers => watching::say_waiting(rt, "viewers:", desk.viewers),
        Form::Wait => watching::wait(rt, desk, a, long(b)),
        Form::Rows => rows::list(rt, &desk.picture.bytes),
        Form::Text => rows::show(rt, &desk.picture.bytes, desk.machine.columns()),
        Form::List => rows::list_afresh(rt, desk, a),
        Form::Sums => hand::sums(rt, desk),
        Form::Help => forms::help(rt),
        Form::Lend => hand::to_memory(rt, desk, a, ByHand::Lend(b)),
        Form::Fill => hand::to_memory(rt, desk, a, ByHand::Fill(byte(b))),
        Form::Put => {
            let (place, byte) = (b, byte(c));
            hand::to_memory(rt, desk, a, ByHand::Put { place, byte })
        }
        Form::Bytes => hand::to_memory(rt, desk, a, ByHand::Show { from: b, count: c }),
        Form::Strew => {
            let (seed, every, under) = (long(b), c, d);
            hand::to_memory(rt, desk, a, ByHand::Strew { seed, every, under })
        }
    }
}
