// Lines of text, read a byte at a time, so that a line typed at a terminal is answered at once.
use crate::say;
use std::fs::File;
use std::io;
use std::io::{Read, Write};

const PATH_BYTES: usize = 256;

// Room for what the system says of a file that cannot be opened.
const WHY_BYTES: usize = 128;

// The most that a line may have.
const LINE_BYTES: usize = 200;

// One byte more tells a line that is too long.
pub const TEXT_BYTES: usize = LINE_BYTES + 1;

// The file that an argument names. One that cannot be opened is told.
pub fn opened(rt: &HostRuntime, argument: usize) -> io::Result<Option<File>> {
    let mut path = [0u8; PATH_BYTES];
    let n = console::argument(rt, argument, &mut path);
    let path = &path[..n];
    match std::str::from_utf8(path) {
        Ok(path) => open(rt, path),
        Err(_) => {
            let path = path.escape_ascii();
            eprintln!(rt; "monitor: each argument must be a file of lines: {path}: not UTF-8")?;
            Ok(None)
        }
    }
}

fn open(rt: &HostRuntime, path: &str) -> io::Result<Option<File>> {
    match console::open(rt, path) {
        Ok(file) => Ok(Some(file)),
        Err(why) => {
            tell(rt, path, why)?;
            Ok(None)
        }
    }
}

// Tells what the system says of a file that cannot be opened.
fn tell(rt: &HostRuntime, path: &str, why: io::Error) -> io::Result<()> {
    let mut text = [0u8; WHY_BYTES];
    let _ = write!(&mut text[..], "{why}");
    let why = words(std::str::from_utf8(&text).unwrap_or(""));
    eprintln!(rt; "monitor: each argument must be a file of lines: {path}: {why}")
}

// The words of a text with zeros after it, without the number of the error that may follow them.
fn words(text: &str) -> &str {
    match text.split_once(" (os error ") {
        Some((words, _)) => words,
        None => text.trim_end_matches('\0'),
    }
}

// Shows a line ahead of its answer. A remark is its own answer, and of a line that is too long only the beginning was
// kept.
pub fn echo(rt: &HostRuntime, line: &[u8]) -> io::Result<()> {
    if is_long(line) || is_remark(line) || !commands::has_words(line) {
        return Ok(());
    }
    print!(rt; "> ")?;
    say::line(rt, line)
}

fn next_byte<R: Read>(from: &mut R) -> Option<u8> {
    let mut one = [0u8; 1];
    if console::read_full(from, &mut one) == 0 {
        return None;
    }
    Some(one[0])
}

// Reads to the end of a line that is too long. A proved loop has to end, so it counts to a number that no run reaches.
fn skip_line<R: Read>(from: &mut R) {
    for _ in 0..u64::MAX {
        if matches!(next_byte(from), None | Some(b'\n')) {
            return;
        }
    }
}

// Reads a line without its end, if there is one more. The last line of a file may have no end.
pub fn next_line<'a, R: Read>(from: &mut R, text: &'a mut [u8; TEXT_BYTES]) -> Option<&'a [u8]> {
    for bytes in 0..TEXT_BYTES {
        match next_byte(from) {
            None if bytes == 0 => return None,
            None | Some(b'\n') => return Some(&text[..bytes]),
            Some(byte) => text[bytes] = byte,
        }
    }
    skip_line(from);
    Some(text)
}

// Whether a line has more bytes than it may.
pub fn is_long(line: &[u8]) -> bool {
    line.len() > LINE_BYTES
}

// A line, or an empty one in place of one that is too long.
pub fn unless_long(line: &[u8]) -> &[u8] {
    if is_long(line) { b"" } else { line }
}

// A line whose first byte is # is a remark.
pub fn is_remark(line: &[u8]) -> bool {
    matches!(line, [b'#', ..])
}
