// What a program reads: its input, its arguments and its files. No call allocates, and none ends the program.
#![tactic(auto)]

ghost use Rattle.std.specs.Prelude.{◌≤◌, length};

use std::env::FillError;
use std::fs::File;
use std::io;
use std::io::Read;
use std::rt::Env;

// Reads until to is full, the input ends or a read fails, and returns how many bytes it put at the start of to. On an
// empty to it reads nothing. std's read_exact does not say how many bytes there were, so the loop stays.
pub fn read_full<R: Read>(from: &mut R, to: &mut [u8]) -> usize
    ensures { result ≤ length to.new }
{
    let mut at = 0;
    while at < to.len() {
        match from.read(&mut to[at..]) {
            Ok(0) => return at,
            Ok(n) => at += n,
            Err(_) => return at,
        }
    }
    at
}

// Whether the program was started with an argument i. Argument 0 is the program's own name, and the first word after
// it is argument 1. An empty argument is one.
pub fn has_argument(rt: &HostRuntime, i: usize) -> bool {
    let mut word = [0u8; 1];
    match rt.arg(i, &mut word) {
        Err(FillError::NotPresent) => false,
        Err(FillError::TooLong) => true,
        Ok(_) => true,
    }
}

// Puts argument i at the start of word and returns its length, or 0 where it is missing or longer than word. One that
// is too long leaves its first bytes in word. They are numbered as in has_argument.
pub fn argument(rt: &HostRuntime, i: usize, word: &mut [u8]) -> usize
    ensures { result ≤ length word.new }
{
    match rt.arg(i, word) {
        Ok(n) => n,
        Err(_) => 0,
    }
}

// Opens a file for reading.
pub fn open(rt: &HostRuntime, path: &str) -> io::Result<File> {
    File::open(rt, path)
}
