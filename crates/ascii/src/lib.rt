// Words and numbers as ASCII text.
#![tactic(auto)]

ghost use Rattle.std.specs.Prelude.{◌≤◌, ◌<◌, ◌≡◌, [], length};
ghost use Rattle.std.proofs.lemmas.List.Edits.{sets};
ghost use Rattle.ascii.specs.Numbers.{digit, reached, decimal, hex};
ghost use Rattle.ascii.specs.Text.{with_words};

use std::marker::Model;

// Text of at most `N` bytes: of what goes beyond them, as much is kept as there is room for. It is seen as its bytes.
#[derive(Drop)]
pub struct Text<const N: usize> {
    bytes: [u8; N],
    end: usize,
}

impl<const N: usize> Model for Text<N> {
    ghost use Rattle.std.specs.Prelude.{ℕ, ◌≤◌, List, take};

    ghost Value = { List ℕ };

    ghost view = { λ text. take text.end text.bytes };

    ghost invariant = { λ text. text.end ≤ N };
}

impl<const N: usize> Text<N> {
    pub fn new() -> Self
        ensures { result ≡ [] }
    {
        Text {
            bytes: [0; N],
            end: 0,
        }
    }

    // Puts bytes as they are.
    pub fn put_bytes(&mut self, bytes: &[u8])
        ensures { self.new ≡ with_words N self.old bytes.now }
    {
        let fits = bytes.len().min(N - self.end);
        let end = self.end + fits;
        let room = &mut self.bytes[..];
        room[self.end..end].copy_from_slice(&bytes[..fits]);
        self.end = end;
    }

    // Puts words as they are.
    pub fn put(&mut self, words: &str)
        ensures { self.new ≡ with_words N self.old words.now }
    {
        self.put_bytes(words.as_bytes());
    }

    // Puts a number's digit at a power of ten, if the number reaches it.
    #[tactic(auto, using(crate::proofs::Laws::with_none), unfolding(crate::specs::Numbers::reached))]
    fn put_reached(&mut self, n: u16, power: u16)
        requires { 0 < power }
        ensures { self.new ≡ with_words N self.old (reached n power) }
    {
        if n >= power {
            self.put_bytes(&[digit((n / power % 10) as u8)]);
        }
    }

    // Puts a number in decimal, with no zeros ahead of it.
    #[tactic(auto, using(crate::proofs::Laws::with_both), unfolding(crate::specs::Numbers::decimal))]
    pub fn put_decimal(&mut self, n: u16)
        ensures { self.new ≡ with_words N self.old (decimal n) }
    {
        self.put_reached(n, 10000);
        self.put_reached(n, 1000);
        self.put_reached(n, 100);
        self.put_reached(n, 10);
        self.put_bytes(&[digit((n % 10) as u8)]);
    }

    // Puts a byte as two hexadecimal digits.
    #[tactic(auto, unfolding(crate::specs::Numbers::hex))]
    pub fn put_hex(&mut self, byte: u8)
        ensures { self.new ≡ with_words N self.old (hex byte) }
    {
        self.put_bytes(&[digit(byte / 16), digit(byte % 16)]);
    }

    // Copies the text to the front of a buffer with as much room, and says how many bytes it is.
    pub fn copy_to(&self, buffer: &mut [u8; N]) -> usize
        ensures text { buffer.new ≡ sets buffer.old 0 self.now }
        ensures bytes { result ≡ length self.now }
        ensures within { result ≤ N }
    {
        let end = self.end;
        buffer[..end].copy_from_slice(&self.bytes[..end]);
        end
    }
}

// The character of a digit, 0 to 9 or A to F.
#[tactic(auto, unfolding(crate::specs::Numbers::digit))]
pub fn digit(n: u8) -> u8
    ensures { result ≡ digit n }
{
    if n < 10 { b'0' + n } else { b'A' + n % 10 }
}
