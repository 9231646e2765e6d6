// A line of the listing as it is written: words and numbers behind what it holds.
ghost use Rattle.std.specs.Prelude.{◌≡◌, ◌+◌, ◌≤◌, ◌<◌, [], ◌∷◌, ◌++◌, length};

use itoa::{Buffer, Integer};
use std::marker::Model;

// A line so far: its bytes in fixed memory, and how many they are; contracts see the one list that the Model gives. The longest line has its newline within 64
// bytes.
#[derive(Drop)]
pub(crate) struct Line {
    bytes: [u8; 64],
    count: usize,
}

impl Model for Line {
    ghost use Rattle.std.specs.Prelude.{List, ℕ, ◌≤◌, take};

    ghost Value = { List ℕ };

    ghost view = { λ l. take l.count l.bytes };

    ghost invariant = { λ l. l.count ≤ 64 };
}

impl Line {
    pub(crate) fn new() -> Line
        ensures { result ≡ [] }
    {
        Line {
            bytes: [0; 64],
            count: 0,
        }
    }

    pub(crate) fn as_slice(&self) -> &[u8]
        ensures bytes { result.now ≡ self.now }
        ensures short { length result.now ≤ 64 }
    {
        &self.bytes[..self.count]
    }

    // Puts the bytes of a word.
    pub(crate) fn word(&mut self, word: &[u8])
        requires { length self.old + length word.now ≤ 64 }
        ensures bytes { self.new ≡ self.old ++ word.now }
        ensures ends { length self.new ≡ length self.old + length word.now }
    {
        let end = self.count + word.len();
        self.bytes[self.count..end].copy_from_slice(word);
        self.count = end;
    }

    // Puts a number's decimal digits, behind `-` where it is negative.
    pub(crate) fn number<N: Integer>(&mut self, n: N)
        requires { length self.old + N.MAX_STR_LEN ≤ 64 }
        ensures bytes { self.new ≡ self.old ++ N.text n }
        ensures ends { length self.new ≤ length self.old + N.MAX_STR_LEN }
    {
        let mut digits = Buffer::new();
        self.word(digits.format(n).as_bytes());
    }

    // Puts a space and a number.
    pub(crate) fn field<N: Integer>(&mut self, n: N)
        requires { length self.old + N.MAX_STR_LEN < 64 }
        ensures bytes { self.new ≡ self.old ++ (32 ∷ N.text n) }
        ensures ends { length self.new ≤ length self.old + N.MAX_STR_LEN + 1 }
    {
        self.word(b" ");
        self.number(n);
    }
}
