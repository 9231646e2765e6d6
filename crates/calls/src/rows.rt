// Rows of bytes and lists of numbers, read into the front of what the caller lends; what does not fit is left out.
ghost use Rattle.std.specs.Prelude.{length};
ghost use Rattle.calls.specs.Counts.{IsPrefixLen};

use crate::words::Words;

// Room for the longest row of a call (docs/CALLS.md): memory is fixed, so each call that has a row has a buffer of this size.
pub const ROOM: usize = 65_600;

// What a list may hold, and how it is read.
pub trait Listed: Copy {
    fn read(words: &mut Words<'_>) -> Self;
}

impl Listed for u32 {
    fn read(words: &mut Words<'_>) -> u32 {
        words.long()
    }
}

impl Listed for i32 {
    fn read(words: &mut Words<'_>) -> i32 {
        words.signed()
    }
}

// The value of a hex digit, in the last four bits. It is no `char::to_digit`, since it refuses no byte: a line that is no call is read too (docs/CALLS.md).
fn hex_digit(byte: u8) -> u8 {
    if byte >= b'a' {
        return (byte - b'a' + 10) % 16;
    }
    byte % 16
}

// Puts one value after the other into the front of what is lent, and answers that front. The clause stands here, at `row` and at `list`, and in no type,
// since each of the three answers a part of the caller's own slice.
fn filled<T: Copy, F: FnMut() -> Option<T>>(lent: &mut [T], mut next: F) -> &[T]
    requires { F.IsAlwaysCallable next }
    ensures { IsPrefixLen (length result.now) lent.old }
{
    for (count, place) in lent.iter_mut().enumerate() {
        match next() {
            Some(value) => *place = value,
            None => return &lent[..count],
        }
    }
    lent
}

impl Words<'_> {
    // The byte of the next two hex digits.
    fn hex_byte(&mut self) -> Option<u8> {
        match self.rest {
            [high, low, rest @ ..] if *high >= b'0' => {
                self.rest = rest;
                Some(hex_digit(*high) << 4 | hex_digit(*low))
            }
            _ => None,
        }
    }

    // A row of bytes; `-` has none.
    pub fn row<'b>(&mut self, lent: &'b mut [u8]) -> &'b [u8]
        ensures { IsPrefixLen (length result.now) lent.old }
    {
        let row = filled(lent, || self.hex_byte());
        self.word();
        row
    }

    // Numbers behind their count.
    pub fn list<'b, T: Listed>(&mut self, lent: &'b mut [T]) -> &'b [T]
        ensures { IsPrefixLen (length result.now) lent.old }
    {
        let mut left = self.number();
        filled(lent, || {
            left = left.checked_sub(1)?;
            Some(T::read(self))
        })
    }
}
