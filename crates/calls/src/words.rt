// The words of a line and its numbers, each read where the one before it ends.

// What is left to read of a line.
#[derive(Clone, Copy)]
pub struct Words<'a> {
    pub(crate) rest: &'a [u8],
}

impl<'a> Words<'a> {
    pub fn of(line: &'a [u8]) -> Self {
        Words { rest: line }
    }

    // Whether the next byte is this one.
    pub(crate) fn begins_with(&self, byte: u8) -> bool {
        self.rest.first() == Some(&byte)
    }

    // The next word, without the space behind it.
    pub fn word(&mut self) -> &'a [u8] {
        let rest = self.rest;
        match rest.iter().position(|byte| *byte == b' ') {
            Some(end) => {
                self.rest = &rest[end + 1..];
                &rest[..end]
            }
            None => {
                self.rest = &[];
                rest
            }
        }
    }

    // A number, or the largest where it is larger; its digits have the codes 48 to 57, of which the last four bits are the digit.
    // It is no `parse`, which refuses: every word reads as a number, in a line that is no call too (docs/CALLS.md).
    pub fn number(&mut self) -> u64 {
        let mut bytes = self.rest.iter();
        let value = bytes
            .by_ref()
            .take_while(|byte| **byte >= b'0')
            .fold(0, |value: u64, byte| {
                value
                    .saturating_mul(10)
                    .saturating_add(u64::from(byte % 16))
            });
        self.rest = bytes.as_slice();
        value
    }

    // A place in a row, or a count.
    pub fn place(&mut self) -> usize {
        self.number() as usize
    }

    // A component's number: the last 16 bits. The `%` takes them, since a cast has to lose nothing.
    pub fn component_number(&mut self) -> u16 {
        (self.number() % 65_536) as u16
    }

    // A number, or the largest of 32 bits where it is larger.
    pub fn long(&mut self) -> u32 {
        u32::try_from(self.number()).unwrap_or(u32::MAX)
    }

    // A signed number, or the nearest of 32 bits where it is out of their range.
    pub fn signed(&mut self) -> i32 {
        match self.rest {
            [b'-', rest @ ..] => {
                self.rest = rest;
                0i32.saturating_sub_unsigned(self.long())
            }
            _ => 0i32.saturating_add_unsigned(self.long()),
        }
    }
}
