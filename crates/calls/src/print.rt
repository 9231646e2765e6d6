// An answer, put together word by word.
use arrayvec::ArrayVec;
use budget::refusal::Refusal;
use itoa::{Buffer, Integer};
use std::io::Write;

// The hex digits, each at its value.
const DIGITS: [u8; 16] = *b"0123456789abcdef";

// An answer so far, its words separated by single spaces; what does not fit is left out. The longest is a part of a sheet, two digits
// for each of its 65,536 bytes. A call takes `words` and `out` side by side, in no struct of both, since one is read while the other is written.
#[derive(Drop)]
pub struct Out {
    bytes: ArrayVec<u8, 140_000>,
}

impl Out {
    pub fn new() -> Self {
        Out {
            bytes: ArrayVec::new(),
        }
    }

    pub fn clear(&mut self) {
        self.bytes.clear();
    }

    pub fn as_slice(&self) -> &[u8] {
        self.bytes.as_slice()
    }

    // Bytes behind those that stand there, as many as fit.
    fn put(&mut self, bytes: &[u8]) {
        let _ = self.bytes.write(bytes);
    }

    // The space before a word that is not the first.
    fn space(&mut self) {
        if !self.bytes.is_empty() {
            let _ = self.bytes.try_push(b' ');
        }
    }

    pub fn word(&mut self, word: &str) {
        self.space();
        self.put(word.as_bytes());
    }

    // A number as a word, in decimal digits, behind `-` where it is negative. By `itoa`, as by `write!` a call took up to half as long again (measured).
    pub fn number(&mut self, number: impl Integer) {
        let mut digits = Buffer::new();
        self.word(digits.format(number));
    }

    pub fn ok(&mut self) {
        self.word("ok");
    }

    pub fn refused(&mut self, refusal: Refusal) {
        self.word("refused");
        self.number(u16::from(refusal));
    }

    // `ok`, or `refused` and the refusal's number.
    pub fn status<T>(&mut self, answered: &Result<T, Refusal>) {
        match answered {
            Ok(_) => self.ok(),
            Err(refusal) => self.refused(*refusal),
        }
    }

    // A row of bytes in hex, or `-` for none. Digit by digit: by `write!` a call of `write` took three times as long (measured).
    pub fn row(&mut self, row: &[u8]) {
        if row.is_empty() {
            return self.word("-");
        }
        self.space();
        for byte in row {
            let _ = self.bytes.try_push(DIGITS[usize::from(byte / 16)]);
            let _ = self.bytes.try_push(DIGITS[usize::from(byte % 16)]);
        }
    }

    // A list's count and its numbers.
    pub fn list(&mut self, list: &[u32]) {
        self.number(list.len());
        for number in list {
            self.number(*number);
        }
    }

    // What the line says is no call.
    pub fn unknown(&mut self) {
        self.word("unknown");
    }

    pub fn end_line(&mut self) {
        let _ = self.bytes.try_push(b'\n');
    }
}
