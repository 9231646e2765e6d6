// Lines of standard input, as they come: a read may end anywhere, and a line is answered only once it is whole.
#![tactic(auto)]

ghost use Rattle.lines.specs.Lines.{Behind, Kept, LineEnd, Refilled, Stopped, Taken, Unread};

use std::io::Read;

// What is held of the input in a row: the lines that are taken end at `start`, no line ends from there to `seen`, and the row
// holds the bytes up to `end`. Once it is not open, nothing more is read. The row is the caller's own, and no part of this, since `Refilled` speaks of its
// bytes before and after, and a line of it is answered while this stands.
#[derive(Clone, Copy)]
pub struct Held {
    pub start: usize,
    pub seen: usize,
    pub end: usize,
    // A flag and no Option of the rest, since `Stopped`, `Behind` and `Refilled` say where what is held stands when the input is over too.
    pub open: bool,
}

// The place of the first line end from a place on, or the end of the bytes. It is no `Option`: `LineEnd`, which docs/CLAIMS.md names, has a place for both.
pub fn line_end(bytes: &[u8], from: usize) -> usize
    ensures { LineEnd bytes.now from result }
{
    if from > bytes.len() {
        return from;
    }
    match bytes[from..].iter().position(|byte| *byte == b'\n') {
        Some(before) => from + before,
        None => bytes.len(),
    }
}

// Moves the bytes from a place up to another to the front, and answers how many there are.
fn keep_rest(row: &mut [u8], from: usize, end: usize) -> usize
    ensures { Kept row.old from end row.new result }
{
    if from > end || end > row.len() {
        return 0;
    }
    let count = end - from;
    // What stands at the front already stays there: else each read of a long line would move all that is held of it.
    if from == 0 {
        return count;
    }
    row.copy_within(from..end, 0);
    count
}

// Says on standard error why the input ends here. Where that can't be said, the input ends all the same.
fn stop_told(rt: &impl Eprint, held: usize, why: &str) -> Held
    ensures { Stopped held result }
{
    let _ = rt.eprintln(why);
    Held::stopped(held)
}

// Reads once behind the bytes held. Where the row has no room, the line is too long to be a call: that, and a read that fails,
// is said on standard error and ends the input.
fn read_behind(rt: &impl Eprint, input: &mut impl Read, row: &mut [u8], held: usize) -> Held
    ensures { Behind row.old held row.new result }
{
    if held >= row.len() {
        return stop_told(rt, held, "a line is too long to be a call; stopped");
    }
    match input.read(&mut row[held..]) {
        Ok(more) => Held {
            start: 0,
            seen: held,
            end: held + more,
            open: more > 0,
        },
        Err(_) => stop_told(rt, held, "reading the calls failed; stopped"),
    }
}

impl Held {
    // Nothing is read yet.
    pub fn nothing() -> Self
        ensures { Unread result }
    {
        Held {
            start: 0,
            seen: 0,
            end: 0,
            open: true,
        }
    }

    // Nothing more is read, and of what is held nothing is a line.
    pub fn stopped(end: usize) -> Self
        ensures { Stopped end result }
    {
        Held {
            start: end,
            seen: end,
            end,
            open: false,
        }
    }

    // What is held once the line that ends at a place is taken.
    pub fn after_line(self, end: usize) -> Self
        ensures { Taken self end result }
    {
        if end >= self.end {
            return Held::stopped(self.end);
        }
        Held {
            start: end + 1,
            seen: end + 1,
            ..self
        }
    }

    // Reads once, where no line is whole: what is held moves to the front, and what is read goes behind it.
    pub fn read_more(self, rt: &impl Eprint, input: &mut impl Read, row: &mut [u8]) -> Self
        ensures { Refilled row.old self row.new result }
    {
        if self.start > self.end || self.end > row.len() {
            return Held::stopped(0);
        }
        let kept = keep_rest(row, self.start, self.end);
        read_behind(rt, input, row, kept)
    }
}
