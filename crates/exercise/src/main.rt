// Answers the calls on standard input, a line each, over the operations of the other crates (docs/CALLS.md).
#![tactic(auto)]

use calls::print::Out;
use calls::words::Words;
use lines::{Held, line_end};
use std::io;
use std::io::Read;

// The answer to a line: its first word names the call, and `||` goes on to the next crate where the call is none of the one before.
fn answer(line: &[u8], out: &mut Out) {
    let mut words = Words::of(line);
    let call = words.word();
    let answered = calls_budget::answer(call, words, out)
        || calls_judge::answer(call, words, out)
        || calls_run::answer(call, words, out)
        || calls_sheet::answer(call, words, out)
        || calls_edit::answer(call, words, out)
        || calls_tree::answer(call, words, out)
        || calls_host::answer(call, words, out);
    if !answered {
        out.unknown();
    }
}

// Writes the answer to a line; where that fails, says so on standard error.
fn write_answer(rt: &(impl Print + Eprint), line: &[u8], out: &mut Out) -> io::Result<()> {
    out.clear();
    answer(line, out);
    out.end_line();
    let written = rt.write_all(out.as_slice());
    if written.is_err() {
        let _ = rt.eprintln("writing an answer failed; stopped");
    }
    written
}

// One turn: answers the next whole line, or reads where none is held.
fn turn(
    rt: &(impl Print + Eprint),
    input: &mut impl Read,
    row: &mut [u8],
    out: &mut Out,
    held: Held,
) -> Held {
    let Some(bytes) = row.get(..held.end) else {
        return Held::stopped(held.end);
    };
    let end = line_end(bytes, held.seen);
    if end >= held.end {
        return held.read_more(rt, input, row);
    }
    match bytes.get(held.start..end) {
        Some(line) if write_answer(rt, line, out).is_ok() => held.after_line(end),
        _ => Held::stopped(held.end),
    }
}

// Answers what is left where the input is over: a last line may lack its end.
fn answer_last(rt: &(impl Print + Eprint), row: &[u8], out: &mut Out, held: Held) {
    match row.get(held.start..held.end) {
        Some([]) | None => {}
        Some(line) => {
            let _ = write_answer(rt, line, out);
        }
    }
}

// A proved loop has to end, and nothing says that the input does: the turns are counted up to a number that none reaches.
fn answer_all(rt: &(impl Print + Eprint), input: &mut impl Read, row: &mut [u8], out: &mut Out) {
    let mut held = Held::nothing();
    for _ in 0..u64::MAX {
        held = turn(rt, input, row, out, held);
        if !held.open {
            answer_last(rt, row, out, held);
            return;
        }
    }
}

// The row has room for the longest call (docs/CALLS.md), in fixed memory.
fn main(rt: HostRuntime) {
    let mut row = [0u8; 262144];
    let mut out = Out::new();
    answer_all(&rt, &mut rt.stdin(), &mut row, &mut out);
}
