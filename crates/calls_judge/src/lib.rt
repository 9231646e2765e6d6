// The calls of the crate `judge` (docs/CALLS.md), each answered by a function of its own.
#![tactic(auto)]

pub mod shown;

use calls::print::Out;
use calls::words::Words;
use judge::{capacity, judging};

fn judge(words: &mut Words<'_>, out: &mut Out) {
    let component = words.component();
    let answered = judging::judge(component);
    out.status(&answered);
    if let Ok(judgement) = answered {
        shown::put_judgement(out, judgement);
    }
}

fn capacity(words: &mut Words<'_>, out: &mut Out) {
    let component = words.component();
    let answered = capacity::smallest_capacity(component);
    out.status(&answered);
    if let Ok(smallest) = answered {
        shown::put_smallest(out, smallest);
    }
}

// Answers the call, and says whether it is one of this crate.
pub fn answer(call: &[u8], mut words: Words<'_>, out: &mut Out) -> bool {
    let words = &mut words;
    match call {
        b"judge" => judge(words, out),
        b"capacity" => capacity(words, out),
        _ => return false,
    }
    true
}
