// The calls of the crate `budget` (docs/CALLS.md), each answered by a function of its own.
#![tactic(auto)]

mod edits;
mod numbers;

use calls::print::Out;
use calls::words::Words;

// Answers the call, and says whether it is one of this crate: `||` goes on to the next module where the call is none of the one before.
pub fn answer(call: &[u8], words: Words<'_>, out: &mut Out) -> bool {
    numbers::answer(call, words, out) || edits::answer(call, words, out)
}
