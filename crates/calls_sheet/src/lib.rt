// The calls on sheets (docs/CALLS.md), each answered by a function of its own.
#![tactic(auto)]

mod sheets;
pub mod shown;
mod writers;

use calls::print::Out;
use calls::words::Words;

// Answers the call, and says whether it is one of this crate: `||` goes on to the next module where the call is none of the one before.
pub fn answer(call: &[u8], words: Words<'_>, out: &mut Out) -> bool {
    sheets::answer(call, words, out) || writers::answer(call, words, out)
}
