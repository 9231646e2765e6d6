// Calls and answers as text (docs/CALLS.md): a line is read word by word, and an answer is put together from its front on.
// A line that is no call reads as zeros and empty rows: whatever stands there, reading is safe and ends.
// Each crate over this one has an `answer` that looks alike, a `match` over the names of its own calls that says whether the call is one of them: one
// `match` over all 29 would stand above every layer, and each is proved by itself (docs/DECISIONS.md, "Layers").
#![tactic(auto)]

pub mod given;
pub mod print;
pub mod rows;
pub mod shown;
pub mod words;
