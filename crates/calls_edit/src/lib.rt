// The call `edit` (docs/CALLS.md), answered the way of a program that reads, edits, judges and writes and never hands in a component of its own: all of it
// by the operations for a component that is known to store the right common period.
#![tactic(auto)]

mod edits;
mod shown;

use calls::print::Out;
use calls::rows::ROOM;
use calls::words::Words;
use calls_sheet::shown::put_reading;
use transfer::read;

fn edit(words: &mut Words<'_>, out: &mut Out) {
    let mut bytes = [0u8; ROOM];
    let sheet = words.row(&mut bytes);
    let place = words.place();
    match read::read_component(sheet, place) {
        Ok(known) => match edits::edit_all(words, known) {
            Ok(edited) => shown::put_asked(out, edited),
            Err(refusal) => out.edited(Err(refusal)),
        },
        Err(fault) => put_reading(out, Err(fault)),
    }
}

// Answers the call, and says whether it is one of this crate.
pub fn answer(call: &[u8], mut words: Words<'_>, out: &mut Out) -> bool {
    let words = &mut words;
    match call {
        b"edit" => edit(words, out),
        _ => return false,
    }
    true
}
