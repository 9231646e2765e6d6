// The edits of a call, one after the other: each leaves a component that is known to store the right common period, which the next one takes.
use budget::known::{Known, add_task, remove_task};
use budget::refusal::Refusal;
use calls::words::Words;

// The next edit: `add` with its task, or `remove` with its place.
fn edit_once(words: &mut Words<'_>, known: Known) -> Result<Known, Refusal> {
    match words.word() {
        [b'a', ..] => add_task(known, words.task()),
        _ => remove_task(known, words.place()),
    }
}

// The edits behind their count, up to the first that is refused.
pub(crate) fn edit_all(words: &mut Words<'_>, known: Known) -> Result<Known, Refusal> {
    let mut edited = known;
    for _ in 0..words.number() {
        edited = edit_once(words, edited)?;
    }
    Ok(edited)
}
