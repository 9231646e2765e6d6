// Calls that make a component or edit one.
use budget::{edit, make};
use calls::print::Out;
use calls::words::Words;

fn make(words: &mut Words<'_>, out: &mut Out) {
    let head = words.head();
    let table = words.table();
    out.edited(make::make_component(
        head.number,
        head.period,
        head.capacity,
        head.deadline,
        table,
    ));
}

fn add_task(words: &mut Words<'_>, out: &mut Out) {
    let component = words.component();
    let task = words.task();
    out.edited(edit::add_task(component, task));
}

fn remove_task(words: &mut Words<'_>, out: &mut Out) {
    let component = words.component();
    let place = words.place();
    out.edited(edit::remove_task(component, place));
}

// Answers the call, and says whether it is one of these.
pub(crate) fn answer(call: &[u8], mut words: Words<'_>, out: &mut Out) -> bool {
    let words = &mut words;
    match call {
        b"make" => make(words, out),
        b"add_task" => add_task(words, out),
        b"remove_task" => remove_task(words, out),
        _ => return false,
    }
    true
}
