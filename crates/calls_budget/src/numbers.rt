// Calls on tasks, interfaces and components.
use budget::answered::{answered_length, answered_units};
use budget::quantity::Units;
use budget::refusal::Refusal;
use budget::{check, common, common_period, demand, interface, supply, task};
use calls::print::Out;
use calls::words::Words;

fn check_task(words: &mut Words<'_>, out: &mut Out) {
    let task = words.task();
    out.status(&task::check_task(task));
}

fn check_table(words: &mut Words<'_>, out: &mut Out) {
    let table = words.table();
    out.status(&task::check_table(table));
}

fn check_interface(words: &mut Words<'_>, out: &mut Out) {
    let interface = words.interface();
    out.status(&interface::check_interface(interface));
}

fn check_component(words: &mut Words<'_>, out: &mut Out) {
    let component = words.component();
    out.status(&check::check_component(component));
}

fn dedicated(out: &mut Out) {
    let dedicated = interface::dedicated();
    out.ok();
    out.number(dedicated.period.0);
    out.number(dedicated.capacity.0);
    out.number(dedicated.deadline.0);
}

fn common_divisor(words: &mut Words<'_>, out: &mut Out) {
    let first = words.long();
    let second = words.long();
    out.ok();
    out.number(common::common_divisor(first, second));
}

fn common_period(words: &mut Words<'_>, out: &mut Out) {
    let component = words.component();
    let answered = common_period::common_period(component);
    out.status(&answered);
    out.number(answered_length(answered).0);
}

fn put_units(out: &mut Out, answered: Result<Units, Refusal>) {
    out.status(&answered);
    out.number(answered_units(answered).0);
}

fn demand(words: &mut Words<'_>, out: &mut Out) {
    let table = words.table();
    let t = words.time();
    put_units(out, demand::demand(table, t));
}

fn supply(words: &mut Words<'_>, out: &mut Out) {
    let interface = words.interface();
    let t = words.time();
    put_units(out, supply::supply(interface, t));
}

// Answers the call, and says whether it is one of these.
pub(crate) fn answer(call: &[u8], mut words: Words<'_>, out: &mut Out) -> bool {
    let words = &mut words;
    match call {
        b"check_task" => check_task(words, out),
        b"check_table" => check_table(words, out),
        b"check_interface" => check_interface(words, out),
        b"check_component" => check_component(words, out),
        b"dedicated" => dedicated(out),
        b"common_divisor" => common_divisor(words, out),
        b"common_period" => common_period(words, out),
        b"demand" => demand(words, out),
        b"supply" => supply(words, out),
        _ => return false,
    }
    true
}
