// Calls that are given a sheet, each with a buffer for it, since memory is fixed.
use crate::shown;
use calls::print::Out;
use calls::rows::ROOM;
use calls::words::Words;
use sheet::{check, part};
use transfer::{pair, read};

fn sheet(words: &mut Words<'_>, out: &mut Out) {
    let mut bytes = [0u8; ROOM];
    let answered = check::check_sheet(words.row(&mut bytes));
    shown::put_status(out, &answered);
    out.number(check::answered_count(answered));
}

fn part(words: &mut Words<'_>, out: &mut Out) {
    let mut bytes = [0u8; ROOM];
    let sheet = words.row(&mut bytes);
    let place = words.place();
    shown::put_status(out, &part::check_part(sheet, place));
    out.row(part::component_part(sheet, place));
}

fn read(words: &mut Words<'_>, out: &mut Out) {
    let mut bytes = [0u8; ROOM];
    let sheet = words.row(&mut bytes);
    let place = words.place();
    shown::put_reading(out, read::read_component(sheet, place));
}

fn read_pair(words: &mut Words<'_>, out: &mut Out) {
    let mut bytes = [0u8; ROOM];
    let sheet = words.row(&mut bytes);
    let place = words.place();
    let answered = pair::read_pair(sheet, place);
    shown::put_status(out, &answered);
    let pair = pair::answered_pair(answered);
    out.number(pair.child);
    out.number(pair.parent);
}

// Answers the call, and says whether it is one of these.
pub(crate) fn answer(call: &[u8], mut words: Words<'_>, out: &mut Out) -> bool {
    let words = &mut words;
    match call {
        b"sheet" => sheet(words, out),
        b"part" => part(words, out),
        b"read" => read(words, out),
        b"read_pair" => read_pair(words, out),
        _ => return false,
    }
    true
}
