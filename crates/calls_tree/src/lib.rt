// The calls on components in their tree (docs/CALLS.md), each answered by a function of its own.
#![tactic(auto)]

use calls::print::Out;
use calls::rows::ROOM;
use calls::words::Words;
use calls_judge::shown::put_judgement;
use calls_sheet::shown::{put_fault, put_status};
use sheet::fault::Fault;
use tree::answer::Outcome;
use tree::place::{answered_workload, judge_place, load_place};

fn workload(words: &mut Words<'_>, out: &mut Out) {
    let mut bytes = [0u8; ROOM];
    let sheet = words.row(&mut bytes);
    let place = words.place();
    let answered = load_place(sheet, place);
    put_status(out, &answered);
    match answered_workload(answered) {
        Some(known) => out.component(known.component),
        None => out.word("waiting"),
    }
}

// A component that can't be judged, its workload's L being too long, is refused with the place 0 (RULES 11).
fn put_outcome(out: &mut Out, number: u16, outcome: Outcome) {
    match outcome {
        Outcome::Waiting => {
            out.ok();
            out.number(number);
            out.word("waiting");
        }
        Outcome::Judged(Ok(judgement)) => {
            out.ok();
            out.number(number);
            put_judgement(out, judgement);
        }
        Outcome::Judged(Err(refusal)) => put_fault(out, Fault { refusal, place: 0 }),
    }
}

fn tree(words: &mut Words<'_>, out: &mut Out) {
    let mut bytes = [0u8; ROOM];
    let sheet = words.row(&mut bytes);
    let place = words.place();
    match judge_place(sheet, place) {
        Ok(placed) => put_outcome(out, placed.number, placed.outcome),
        Err(fault) => put_fault(out, fault),
    }
}

// Answers the call, and says whether it is one of this crate.
pub fn answer(call: &[u8], mut words: Words<'_>, out: &mut Out) -> bool {
    let words = &mut words;
    match call {
        b"workload" => workload(words, out),
        b"tree" => tree(words, out),
        _ => return false,
    }
    true
}
