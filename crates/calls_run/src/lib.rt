// The calls of the crates `trace` and `run` (docs/CALLS.md), each answered by a function of its own.
#![tactic(auto)]

use budget::refusal::Refusal;
use calls::print::Out;
use calls::rows::ROOM;
use calls::words::Words;
use run::jobs::Jobs;
use run::walk::{Walked, answered_walk, walk as walk_jobs};
use trace::legal::{answered_legal, is_legal};

fn legal(words: &mut Words<'_>, out: &mut Out) {
    let mut bytes = [0u8; ROOM];
    let interface = words.interface();
    let offset = words.time();
    let trace = words.row(&mut bytes);
    let answered = is_legal(interface, offset, trace);
    out.status(&answered);
    out.word(if answered_legal(answered) {
        "yes"
    } else {
        "no"
    });
}

fn put_walked(out: &mut Out, answered: Result<Walked, Refusal>, left: &[u32]) {
    out.status(&answered);
    let walked = answered_walk(answered);
    match walked.miss {
        Some(miss) => {
            out.word("miss");
            out.number(miss.at.0);
            out.number(miss.task);
        }
        None => out.word("none"),
    }
    out.number(walked.served.0);
    out.number(walked.idle.0);
    out.list(left);
}

// A walk has as much of the work-left buffer as the call says. Memory is fixed: every list has room for the most that one may hold (docs/CALLS.md).
fn walk(words: &mut Words<'_>, out: &mut Out) {
    let table = words.table();
    let mut tasks = [0u32; 2048];
    let mut releases = [0i32; 2048];
    let mut ready = [0u32; 2048];
    let mut works = [0u32; 2048];
    let jobs = Jobs {
        tasks: words.list(&mut tasks),
        releases: words.list(&mut releases),
        ready: words.list(&mut ready),
        works: words.list(&mut works),
    };
    let mut bytes = [0u8; ROOM];
    let trace = words.row(&mut bytes);
    let mut left = [77u32; 2048];
    match left.get_mut(..words.place()) {
        Some(left) => {
            let answered = walk_jobs(table, jobs, trace, left);
            put_walked(out, answered, left);
        }
        None => out.unknown(),
    }
}

// Answers the call, and says whether it is one of this crate.
pub fn answer(call: &[u8], mut words: Words<'_>, out: &mut Out) -> bool {
    let words = &mut words;
    match call {
        b"legal" => legal(words, out),
        b"walk" => walk(words, out),
        _ => return false,
    }
    true
}
