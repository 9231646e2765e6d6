// What an answer shows of an edited component: itself, all that is asked about it, and its records as they are written.
use budget::known::Known;
use calls::print::Out;
use calls_judge::shown::{put_judgement, put_smallest};
use judge::known::{judge, smallest_capacity};
use record::write::answered_place;
use transfer::known::write_component;

// The bytes of the component's records. Memory is fixed: those of 64 tasks fit into the buffer (docs/CALLS.md).
fn put_records(out: &mut Out, known: Known) {
    let mut buffer = [0u8; 2048];
    let written = write_component(&mut buffer, 0, known);
    if let Some(records) = buffer.get(..answered_place(written)) {
        out.row(records);
    }
}

// The whole answer on a component that was read and edited.
pub(crate) fn put_asked(out: &mut Out, known: Known) {
    out.ok();
    out.component(known.component);
    match judge(known) {
        Ok(judgement) => put_judgement(out, judgement),
        Err(refusal) => out.refused(refusal),
    }
    match smallest_capacity(known) {
        Ok(smallest) => put_smallest(out, smallest),
        Err(refusal) => out.refused(refusal),
    }
    put_records(out, known);
}
