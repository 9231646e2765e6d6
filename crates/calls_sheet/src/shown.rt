// What an answer on a sheet shows.
use budget::known::Known;
use calls::print::Out;
use sheet::fault::Fault;
use transfer::read::answered_component;

// `refused` with its number and place.
pub fn put_fault(out: &mut Out, fault: Fault) {
    out.refused(fault.refusal);
    out.number(fault.place);
}

// `ok`, or `refused` with its number and place.
pub fn put_status<T>(out: &mut Out, answered: &Result<T, Fault>) {
    match answered {
        Ok(_) => out.ok(),
        Err(fault) => put_fault(out, *fault),
    }
}

// The answer of a reading; one that is refused shows the component that stands for none.
pub fn put_reading(out: &mut Out, answered: Result<Known, Fault>) {
    put_status(out, &answered);
    out.component(answered_component(answered).component);
}
