// What an answer of the judge shows: the verdict and then the margin.
use budget::quantity::Units;
use calls::print::Out;
use judge::answer::{Judgement, Verdict};

// The verdict's word, a short one's instant, and the capacity; then the margin and its instant, or `none`.
pub fn put_judgement(out: &mut Out, judgement: Judgement) {
    match judgement.verdict {
        Verdict::Accepted => out.word("accepted"),
        Verdict::Short(instant) => {
            out.word("short");
            out.number(instant.0);
        }
        Verdict::None => out.word("none"),
    }
    out.number(judgement.capacity.0);
    match judgement.margin {
        Some(margin) => {
            out.number(margin.units);
            out.number(margin.at.0);
        }
        None => out.word("none"),
    }
}

// The smallest capacity, or `none`.
pub fn put_smallest(out: &mut Out, smallest: Option<Units>) {
    match smallest {
        Some(units) => out.number(units.0),
        None => out.word("none"),
    }
}
