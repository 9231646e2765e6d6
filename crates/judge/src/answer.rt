// What the judge answers: a verdict and a margin, a smallest capacity (RULES 7, 8).
use budget::quantity::{Time, Units};

// The verdict: accepted, short with the first short instant, or none where a capacity was asked and there is none. No Option or Result: docs/DECISIONS
// ("Named forms") fixes this enum.
#[derive(Clone, Copy, PartialEq, Eq)]
pub enum Verdict {
    Accepted,
    Short(Time),
    None,
}

// The least margin and the first step instant that has it.
#[derive(Clone, Copy, PartialEq, Eq)]
pub struct Margin {
    pub units: i32,
    pub at: Time,
}

// What judging a component answers: the capacity stated or found (0 for none), the verdict, and the margin, which a component without tasks or capacity lacks.
#[derive(Clone, Copy, PartialEq, Eq)]
pub struct Judgement {
    pub capacity: Units,
    pub verdict: Verdict,
    pub margin: Option<Margin>,
}
