// What a component is answered in its tree (RULES 7).
use budget::refusal::Refusal;
use judge::answer::Judgement;

// Verdict and margin of a component's whole workload, or that it waits for a child. It is no `Option`: that it waits is an answer of its own, with a word and
// a code (RULES 14, 15), and `None` would say that there is none.
#[derive(Clone, Copy, PartialEq, Eq)]
pub enum Outcome {
    Waiting,
    Judged(Result<Judgement, Refusal>),
}

// What is answered of the component at a place: its number and its outcome.
#[derive(Clone, Copy, PartialEq, Eq)]
pub struct Placed {
    pub number: u16,
    pub outcome: Outcome,
}
