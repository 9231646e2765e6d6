// Why a sheet is refused, and where.
use budget::refusal::Refusal;

// A refusal, and the byte where the refused record began. For 14 and 15 there is no such record, and the place is 0: that number is fixed (RULES 11), so it is
// no `Option`. Who asks for a component that isn't there is answered 15 in `part` and in the crate `tree`, each where its edges are looked up.
#[derive(Clone, Copy, PartialEq, Eq)]
pub struct Fault {
    pub refusal: Refusal,
    pub place: usize,
}
