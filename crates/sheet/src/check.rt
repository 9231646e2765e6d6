// What a sheet is answered: its count of components, or its refusal and the byte where the refused record began.
ghost use Rattle.std.specs.Prelude.{◌≡◌};
ghost use Rattle.sheet.specs.Answered.{checked_in};
ghost use Rattle.sheet.specs.Check.{check};
ghost use Rattle.sheet.specs.inner.Noted.{Found};

use crate::fault::Fault;
pub use crate::judging::MOST_COMPONENTS;
use crate::pairs::pair_walk;
use crate::walk::{Walked, walk};

// The answer behind the walk over the components: that of the pairs and the end record behind them.
#[tactic(auto, using(crate::proofs::RegisterLaws::few, crate::proofs::RegisterLaws::walkable, crate::proofs::RegisterLaws::paired_answer, crate::proofs::RegisterLaws::paired_refused))]
pub(crate) fn answer(sheet: &[u8], found: &Walked) -> Result<usize, Fault>
    requires { Found sheet.now found.now }
    ensures { checked_in result ≡ check sheet.now }
{
    let count = found.state.count;
    let mut components = found.components;
    pair_walk(sheet, &mut components[1..=count], found.state.place)?;
    Ok(count)
}

// Judges a sheet: its count of components, or its refusal and the byte where the record began.
#[tactic(auto, using(crate::proofs::RegisterLaws::refused_answer))]
pub fn check_sheet(sheet: &[u8]) -> Result<usize, Fault>
    ensures { checked_in result ≡ check sheet.now }
{
    let found = walk(sheet)?;
    answer(sheet, &found)
}

// The count of components; a refused answer has 0 (RULES 11).
pub fn answered_count(answer: Result<usize, Fault>) -> usize
    ensures { result ≡ (checked_in answer).count }
{
    answer.unwrap_or(0)
}
