// What an answer of this crate holds beside its refusal: where it is refused, the value that RULES 11 fixes.
ghost use Rattle.std.specs.Prelude.{◌≡◌};
ghost use Rattle.budget.specs.Answered.{amount_in, common_period_in};
ghost use Rattle.budget.specs.Edit.{edited_in};

use crate::component::{Component, refused};
use crate::quantity::{Time, Units};
use crate::refusal::Refusal;

// The units of demand or supply; a refused answer has 0.
pub fn answered_units(answer: Result<Units, Refusal>) -> Units
    ensures { result ≡ (amount_in answer).units }
{
    answer.unwrap_or(Units(0))
}

// The common period L; a refused answer has 0.
pub fn answered_length(answer: Result<Time, Refusal>) -> Time
    ensures { result ≡ (common_period_in answer).length }
{
    answer.unwrap_or(Time(0))
}

// The component that was made or edited; a refused answer has the stand-in.
pub fn answered_component(answer: Result<Component, Refusal>) -> Component
    ensures { result ≡ (edited_in answer).component }
{
    answer.unwrap_or(refused())
}
