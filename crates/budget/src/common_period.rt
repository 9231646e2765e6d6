// The common period L of a component (RULES 3).
ghost use Rattle.std.specs.Prelude.{◌≡◌};
ghost use Rattle.budget.specs.Answered.{common_period_in};
ghost use Rattle.budget.specs.Component.{common_period_answer};
ghost use Rattle.budget.specs.inner.Stored.{stored_answer};

use crate::common::Common;
use crate::component::{Component, check_held};
use crate::quantity::Time;
use crate::refusal::Refusal;

// What a stored value says: L, or 10 for the mark. (No `TryFrom`: its body would be this match, and its clause a ghost member beside it.)
#[tactic(auto, unfolding(crate::specs::inner::Stored::stored_answer))]
pub(crate) fn stored(common: Common) -> Result<Time, Refusal>
    ensures { common_period_in result ≡ stored_answer common }
{
    match common {
        Common::Within(length) => Ok(length),
        Common::Above => Err(Refusal::Long),
    }
}

// The common period L of a component, as it is stored once that is known to be right.
pub fn common_period(component: Component) -> Result<Time, Refusal>
    ensures { common_period_in result ≡ common_period_answer component }
{
    check_held(component)?;
    stored(component.common)
}
