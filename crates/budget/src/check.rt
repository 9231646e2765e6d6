// Checking a component: its ranges, its stored value and then its common period, in the order of RULES 13.
ghost use Rattle.std.specs.Prelude.{◌≡◌};
ghost use Rattle.budget.specs.Component.{component_refusal};
ghost use Rattle.budget.specs.Refusal.{number_in};

use crate::common_period::common_period;
use crate::component::Component;
use crate::refusal::Refusal;

// The refusal of a component: 6, 9, 17, and 10 where its common period is too long.
#[tactic(auto, unfolding(crate::specs::Component::common_period_answer))]
pub fn check_component(component: Component) -> Result<(), Refusal>
    ensures { number_in result ≡ component_refusal component }
{
    common_period(component)?;
    Ok(())
}
