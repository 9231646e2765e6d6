// The operations on a component whose stored common period is known to be right: made, read or edited by an operation of these crates. They answer as
// the public ones do and don't work the true value out to compare it; that the stored one is right goes with the component.
// Each differs from its public one in the check that it makes first: a parameter for that check would be longer than both.
ghost use Rattle.std.specs.Prelude.{◌≡◌};
ghost use Rattle.budget.specs.Answered.{common_period_in};
ghost use Rattle.budget.specs.Component.{common_period_answer};
ghost use Rattle.budget.specs.Edit.{adding_answer, removing_answer};
ghost use Rattle.budget.specs.Known.{known_in};

use crate::common_period::stored;
use crate::component::check_ranges;
use crate::edit::{added, check_adding, removed_at};
use crate::quantity::Time;
use crate::refusal::Refusal;
pub use crate::right::Known;
use crate::task::Task;

// The common period L of a component, as it is stored.
pub fn common_period(known: Known) -> Result<Time, Refusal>
    ensures { common_period_in result ≡ common_period_answer known.component }
{
    check_ranges(known.component)?;
    stored(known.component.common)
}

// The component with a task more, behind the others.
pub fn add_task(known: Known, task: Task) -> Result<Known, Refusal>
    ensures { known_in result ≡ adding_answer known.component task }
{
    check_adding(known.component, task)?;
    Ok(Known {
        component: added(known.component, task),
    })
}

// The component without the task at a place.
pub fn remove_task(known: Known, place: usize) -> Result<Known, Refusal>
    ensures { known_in result ≡ removing_answer known.component place }
{
    check_ranges(known.component)?;
    let component = removed_at(known.component, place)?;
    Ok(Known { component })
}
