// The smallest capacity that is accepted for a component's period, deadline and tasks (RULES 7).
ghost use Rattle.std.specs.Prelude.{◌≡◌};
ghost use Rattle.judge.specs.Capacity.{capacity_answer, smallest_in};
ghost use Rattle.judge.specs.inner.Raise.{Raised};
ghost use Rattle.judge.specs.inner.Scan.{Supplied};
ghost use Rattle.judge.specs.inner.Whole.{capacity_found};

use crate::judgeable::Judgeable;
use crate::steps::{Step, Steps};
use crate::supplied::units_at;
use budget::common_period::common_period;
use budget::component::{Component, interface_at};
use budget::interface::Interface;
use budget::quantity::Units;
use budget::refusal::Refusal;

// The smallest capacity from the interface's on that supplies this demand at this instant. Supply grows with the capacity, so halving finds it.
fn raised(interface: Interface, step: Step) -> Option<Units>
    requires { Supplied interface step.at }
    ensures { Raised interface step.at step.demand result }
{
    let from = interface.capacity.0;
    if step.demand <= units_at(interface, step.at) {
        return Some(interface.capacity);
    }
    let mut low = from + 1;
    let mut high = interface.deadline.0 + 1;
    // No list is gone through: each turn halves the capacities that are left.
    while low < high {
        let middle = low + (high - low) / 2;
        let capacity = Units(middle);
        if units_at(
            Interface {
                capacity,
                ..interface
            },
            step.at,
        ) < step.demand
        {
            low = middle + 1;
        } else {
            high = middle;
        }
    }
    if interface.deadline.0 < low {
        return None;
    }
    Some(Units(low))
}

// The smallest capacity from 0 to the deadline that fits at every instant up to L. Supply grows with the capacity, so what each step instant
// needs is taken one by one; the walk stops at the first that needs more than the deadline.
pub(crate) fn least_capacity(judgeable: Judgeable) -> Option<Units>
    ensures { result ≡ capacity_found judgeable.component }
{
    let mut steps = Steps::new(judgeable.component.table.tasks());
    let mut capacity = Units(0);
    // docs/DECISIONS ("Named forms") fixes this form: the walk leaves at the instant that decides, with the capacity as its value. No index is counted.
    let found = 'instants: loop {
        if judgeable.length.0 < steps.at {
            break 'instants Some(capacity);
        }
        let step = steps.pass();
        let Some(enough) = raised(interface_at(judgeable.component, capacity), step) else {
            break 'instants None;
        };
        capacity = enough;
    };
    found
}

// The smallest capacity from 0 to the deadline that is accepted for the component's period, deadline and tasks, whatever capacity it states.
pub fn smallest_capacity(component: Component) -> Result<Option<Units>, Refusal>
    ensures { smallest_in result ≡ capacity_answer component }
{
    let length = common_period(component)?;
    Ok(least_capacity(Judgeable { component, length }))
}
