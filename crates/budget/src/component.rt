// A component (RULES 2): its capacity, its interface, its stored common period, and the refusals of one that is handed in.
ghost use Rattle.std.specs.Prelude.{◌≡◌};
ghost use Rattle.budget.specs.Component.{refused, interface_at, interface_of, units_of, range_refusal, is_right, held_refusal};
ghost use Rattle.budget.specs.Refusal.{number_in};

use crate::common::{Common, common_of, same_common};
use crate::interface::{Interface, check_interface};
use crate::quantity::{Time, Units};
use crate::refusal::Refusal;
use crate::task::{Table, check_table, no_tasks};

// The capacity of a component: stated in units, or asked for (RULES 2). An enum that carries its value is the named form (docs/DECISIONS, "Named forms").
#[derive(Clone, Copy, PartialEq, Eq)]
pub enum Capacity {
    Stated(Units),
    Asked,
}

impl Capacity {
    // The units of a stated capacity; an asked one has none of its own.
    pub fn units(self) -> Units
        ensures { result.0 ≡ units_of self }
    {
        match self {
            Capacity::Stated(units) => units,
            Capacity::Asked => Units(0),
        }
    }
}

// A component: its number, its interface with the capacity stated or asked, its common period as it is stored, and its tasks.
#[derive(Clone, Copy)]
pub struct Component {
    pub number: u16,
    pub period: Time,
    pub capacity: Capacity,
    pub deadline: Time,
    pub common: Common,
    pub table: Table,
}

// The stand-in for a component that can't be answered (RULES 11): number 0, the dedicated processor as its stated interface, no tasks,
// and so a common period of 1.
#[tactic(auto, unfolding(crate::specs::Component::refused))]
pub fn refused() -> Component
    ensures { result ≡ refused }
{
    let interface = Interface::DEDICATED;
    Component {
        number: 0,
        period: interface.period,
        capacity: Capacity::Stated(interface.capacity),
        deadline: interface.deadline,
        common: Common::Within(interface.period),
        table: no_tasks(),
    }
}

// A component's interface at a given capacity.
pub fn interface_at(component: Component, capacity: Units) -> Interface
    ensures { result ≡ interface_at component capacity.0 }
{
    Interface {
        period: component.period,
        capacity,
        deadline: component.deadline,
    }
}

// A component's interface: at the capacity stated, or at 0 where it is asked.
#[tactic(auto, unfolding(crate::specs::Component::interface_of))]
pub fn interface_of(component: Component) -> Interface
    ensures { result ≡ interface_of component }
{
    interface_at(component, component.capacity.units())
}

// The refusals of a component that stand before any other: 6, then 9.
pub fn check_ranges(component: Component) -> Result<(), Refusal>
    ensures { number_in result ≡ range_refusal component }
{
    check_table(component.table)?;
    check_interface(interface_of(component))
}

// Whether the stored common period is the component's own: the true one is worked out for it.
#[tactic(auto, unfolding(crate::specs::Component::is_right))]
pub fn is_right(component: Component) -> bool
    ensures { result ≡ is_right component }
{
    same_common(
        component.common,
        common_of(component.period, component.table),
    )
}

// The refusals of a component that is handed in, before anything is asked of it: 6, 9, then 17 for a stored common period that is not its own.
pub fn check_held(component: Component) -> Result<(), Refusal>
    ensures { number_in result ≡ held_refusal component }
{
    check_ranges(component)?;
    if is_right(component) {
        return Ok(());
    }
    Err(Refusal::Common)
}
