// Supply of an interface at an instant (RULES 6).
ghost use Rattle.std.specs.Prelude.{◌≡◌, ◌≤◌, true};
ghost use Rattle.budget.specs.Answered.{amount_in};
ghost use Rattle.budget.specs.Interface.{valid_interface};
ghost use Rattle.budget.specs.Limits.{limit};
ghost use Rattle.budget.specs.Supply as Supply;

use crate::interface::{Interface, check_interface};
use crate::quantity::{Time, Units, check_instant};
use crate::refusal::Refusal;

// The fewest units in `at` slots of an interface in range. Behind the wait the worst case goes period by period: a pause of Π − Θ slots, then
// the capacity, a unit a slot. Whole periods and the rest, the slots of the period begun, come from one division.
// `at ≤ limit` stays in the contract: t is the operation's own argument, and a type for an instant in range would ask every caller to make one.
fn units_by(interface: Interface, at: u32) -> u32
    requires in_range { valid_interface interface ≡ true }
    requires in_time { at ≤ limit }
    ensures { result ≡ Supply.supply interface at }
{
    let period = interface.period.0;
    let capacity = interface.capacity.0;
    let deadline = interface.deadline.0;
    let wait = deadline - capacity;
    if at < wait {
        return 0;
    }
    let behind = at - wait;
    let whole = behind / period;
    let rest = behind - whole * period;
    let pause = period - capacity;
    let units = whole * capacity;
    if rest < pause {
        return units;
    }
    units + (rest - pause)
}

// Supply of an interface at t.
pub fn supply(interface: Interface, t: Time) -> Result<Units, Refusal>
    ensures { amount_in result ≡ Supply.supply_answer interface t.0 }
{
    check_instant(check_interface(interface), t)?;
    Ok(Units(units_by(interface, t.0)))
}
