// An interface (RULES 2), its limits and its refusal.
ghost use Rattle.std.specs.Prelude.{◌≡◌};
ghost use Rattle.budget.specs.Interface.{dedicated, interface_refusal};
ghost use Rattle.budget.specs.Refusal.{number_in};

use crate::quantity::{Time, Units};
use crate::refusal::Refusal;

// An explicit-deadline-periodic interface: period Π, capacity Θ, deadline Δ.
#[derive(Clone, Copy, PartialEq, Eq)]
pub struct Interface {
    pub period: Time,
    pub capacity: Units,
    pub deadline: Time,
}

impl Interface {
    // The dedicated processor.
    pub const DEDICATED: Interface = Interface {
        period: Time(1),
        capacity: Units(1),
        deadline: Time(1),
    };
    // The range limits: Δ is at least the one, Π at most the other.
    pub const LEAST_DEADLINE: u32 = 1;

    pub const LONGEST_PERIOD: u32 = Time::LIMIT;
}

// The dedicated processor, as the constant has it: an operation that docs/CLAIMS names (RULES 11).
pub fn dedicated() -> Interface
    ensures { result ≡ dedicated }
{
    Interface::DEDICATED
}

// The refusal of an interface: 0 ≤ Θ ≤ Δ ≤ Π ≤ the limit and Δ ≥ 1, or 9.
#[tactic(auto, unfolding(crate::specs::Interface::interface_refusal, crate::specs::Interface::valid_interface))]
pub fn check_interface(interface: Interface) -> Result<(), Refusal>
    ensures { number_in result ≡ interface_refusal interface }
{
    let period = interface.period.0;
    let capacity = interface.capacity.0;
    let deadline = interface.deadline.0;
    if deadline < capacity {
        return Err(Refusal::Range);
    }
    if period < deadline {
        return Err(Refusal::Range);
    }
    if Interface::LONGEST_PERIOD < period {
        return Err(Refusal::Range);
    }
    if deadline < Interface::LEAST_DEADLINE {
        return Err(Refusal::Range);
    }
    Ok(())
}
