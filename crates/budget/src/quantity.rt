// Slots of time and units of service (RULES 1), each a type of its own, so that neither can stand where the other belongs.
// No order is derived: each chain of bounds has both in it (C ≤ D ≤ T), which the types keep apart, so bounds compare the plain numbers.
ghost use Rattle.std.specs.Prelude.{◌≡◌, cond, eqb, leb};
ghost use Rattle.budget.specs.Limits.{limit};
ghost use Rattle.budget.specs.Refusal as refusal;
ghost use Rattle.budget.specs.Refusal.{number_in};

use crate::refusal::Refusal;

// A number of slots, or the instant at the end of that many.
#[derive(Clone, Copy, PartialEq, Eq)]
pub struct Time(pub u32);

// A number of units of service; a supplied slot gives one.
#[derive(Clone, Copy, PartialEq, Eq)]
pub struct Units(pub u32);

impl Time {
    // The largest period, deadline, common period and instant that is taken.
    pub const LIMIT: u32 = 1_048_576;
}

// The refusal of a question about an instant: that of what it asks about comes first, then an instant above the limit is 9.
pub fn check_instant(first: Result<(), Refusal>, t: Time) -> Result<(), Refusal>
    ensures { number_in result ≡ cond (eqb (number_in first) refusal.none) (cond (leb t.0 limit) refusal.none refusal.range) (number_in first) }
{
    first?;
    if Time::LIMIT < t.0 {
        return Err(Refusal::Range);
    }
    Ok(())
}
