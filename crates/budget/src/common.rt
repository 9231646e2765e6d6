// The common period of a component as the component stores it (RULES 3): a length within the limit, or the mark that it is above. It is built up
// from greatest common divisors, one period at a time.
ghost use Rattle.std.specs.Prelude.{◌≡◌};
ghost use Rattle.budget.specs.CommonPeriod.{common_divisor, common_multiple};
ghost use Rattle.budget.specs.Common.{capped, grown, common_of, same_common};
ghost use Rattle.budget.specs.Task.{tasks_of};

use crate::quantity::Time;
use crate::task::Table;

// The stored common period: L, or that L is above the limit. It is no `Option`: there is an L in either case, and `None` would say that there is none;
// and StoredMeans of crate promises speaks of the two cases by name.
#[derive(Clone, Copy, PartialEq, Eq)]
pub enum Common {
    Within(Time),
    Above,
}

// The greatest common divisor by Euclid's rule: the second number falls with each remainder, until it is 0.
pub fn common_divisor(a: u32, b: u32) -> u32
    ensures { result ≡ common_divisor a b }
{
    if b == 0 { a } else { common_divisor(b, a % b) }
}

// The least common multiple of two numbers; 0 for 0 and 0, which have no divisor to divide by.
fn common_multiple(a: u32, b: u32) -> u64
    ensures { result ≡ common_multiple a b }
{
    let divisor = common_divisor(a, b);
    if divisor == 0 {
        return 0;
    }
    (a / divisor) as u64 * b as u64
}

// A length as it is stored.
fn capped(length: u64) -> Common
    ensures { result ≡ capped length }
{
    if (Time::LIMIT as u64) < length {
        return Common::Above;
    }
    Common::Within(Time(length as u32))
}

// One period more: one common multiple with what is stored. What is above the limit never falls back.
#[tactic(auto, unfolding(crate::specs::Common::grown))]
pub fn grow(common: Common, period: Time) -> Common
    ensures { result ≡ grown common period.0 }
{
    match common {
        Common::Within(length) => capped(common_multiple(length.0, period.0)),
        Common::Above => Common::Above,
    }
}

// The common period of a period and the tasks of a table, worked out from nothing.
pub fn common_of(period: Time, table: Table) -> Common
    ensures { result ≡ common_of period.0 (tasks_of table) }
{
    let mut common = capped(period.0 as u64);
    for task in table.tasks() {
        common = grow(common, task.period);
    }
    common
}

// Whether two stored values are the same, as derived equality has it: an operation that docs/CLAIMS names, with a clause that is_right passes on.
pub fn same_common(a: Common, b: Common) -> bool
    ensures { result ≡ same_common a b }
{
    a == b
}
