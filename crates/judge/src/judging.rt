// Judging a component (RULES 7, 8): its verdict and its margin, read from a single scan.
ghost use Rattle.std.specs.Prelude.{◌≡◌, ◌≤◌};
ghost use Rattle.judge.specs.Answer.{answer_at, answer_in, judge_answer, judgement_in};

use crate::answer::{Judgement, Verdict};
use crate::capacity::least_capacity;
use crate::judgeable::Judgeable;
use crate::margin::margin_from;
use crate::scan::scan;
use crate::verdict::verdict_from;
use budget::common_period::common_period;
use budget::component::{Capacity, Component, interface_at};
use budget::quantity::Units;
use budget::refusal::Refusal;

// The answer at a capacity: one scan up to L.
fn at_capacity(judgeable: Judgeable, capacity: Units) -> Judgement
    requires { capacity.0 ≤ judgeable.component.deadline.0 }
    ensures { judgement_in result ≡ answer_at judgeable.component (Capacity.Stated capacity) }
{
    let interface = interface_at(judgeable.component, capacity);
    let found = scan(
        judgeable.component.table.tasks(),
        interface,
        judgeable.length,
    );
    Judgement {
        capacity,
        verdict: verdict_from(found.short),
        margin: margin_from(found.tight),
    }
}

// The answer for an asked capacity: that at the smallest one which is accepted, or none.
fn at_smallest(judgeable: Judgeable) -> Judgement
    ensures { judgement_in result ≡ answer_at judgeable.component Capacity.Asked }
{
    match least_capacity(judgeable) {
        Some(capacity) => at_capacity(judgeable, capacity),
        // Where there is none, the capacity that the answer speaks of is 0 (RULES 11).
        None => Judgement {
            capacity: Units(0),
            verdict: Verdict::None,
            margin: None,
        },
    }
}

// The answer at the capacity that the component states, or at the smallest one where it asks.
pub(crate) fn judge_over(judgeable: Judgeable) -> Judgement
    ensures { judgement_in result ≡ judge_answer judgeable.component }
{
    match judgeable.component.capacity {
        Capacity::Stated(units) => at_capacity(judgeable, units),
        Capacity::Asked => at_smallest(judgeable),
    }
}

// Verdict and margin of a component, at its capacity stated or found.
pub fn judge(component: Component) -> Result<Judgement, Refusal>
    ensures { answer_in result ≡ judge_answer component }
{
    let length = common_period(component)?;
    Ok(judge_over(Judgeable { component, length }))
}
