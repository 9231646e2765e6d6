// The margin at a capacity (RULES 8): what supply has over demand where that is least, over the step instants, and the first such instant.
ghost use Rattle.std.specs.Prelude.{◌≡◌, ◌+◌, ◌*◌, ◌≤◌, leb};
ghost use Rattle.std.proofs.Math.IntN.{sub_ℕ};
ghost use Rattle.budget.specs.Limits.{limit};
ghost use Rattle.judge.specs.inner.Scan.{Small, SmallBest};
ghost use Rattle.judge.specs.inner.Tried.{margin_from};

use crate::answer::Margin;
use budget::quantity::Time;

// A step instant with supply and demand there.
#[derive(Clone, Copy)]
pub struct Tight {
    pub at: u32,
    pub units: u32,
    pub demand: u32,
}

// Whether the tightest step instant so far stays the tightest beside a later one; the first of equals does.
pub(crate) fn stays_tightest(best: Tight, here: Tight) -> bool
    requires best_small { Small best }
    requires here_small { Small here }
    ensures { result ≡ leb (best.units + here.demand) (here.units + best.demand) }
{
    best.units + here.demand <= here.units + best.demand
}

// Supply minus demand as a signed number.
fn difference(units: u32, demand: u32) -> i32
    requires units_few { units ≤ limit }
    requires demand_few { demand ≤ 128 * limit }
    ensures { result ≡ sub_ℕ units demand }
{
    units as i32 - demand as i32
}

// The margin where the tightest step instant is known.
#[tactic(auto, unfolding(crate::specs::inner::Tried::margin_from))]
pub(crate) fn margin_from(best: Option<Tight>) -> Option<Margin>
    requires { SmallBest best }
    ensures { result ≡ margin_from best }
{
    let best = best?;
    Some(Margin {
        units: difference(best.units, best.demand),
        at: Time(best.at),
    })
}
