// The verdict on a capacity (RULES 7): accepted, or short at the first short instant.
ghost use Rattle.std.specs.Prelude.{◌≡◌};
ghost use Rattle.judge.specs.inner.Tried.{sooner_short, verdict_from};

use crate::answer::Verdict;
use crate::margin::Tight;
use budget::quantity::Time;

// The first short instant once this later instant has been tried too; the first one found stays.
#[tactic(auto, unfolding(crate::specs::inner::Tried::sooner_short))]
pub(crate) fn sooner_short(short: Option<Time>, here: Tight) -> Option<Time>
    ensures { result ≡ sooner_short short here.at here.units here.demand }
{
    if here.units < here.demand {
        return short.or(Some(Time(here.at)));
    }
    short
}

// The verdict where the first short instant is known.
#[tactic(auto, unfolding(crate::specs::inner::Tried::verdict_from))]
pub(crate) fn verdict_from(short: Option<Time>) -> Verdict
    ensures { result ≡ verdict_from short }
{
    short.map_or(Verdict::Accepted, Verdict::Short)
}
