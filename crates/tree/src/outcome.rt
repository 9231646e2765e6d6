// Verdict and margin of a component's whole workload, or that it waits (RULES 7, 8).
ghost use Rattle.std.specs.Prelude.{◌≡◌, map};
ghost use Rattle.tree.specs.Offer.{offered_in};
ghost use Rattle.tree.specs.Outcome.{outcome_in, outcome_of};
ghost use Rattle.tree.specs.Workload.{load_in, load_on};

use crate::answer::Outcome;
use crate::offer::Offer;
use crate::workload::load;
use budget::known::Known;
use judge::known;
use record::layout::Pair;

// The judge's answer on the component with its workload.
#[tactic(auto, unfolding(crate::specs::Outcome::outcome_of))]
pub(crate) fn outcome_of(workload: Option<Known>) -> Outcome
    ensures { outcome_in result ≡ outcome_of (load_in workload) }
{
    match workload {
        Some(known) => Outcome::Judged(known::judge(known)),
        None => Outcome::Waiting,
    }
}

// Judges the component that comes next, by the offers of those before it.
pub(crate) fn judge_next(known: Known, pairs: &[Pair], offers: &[Offer]) -> Outcome
    ensures { outcome_in result ≡ outcome_of (load_on pairs.now (map offered_in offers.now) known.component) }
{
    outcome_of(load(known, pairs, offers))
}
