// The offer of a component, by what it is answered (RULES 7).
ghost use Rattle.std.specs.Prelude.{◌≡◌, ◌<◌, IfSome};
ghost use Rattle.tree.specs.Offer.{capacity_in, offered_in, offer_of};
ghost use Rattle.tree.specs.Outcome.{outcome_in};
ghost use Rattle.tree.specs.inner.Told.{Told};

use crate::answer::Outcome;
use crate::offer::Offer;
use budget::component::Component;
use budget::quantity::Units;
use judge::answer::Verdict;
use record::layout::Head;

// The offer of a component of which its record is known, at a capacity or with none.
pub(crate) fn offering(head: Head, capacity: Option<Units>) -> Offer
    requires { IfSome capacity (λ u. u.0 < 4_294_967_295) }
    ensures { offered_in result ≡ record { number = head.number; capacity = capacity_in capacity; period = head.period.0; deadline = head.deadline.0 } }
{
    Offer {
        number: u32::from(head.number),
        capacity,
        period: head.period,
        deadline: head.deadline,
    }
}

// Only a component that is accepted offers anything.
#[tactic(auto, unfolding(crate::specs::Offer::offer_of))]
pub(crate) fn offer_of(component: Component, outcome: Outcome) -> Offer
    requires { Told (outcome_in outcome) }
    ensures { offered_in result ≡ offer_of component (outcome_in outcome) }
{
    let head = Head::from(component);
    match outcome {
        Outcome::Waiting => offering(head, None),
        Outcome::Judged(Ok(judgement)) if judgement.verdict == Verdict::Accepted => offering(
            head,
            Some(judgement.capacity),
        ),
        Outcome::Judged(_) => offering(head, None),
    }
}
