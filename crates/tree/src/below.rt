// The components that one place needs, itself and all below it, and their outcomes (RULES 7).
ghost use Rattle.std.specs.Prelude.{◌<◌, ◌≤◌, ◌≡◌, [], ◌∷◌, ◌++◌, length, map, take};
ghost use Rattle.record.specs.Layout.{record_of};
ghost use Rattle.transfer.specs.ReadAt.{read_at};
ghost use Rattle.transfer.specs.Reading.{component_from};
ghost use Rattle.tree.specs.Offer.{offer_of, offered_in};
ghost use Rattle.tree.specs.Workload.{load_in, load_on};
ghost use Rattle.tree.specs.inner.Below.{offers_below, outcome_wanted, wanted_of};

use crate::offer::Offer;
use crate::offering::{offer_of, offering};
use crate::outcome::judge_next;
use crate::turn::Pass;
use crate::wanted::Wanted;
use crate::workload::load;
use budget::component::Capacity;
use budget::interface::Interface;
use budget::known::Known;
use record::layout::{Head, Pair, Record, record_of};
use transfer::read::{part_at, read_part};

// The number asked for and those of all below it, from the last pair to the first.
pub(crate) fn wanted_below(pairs: &[Pair], number: u16) -> Wanted
    requires { length pairs.now ≤ 256 }
    ensures { result ≡ wanted_of pairs.now number }
{
    let mut wanted = Wanted::only(number);
    for pair in pairs.iter().rev() {
        if wanted.holds(pair.parent) {
            wanted.push(pair.child);
        }
    }
    wanted
}

// What the record of the component of a part says; no task is read. Without a component record it is the stand-in's.
#[tactic(auto, unfolding(budget::specs::Component::refused, transfer::specs::Reading::component_from, transfer::specs::Reading::with_head))]
fn begun_by(part: &[u8]) -> Head
    ensures { let c = component_from part.now (record_of part.now) in result ≡ record { number = c.number; period = c.period; capacity = c.capacity; deadline = c.deadline } }
{
    match record_of(part) {
        Ok(Record::Component(head)) => head,
        _ => {
            let interface = Interface::DEDICATED;
            Head {
                number: 0,
                period: interface.period,
                capacity: Capacity::Stated(interface.capacity),
                deadline: interface.deadline,
            }
        }
    }
}

// What the component at a place offers: one that is wanted is read whole and judged; any other is as good as waiting.
fn offer_at(pass: Pass<'_>, place: usize, wanted: &Wanted, offers: &[Offer]) -> Offer
    ensures { let c = read_at pass.entry.sheet.now pass.entry.edges.now place in offered_in result ≡ offer_of c (outcome_wanted wanted.now pass.entry.pairs.now (map offered_in offers.now) c) }
{
    let part = part_at(pass.sheet, pass.edges, place);
    let head = begun_by(part);
    if wanted.holds(head.number) {
        let known = read_part(part);
        let outcome = judge_next(known, pass.pairs, offers);
        return offer_of(known.component, outcome);
    }
    offering(head, None)
}

// The offers of the components before a place, as far as they are wanted; each is read between its edges and judged after its children.
fn offers_below(pass: Pass<'_>, wanted: &Wanted, place: usize) -> [Offer; 256]
    requires { place ≤ 256 }
    ensures { map offered_in (take place result) ≡ offers_below wanted.now pass.entry.pairs.now (read_at pass.entry.sheet.now pass.entry.edges.now) place }
{
    let mut offers = [Offer::NONE; 256];
    for k in 0..place {
        // Those from k on are not noted yet.
        let offer = offer_at(pass, k, wanted, &offers[..k]);
        offers[k] = offer;
    }
    offers
}

// The workload of the component at a place, from what is below it alone.
pub(crate) fn load_below(pass: Pass<'_>, place: usize, known: Known) -> Option<Known>
    requires { (length pass.pairs.now ≤ 256) × (place ≤ 256) }
    ensures { let ps = pass.entry.pairs.now in load_in result ≡ load_on ps (offers_below (wanted_of ps known.component.number) ps (read_at pass.entry.sheet.now pass.entry.edges.now) place) known.component }
{
    let wanted = wanted_below(pass.pairs, known.component.number);
    let offers = offers_below(pass, &wanted, place);
    load(known, pass.pairs, &offers[..place])
}
