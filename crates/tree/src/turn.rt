// One turn of a pass over the components of a sheet, in their order: each is judged by the offers of those before it (RULES 7).
ghost use Rattle.std.specs.Prelude.{◌≤◌, ◌<◌, ◌≡◌, length};
ghost use Rattle.transfer.specs.ReadAt.{read_at};
ghost use Rattle.tree.specs.Offer.{row_in};
ghost use Rattle.tree.specs.Turned.{Turned, turn_in};

use crate::answer::{Outcome, Placed};
use crate::offer::Offer;
use crate::offering::offer_of;
use crate::outcome::judge_next;
use record::layout::Pair;
use transfer::read::read_at;

// What a pass goes by: a sheet, the edges between its components, and its pairs. A place is no part of it: one pass serves all places.
#[derive(Clone, Copy)]
pub struct Pass<'a> {
    pub sheet: &'a [u8],
    pub edges: &'a [usize; 257],
    pub pairs: &'a [Pair],
}

// Reads the component at a place between its edges, judges it, and notes its offer behind the others. Without a place in
// the row it is answered as waiting, and not refused: that is promised (clause `full`).
pub fn turn_at(pass: Pass<'_>, place: usize, offers: &mut [Offer]) -> Placed
    ensures turned { place < length offers.old → Turned (read_at pass.entry.sheet.now pass.entry.edges.now place) pass.entry.pairs.now place (row_in offers.old) (row_in offers.new) (turn_in result) }
    ensures full { length offers.old ≤ place → (result ≡ record { number = (read_at pass.entry.sheet.now pass.entry.edges.now place).number; outcome = Outcome.Waiting }) × (offers.new ≡ offers.old) }
{
    let known = read_at(pass.sheet, pass.edges, place);
    let number = known.component.number;
    if offers.len() <= place {
        return Placed {
            number,
            outcome: Outcome::Waiting,
        };
    }
    let outcome = judge_next(known, pass.pairs, &offers[..place]);
    offers[place] = offer_of(known.component, outcome);
    Placed { number, outcome }
}
