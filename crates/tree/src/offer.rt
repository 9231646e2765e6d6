// What a component offers to its parent (RULES 7).
ghost use Rattle.std.specs.Prelude.{◌<◌, IfSome};
ghost use Rattle.std.proofs.Props.{props};

use budget::quantity::{Time, Units};

// A component's number, the capacity that it is accepted with, its period and its deadline; one that is not accepted withholds a capacity. The number is wider
// than a component's, since a row that is lent to `turn_at` may hold any. No capacity told is the number that stands for one withheld (`withheld` of specs/Offer).
#[derive(Clone, Copy)]
pub struct Offer {
    pub number: u32,
    pub capacity: Option<Units>,
    pub period: Time,
    pub deadline: Time,
    pub ghost told: { IfSome capacity (λ u. u.0 < 4_294_967_295) } by { Prim.hlevel props },
}

impl Offer {
    // Stands for the offer of a component that was not judged.
    pub const NONE: Offer = Offer {
        number: 0,
        capacity: None,
        period: Time(0),
        deadline: Time(0),
    };
}
