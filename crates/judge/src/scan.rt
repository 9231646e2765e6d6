// The one scan of the instants: what the verdict and the margin at a capacity are read from (RULES 7, 8). Between step instants demand stands still and
// supply never falls, so only step instants are tried.
ghost use Rattle.std.specs.Prelude.{◌≡◌};
ghost use Rattle.judge.specs.inner.Scan.{Scannable, Telling, Triable};
ghost use Rattle.judge.specs.inner.Tried.{short_on, short_tried, tight_on, tight_tried};

use crate::margin::{Tight, stays_tightest};
use crate::steps::{Step, Steps};
use crate::supplied::units_at;
use crate::verdict::sooner_short;
use budget::interface::Interface;
use budget::quantity::Time;
use budget::task::Task;

// What a scan has found: the first short instant and the tightest step instant.
#[derive(Clone, Copy)]
pub struct Scanned {
    pub short: Option<Time>,
    pub tight: Option<Tight>,
}

// What is found once this instant has been tried too. It is a step instant if demand there exceeds demand before. Where the tightest so far stays so, all
// that was found does: were the instant short, so was that one. This test comes first since it decides at nearly every step.
#[tactic(auto, unfolding(crate::specs::inner::Tried::short_tried, crate::specs::inner::Tried::tight_tried))]
fn try_instant(found: Scanned, interface: Interface, step: Step) -> Scanned
    requires triable { Triable found.tight interface step }
    requires tells { Telling found.short found.tight }
    ensures short { result.short ≡ short_tried found.short interface step }
    ensures tight { result.tight ≡ tight_tried found.tight interface step }
    ensures tells { Telling result.short result.tight }
{
    let Step { at, before, demand } = step;
    if demand <= before {
        return found;
    }
    let units = units_at(interface, at);
    let here = Tight { at, units, demand };
    if let Some(best) = found.tight {
        if stays_tightest(best, here) {
            return found;
        }
    }
    Scanned {
        short: sooner_short(found.short, here),
        tight: Some(here),
    }
}

// The first short instant and the tightest step instant from 1 to `length`.
pub(crate) fn scan(tasks: &[Task], interface: Interface, length: Time) -> Scanned
    requires { Scannable tasks.now interface length.0 }
    ensures short { result.short ≡ short_on tasks.now interface length.0 }
    ensures tight { result.tight ≡ tight_on tasks.now interface length.0 }
{
    let mut steps = Steps::new(tasks);
    let mut found = Scanned {
        short: None,
        tight: None,
    };
    // No index is counted: each step says which instant is the next.
    while steps.at <= length.0 {
        let step = steps.pass();
        found = try_instant(found, interface, step);
    }
    found
}
