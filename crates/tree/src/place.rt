// One component of a sheet in its tree, chosen by its place: what is below it is judged, and nothing else (RULES 7, 11).
ghost use Rattle.std.specs.Prelude.{◌≡◌};
ghost use Rattle.tree.specs.Tree.{loaded_in, loading, placed_in, placing};
ghost use Rattle.tree.specs.Workload.{load_in};

pub use crate::answer::Placed;
use crate::below::load_below;
use crate::outcome::outcome_of;
use crate::turn::Pass;
use budget::known::Known;
use budget::refusal::Refusal;
use sheet::contents::contents_of;
use sheet::fault::Fault;
use transfer::pair::read_pairs;
use transfer::read::{answered_component, read_at};

// The number of the component at a place, and the component with its whole workload as its tasks, or none where it waits for a child.
#[derive(Clone, Copy)]
pub struct Loaded {
    pub number: u16,
    pub workload: Option<Known>,
}

// The component at a place with its workload: the sheet's refusal with its byte, then 15. The sheet is walked once.
pub fn load_place(sheet: &[u8], place: usize) -> Result<Loaded, Fault>
    ensures { loaded_in result ≡ loading sheet.now place }
{
    let found = contents_of(sheet)?;
    if found.count <= place {
        return Err(Fault {
            refusal: Refusal::Place,
            place: 0,
        });
    }
    // The passes of the host and of the listing begin alike: a constructor of one, which is lent the pairs that are read here, would be no shorter.
    let from = found.edges[found.count];
    let pairs = read_pairs(&sheet[from..]);
    let pass = Pass {
        sheet,
        edges: &found.edges,
        pairs: pairs.as_slice(),
    };
    let known = read_at(sheet, &found.edges, place);
    Ok(Loaded {
        number: known.component.number,
        workload: load_below(pass, place, known),
    })
}

// The component at a place, judged.
pub fn judge_place(sheet: &[u8], place: usize) -> Result<Placed, Fault>
    ensures { placed_in result ≡ placing sheet.now place }
{
    let found = load_place(sheet, place)?;
    Ok(Placed {
        number: found.number,
        outcome: outcome_of(found.workload),
    })
}

// The component with its whole workload, or none where it waits; a refused answer has the stand-in (RULES 11).
pub fn answered_workload(answer: Result<Loaded, Fault>) -> Option<Known>
    ensures { load_in result ≡ (loaded_in answer).load }
{
    match answer {
        Ok(loaded) => loaded.workload,
        Err(fault) => Some(answered_component(Err(fault))),
    }
}
