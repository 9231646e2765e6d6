// The part of a sheet in which one component stands, counted from 0 among the components.
ghost use Rattle.std.specs.Prelude.{◌≡◌};
ghost use Rattle.sheet.specs.Answered.{checked_in, located_in};
ghost use Rattle.sheet.specs.Part.{part_check, located, part_of};

use crate::contents::contents_of;
use crate::fault::Fault;
use budget::refusal::Refusal;

// Where the records of one component lie: from its own record to its last task's end.
#[derive(Clone, Copy, PartialEq, Eq)]
pub struct Span {
    pub from: usize,
    pub to: usize,
}

// How many components the sheet has, and where the one at a place lies.
#[derive(Clone, Copy, PartialEq, Eq)]
pub struct Located {
    pub count: usize,
    pub span: Span,
}

// One walk over the sheet: its refusal, then 15 where no component stands at that place, and where the component lies.
pub fn locate(sheet: &[u8], place: usize) -> Result<Located, Fault>
    ensures { located_in result ≡ located sheet.now place }
{
    let found = contents_of(sheet)?;
    if found.count <= place {
        return Err(Fault {
            refusal: Refusal::Place,
            place: 0,
        });
    }
    Ok(Located {
        count: found.count,
        span: Span {
            from: found.edges[place],
            to: found.edges[place + 1],
        },
    })
}

// The count of components of a sheet that has one at that place, or the refusal of handing back its part with the byte where a record began.
#[tactic(auto, unfolding(crate::specs::Part::located))]
pub fn check_part(sheet: &[u8], place: usize) -> Result<usize, Fault>
    ensures { checked_in result ≡ part_check sheet.now place }
{
    let found = locate(sheet, place)?;
    Ok(found.count)
}

// The part of the caller's sheet from the component's record to its last task; empty where refused.
pub fn component_part(sheet: &[u8], place: usize) -> &[u8]
    ensures { result.now ≡ part_of sheet.now place }
{
    match locate(sheet, place) {
        Ok(found) => &sheet[found.span.from..found.span.to],
        Err(_) => &[],
    }
}
