// A sheet's contents in one answer: its count of components, and the edges between them, at the last of which its pairs begin.
ghost use Rattle.std.specs.Prelude.{◌≡◌};
ghost use Rattle.sheet.specs.Answered.{contents_in};
ghost use Rattle.sheet.specs.Contents.{contents_of};

use crate::check::answer;
use crate::fault::Fault;
use crate::walk::walk;

// The component at place k lies from edge k to edge k + 1; the places behind the last edge are 0. There is a place for each edge that a
// sheet can have, since nothing here allocates.
#[derive(Clone, Copy)]
pub struct Contents {
    pub count: usize,
    pub edges: [usize; 257],
}

// Judges a sheet and finds all its components.
#[tactic(auto, using(crate::proofs::RegisterLaws::refused_answer, crate::proofs::RegisterLaws::refused_contents))]
pub fn contents_of(sheet: &[u8]) -> Result<Contents, Fault>
    ensures { contents_in result ≡ contents_of sheet.now }
{
    let found = walk(sheet)?;
    let count = answer(sheet, &found)?;
    Ok(Contents {
        count,
        edges: found.edges,
    })
}
