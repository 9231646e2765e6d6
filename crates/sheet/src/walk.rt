// The walk over a sheet's components and tasks: how it ends, and what it notes of the components that it passes.
ghost use Rattle.std.specs.Prelude.{◌≡◌, ◌≤◌, length};
ghost use Rattle.sheet.specs.Answered.{state_in, step_in};
ghost use Rattle.sheet.specs.Judging.{judged};
ghost use Rattle.sheet.specs.Walk.{step};
ghost use Rattle.sheet.specs.inner.Noted.{Walks};

use crate::fault::Fault;
use crate::judging::{State, judge, opened};
use budget::refusal::Refusal;
use record::layout::record_of;

// What the pairs are judged by of a component: one more than its number, as the state has it that is noted here, and its tasks, each child so far counted as
// one.
#[derive(Clone, Copy)]
pub(crate) struct Noted {
    pub lowest: u32,
    pub tasks: u32,
}

// Where the walk ends, and of each count of components the place that it held last and what it noted; 0 behind the last count. With one
// row of states in place of the two, finding a sheet's contents took five times as long (measured).
#[derive(Clone, Copy)]
pub(crate) struct Walked {
    pub state: State,
    pub edges: [usize; 257],
    pub components: [Noted; 257],
}

// The record that begins where the walk stands, against the state so far.
fn step(sheet: &[u8], state: State) -> Result<Option<State>, Refusal>
    requires { (state.place ≤ length sheet.now) × (length sheet.now ≤ 65_536) }
    ensures { step_in state result ≡ step judged sheet.now (state_in state) }
{
    let record = record_of(&sheet[state.place..])?;
    judge(state, record)
}

// Walks from the first record on to the last task, and notes what each count of components was held with last. The pairs have a step and a loop of their own:
// they change what is noted here, and one loop over both kinds of state would take closures whose contracts say what these functions say.
pub(crate) fn walk(sheet: &[u8]) -> Result<Walked, Fault>
    ensures { Walks sheet.now result }
{
    let mut state = opened(sheet.len())?;
    let mut edges = [0; 257];
    let mut components = [Noted {
        lowest: 0,
        tasks: 0,
    }; 257];
    while let Some(next) = step(sheet, state).map_err(|refusal| Fault {
        refusal,
        place: state.place,
    })? {
        edges[next.count] = next.place;
        components[next.count] = Noted {
            lowest: next.lowest,
            tasks: next.tasks,
        };
        state = next;
    }
    Ok(Walked {
        state,
        edges,
        components,
    })
}
