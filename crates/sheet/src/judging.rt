// How the records of components and tasks are judged, each against what was read before it: the bytes of the sheet are not in sight.
ghost use Rattle.std.specs.Prelude.{◌≡◌, ◌+◌, ◌≤◌};
ghost use Rattle.budget.specs.Refusal.{number_in};
ghost use Rattle.record.specs.Layout.{size_of};
ghost use Rattle.record.specs.Record.{said};
ghost use Rattle.sheet.specs.Judging.{opened, head_refusal, form_refusal, standing_refusal, judged};
ghost use Rattle.sheet.specs.Answered.{opened_in, state_in, step_in};

use crate::fault::Fault;
use budget::interface::{Interface, check_interface};
use budget::quantity::Time;
use budget::refusal::Refusal;
use budget::task::{Table, Task, check_task};
use record::layout::{Head, Record};
use record::write::size_of;

// Most bytes of a sheet, and most components.
pub const MOST_BYTES: usize = 65_536;

pub const MOST_COMPONENTS: usize = 256;

// Where a walk stands that goes on: the byte where the next record begins, the components so far, the lowest number that the next one
// may have, and the tasks of the last one so far.
#[derive(Clone, Copy, PartialEq, Eq)]
pub struct State {
    pub place: usize,
    pub count: usize,
    pub lowest: u32,
    pub tasks: u32,
}

// Before the first record: a sheet of too many bytes is refused as a whole.
#[tactic(auto, unfolding(crate::specs::Judging::opened, crate::specs::Judging::start, crate::specs::Judging::refuse))]
pub fn opened(bytes: usize) -> Result<State, Fault>
    ensures { opened_in result ≡ opened bytes }
{
    if MOST_BYTES < bytes {
        return Err(Fault {
            refusal: Refusal::Sheet,
            place: 0,
        });
    }
    Ok(State {
        place: 0,
        count: 0,
        lowest: 0,
        tasks: 0,
    })
}

// The refusals of a component record; a capacity that is asked is judged as 0. (No `From` makes its interface: both types are of crates below.)
#[tactic(auto, unfolding(crate::specs::Judging::head_refusal))]
fn check_head(state: State, head: Head) -> Result<(), Refusal>
    ensures { number_in result ≡ head_refusal (state_in state) head }
{
    if MOST_COMPONENTS <= state.count {
        return Err(Refusal::Components);
    }
    if u32::from(head.number) < state.lowest {
        return Err(Refusal::Number);
    }
    check_interface(Interface {
        period: head.period,
        capacity: head.capacity.units(),
        deadline: head.deadline,
    })
}

// The ranges of a task record. A J of 0 belongs into the kind that does not state it, so that each task has one form.
#[tactic(auto, unfolding(crate::specs::Judging::form_refusal))]
fn check_form(task: Task, stated: bool) -> Result<(), Refusal>
    ensures { number_in result ≡ form_refusal task stated }
{
    if stated && task.lateness == Time(0) {
        return Err(Refusal::Range);
    }
    check_task(task)
}

// The refusals of a task record.
#[tactic(auto, unfolding(crate::specs::Judging::standing_refusal))]
fn check_standing(state: State, task: Task, stated: bool) -> Result<(), Refusal>
    ensures { number_in result ≡ standing_refusal (state_in state) task stated }
{
    if state.count == 0 {
        return Err(Refusal::NoComponent);
    }
    if Table::MOST <= state.tasks as usize {
        return Err(Refusal::Tasks);
    }
    check_form(task, stated)
}

// One record against the state so far: it is taken, or refused where it begins. A pair or the end record ends the components: no state
// follows.
#[tactic(auto, unfolding(crate::specs::Judging::judged, crate::specs::Judging::record_refusal, crate::specs::Judging::after, crate::specs::Judging::after_head, crate::specs::Judging::after_task))]
pub(crate) fn judge(state: State, record: Record) -> Result<Option<State>, Refusal>
    requires { state.place + size_of (said «record») ≤ 65_536 }
    ensures { step_in state result ≡ judged (state_in state) (said «record») }
{
    let place = state.place + size_of(Some(record));
    match record {
        Record::Component(head) => {
            check_head(state, head)?;
            Ok(Some(State {
                place,
                count: state.count + 1,
                lowest: u32::from(head.number) + 1,
                tasks: 0,
            }))
        }
        Record::Task { stated, task } => {
            check_standing(state, task, stated)?;
            Ok(Some(State {
                place,
                tasks: state.tasks + 1,
                ..state
            }))
        }
        Record::Pair(_) | Record::End(_) => Ok(None),
    }
}
