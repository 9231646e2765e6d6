// The walk (RULES 9): a run of jobs on a trace, slot by slot, as far as the first miss or the end of the trace.
ghost use Rattle.std.specs.Prelude.{◌≤◌, List, ◌≡◌, Ok, length};
ghost use Rattle.budget.specs.declared.task.Task.{Task};
ghost use Rattle.budget.specs.Refusal.{none, number_in};
ghost use Rattle.run.specs.inner.Columns.{Deadlines, Works, jobs_in};
ghost use Rattle.run.specs.Run.{left_at};
ghost use Rattle.run.specs.Walk.{late_task, miss_of, stop, walked_to, walk_refusal, walk_answer, left_after};
ghost use Rattle.run.specs.Walked.{miss_in, walked_in};

use crate::jobs::{Aligned, Jobs, MOST};
use crate::scan::{Given, Timed};
use budget::quantity::{Time, Units};
use budget::refusal::Refusal;
use budget::task::{Table, check_table};
use trace::legal::{LONGEST, zeros_and_ones};

// The first miss: its instant and its task's number.
#[derive(Clone, Copy, PartialEq, Eq)]
pub struct Miss {
    pub at: Time,
    pub task: u32,
}

// What the walk answers.
#[derive(Clone, Copy, PartialEq, Eq)]
pub struct Walked {
    pub miss: Option<Miss>,
    pub served: Units,
    pub idle: Units,
}

// The miss at instant t, by the lowest late task.
#[tactic(auto, unfolding(crate::specs::Walk::miss_of))]
fn miss_at(timed: &Timed, left: &[u32], t: u32) -> Option<Miss>
    requires { length left.now ≡ length timed.now.due.now }
    ensures { (ks : List Task) → Deadlines ks (jobs_in timed.now.aligned.jobs) timed.now.due.now → miss_in result ≡ miss_of t (late_task ks t (jobs_in timed.now.aligned.jobs) left.now) }
{
    timed
        .late_task(left, t)
        .map(|task| Miss { at: Time(t), task })
}

// The walk over the slots. The work left is each job's whole work at first, and its work left at the stop at last.
fn walk_slots(timed: &Timed, trace: &[u8], left: &mut [u32]) -> Walked
    requires { (length left.old ≡ length timed.now.due.now) × (length trace.now ≤ 65536) }
    ensures { (ks : List Task) → let js = jobs_in timed.now.aligned.jobs in Deadlines ks js timed.now.due.now → Works js left.old → (walked_in (Ok result) ≡ walked_to ks js trace.now (stop ks js trace.now)) × (left.new ≡ left_at ks js trace.now (stop ks js trace.now)) }
{
    let mut served = 0;
    let mut idle = 0;
    for (t, &byte) in trace.iter().enumerate() {
        let miss = miss_at(timed, left, t as u32);
        if miss.is_some() {
            return Walked {
                miss,
                served: Units(served),
                idle: Units(idle),
            };
        }
        match timed.serve(byte, t as u32, left) {
            Given::Nothing => {}
            Given::Served => served += 1,
            Given::Idle => idle += 1,
        }
    }
    Walked {
        miss: miss_at(timed, left, trace.len() as u32),
        served: Units(served),
        idle: Units(idle),
    }
}

// The walk of what is accepted: each deadline once, the whole work as the work left, then slot by slot.
fn walk_accepted(table: &Table, jobs: &Jobs, trace: &[u8], left: &mut [u32]) -> Walked
    requires { walk_refusal table.now jobs.now.tasks.now jobs.now.releases.now jobs.now.ready.now jobs.now.works.now trace.now (length left.old) ≡ none }
    ensures value { walked_in (Ok result) ≡ walk_answer table.now jobs.now.tasks.now jobs.now.releases.now jobs.now.ready.now jobs.now.works.now trace.now (length left.old) }
    ensures leaves { left.new ≡ left_after table.now jobs.now.tasks.now jobs.now.releases.now jobs.now.ready.now jobs.now.works.now trace.now left.old }
{
    let aligned = Aligned { jobs: *jobs };
    let mut room = [0u32; MOST];
    let due = &mut room[..jobs.tasks.len()];
    aligned.deadlines(table.tasks(), due);
    left.copy_from_slice(jobs.works);
    walk_slots(&Timed { aligned, due }, trace, left)
}

// The refusal of a walk: the table's, then that of the jobs, of the trace, and of the room for the work left.
#[tactic(auto, unfolding(crate::specs::Walk::walk_refusal, crate::specs::Walk::valid_trace))]
fn check_walk(table: &Table, jobs: &Jobs, trace: &[u8], room: usize) -> Result<(), Refusal>
    ensures { number_in result ≡ walk_refusal table.now jobs.now.tasks.now jobs.now.releases.now jobs.now.ready.now jobs.now.works.now trace.now room }
{
    check_table(*table)?;
    if !jobs.is_valid(table.tasks(), trace.len()) {
        return Err(Refusal::Jobs);
    }
    if LONGEST < trace.len() || !zeros_and_ones(trace) {
        return Err(Refusal::Trace);
    }
    if room != jobs.tasks.len() {
        return Err(Refusal::Room);
    }
    Ok(())
}

// The walk of a task table, jobs and a trace: the first miss, the units served and idle up to the stop, and each job's work left there.
#[tactic(auto, unfolding(crate::specs::Walk::walk_answer, crate::specs::Walk::left_after, crate::specs::Walk::refused_walk))]
pub fn walk(table: Table, jobs: Jobs, trace: &[u8], left: &mut [u32]) -> Result<Walked, Refusal>
    ensures value { walked_in result ≡ walk_answer table jobs.entry.tasks.now jobs.entry.releases.now jobs.entry.ready.now jobs.entry.works.now trace.now (length left.old) }
    ensures leaves { left.new ≡ left_after table jobs.entry.tasks.now jobs.entry.releases.now jobs.entry.ready.now jobs.entry.works.now trace.now left.old }
{
    check_walk(&table, &jobs, trace, left.len())?;
    Ok(walk_accepted(&table, &jobs, trace, left))
}

// The miss, the units served and the units idle; a refused answer has no miss, and 0 of either (RULES 11).
pub fn answered_walk(answer: Result<Walked, Refusal>) -> Walked
    ensures miss { miss_in result.miss ≡ (walked_in answer).miss }
    ensures served { result.served ≡ (walked_in answer).served }
    ensures idle { result.idle ≡ (walked_in answer).idle }
{
    answer.unwrap_or(Walked {
        miss: None,
        served: Units(0),
        idle: Units(0),
    })
}
