// One slot of the run: which job is served, and which is late.
ghost use Rattle.std.specs.Prelude.{ℕ, ◌+◌, ◌≤◌, ◌<◌, ◌&&◌, ◌||◌, List, ◌≡◌, IfSome, unwrap_or, length, get_or};
ghost use Rattle.budget.specs.declared.task.Task.{Task};
ghost use Rattle.budget.specs.Limits.{most_tasks};
ghost use Rattle.run.specs.inner.Columns.{Deadlines, jobs_in};
ghost use Rattle.run.specs.inner.Scan.{Slotted, idle_of, served_of};
ghost use Rattle.run.specs.Order.{next};
ghost use Rattle.run.specs.Walk.{late_task};

use crate::jobs::Aligned;

// What one slot gives: nothing, a unit served, or a unit idle.
#[derive(Clone, Copy, PartialEq, Eq)]
pub(crate) enum Given {
    Nothing,
    Served,
    Idle,
}

// The jobs of a run with the deadline of each, and each task's number below the most tasks. The work left is lent for writing and so no field: that it is as
// long, and of which tasks these are the deadlines, stands in the contracts.
#[derive(Clone, Copy)]
pub(crate) struct Timed<'a> {
    pub aligned: Aligned<'a>,
    pub due: &'a [u32],
    ghost long: { length due.now ≡ length aligned.jobs.tasks.now },
    ghost numbered: { (k : ℕ) → k < length aligned.jobs.tasks.now → get_or aligned.jobs.tasks.now k 0 < most_tasks },
}

impl Timed<'_> {
    // The place of the job that a supplied slot n serves: of those that wait the one with the earliest deadline, and of equal ones that of the lower task.
    fn choose(&self, left: &[u32], n: u32) -> Option<usize>
        requires { length left.now ≡ length self.now.due.now }
        ensures value { (ks : List Task) → Deadlines ks (jobs_in self.now.aligned.jobs) self.now.due.now → unwrap_or result (length left.now) ≡ next ks n (jobs_in self.now.aligned.jobs) left.now }
        ensures waiting { IfSome result (λ p. (p < length left.now) × (0 < get_or left.now p 0)) }
    {
        // By place, since the columns and the work left are read together there.
        (0..left.len())
            .filter(|&i| self.aligned.jobs.ready[i] <= n && 0 < left[i])
            .map(|i| (self.due[i], self.aligned.jobs.tasks[i], i))
            .min()
            .map(|(_, _, i)| i)
    }

    // The lowest task number of the jobs late at instant t.
    pub(crate) fn late_task(&self, left: &[u32], t: u32) -> Option<u32>
        requires { length left.now ≡ length self.now.due.now }
        ensures value { (ks : List Task) → Deadlines ks (jobs_in self.now.aligned.jobs) self.now.due.now → unwrap_or result most_tasks ≡ late_task ks t (jobs_in self.now.aligned.jobs) left.now }
        ensures numbered { IfSome result (λ k. k < most_tasks) }
    {
        // By place, since the columns and the work left are read together there.
        (0..left.len())
            .filter(|&i| self.due[i] == t && 0 < left[i])
            .map(|i| self.aligned.jobs.tasks[i])
            .min()
    }

    // Slot n with its trace byte: the work left after it, and what it gave.
    pub(crate) fn serve(&self, byte: u8, n: u32, left: &mut [u32]) -> Given
        requires { length left.old ≡ length self.now.due.now }
        ensures { (ks : List Task) → Deadlines ks (jobs_in self.now.aligned.jobs) self.now.due.now → Slotted ks (jobs_in self.now.aligned.jobs) n byte left.old left.new (served_of result) (idle_of result) }
    {
        if byte == 0 {
            return Given::Nothing;
        }
        match self.choose(left, n) {
            Some(place) => {
                left[place] -= 1;
                Given::Served
            }
            None => Given::Idle,
        }
    }
}
