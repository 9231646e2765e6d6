// The step instants of a task table, where demand rises: from one to the next without a division, each task's next deadline carried beside it.
ghost use Rattle.std.specs.Prelude.{◌≡◌, ◌≤◌, length};
ghost use Rattle.budget.specs.Limits.{most_tasks};
ghost use Rattle.judge.specs.inner.Steps.{Begun, Stepped, Steppable};

use budget::quantity::Time;
use budget::task::{Task, span};

// One instant passed: the demand before it and by then.
#[derive(Clone, Copy)]
pub struct Step {
    pub at: u32,
    pub before: u32,
    pub demand: u32,
}

// A walk over the step instants of some tasks: the period, work and next deadline of each, the instant to be passed next and the demand before it. Three
// rows: over one row of structs, or the tasks with their deadlines beside them, judging 15 tasks took 1.9 and 1.3 times as long (measured). Memory is fixed,
// so each row has room for the most tasks, and `count` says how many there are.
#[derive(Drop)]
pub struct Steps {
    pub count: usize,
    pub period: [u32; 64],
    pub work: [u32; 64],
    pub due: [u32; 64],
    pub at: u32,
    pub demand: u32,
}

impl Steps {
    // A walk over these tasks from instant 1 on: with every job ready as late as it may be, a task's first deadline is its next.
    pub(crate) fn new(tasks: &[Task]) -> Steps
        requires { length tasks.now ≤ most_tasks }
        ensures { Begun tasks.now result }
    {
        let mut period = [0u32; 64];
        let mut work = [0u32; 64];
        let mut due = [0u32; 64];
        for (i, task) in tasks.iter().enumerate() {
            period[i] = task.period.0;
            work[i] = task.work.0;
            due[i] = span(*task);
        }
        Steps {
            count: tasks.len(),
            period,
            work,
            due,
            at: 1,
            demand: 0,
        }
    }

    // The demand rises by the work of each task that is due at this instant; such a task's next deadline is a period later.
    pub(crate) fn pass(&mut self) -> Step
        requires { Steppable self.old }
        ensures { Stepped self.old self.new result }
    {
        let at = self.at;
        let before = self.demand;
        let mut demand = before;
        // Above every instant that is taken, so that the least of no deadlines lies past the last one.
        let mut next = Time::LIMIT + 1;
        // By place and not by an iterator over a row or over pairs, which was slower (measured).
        for i in 0..self.count {
            let mut due = self.due[i];
            if due == at {
                due += self.period[i];
                self.due[i] = due;
                demand += self.work[i];
            }
            next = next.min(due);
        }
        self.at = next;
        self.demand = demand;
        Step { at, before, demand }
    }
}
