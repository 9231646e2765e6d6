// Demand of a task table at an instant (RULES 4).
ghost use Rattle.std.specs.Prelude.{◌≡◌, true, ◌*◌, ◌≤◌, length};
ghost use Rattle.budget.specs.Answered.{amount_in};
ghost use Rattle.budget.specs.Demand as Demand;
ghost use Rattle.budget.specs.Limits.{limit, most_tasks};
ghost use Rattle.budget.specs.Task.{C, valid_task, valid_tasks};

use crate::quantity::{Time, Units, check_instant};
use crate::refusal::Refusal;
use crate::task::{Table, Task, check_table, span};

// The units of a task's jobs that fall due by `at`, where each is ready as late as it may be. Before the first deadline there are none.
// The bounds stay in the contracts: t is the operation's own argument, and a type for an instant in range would ask every caller to make one.
#[tactic(auto, unfolding(crate::specs::Demand::jobs_by))]
fn units_of(task: Task, at: u32) -> u32
    requires { (valid_task task ≡ true) × (at ≤ limit) }
    ensures { result ≡ Demand.jobs_by task at * C task }
{
    let period = task.period.0;
    let work = task.work.0;
    let first = span(task);
    if at < first {
        return 0;
    }
    ((at - first) / period + 1) * work
}

// The units of all tasks' jobs that fall due by `at`.
fn units_due(tasks: &[Task], at: u32) -> u32
    requires { (length tasks.now ≤ most_tasks) × (valid_tasks tasks.now ≡ true) × (at ≤ limit) }
    ensures { result ≡ Demand.demand tasks.now at }
{
    let mut units = 0;
    for task in tasks {
        units += units_of(*task, at);
    }
    units
}

// Demand of a task table at t.
pub fn demand(table: Table, t: Time) -> Result<Units, Refusal>
    ensures { amount_in result ≡ Demand.demand_answer table t.0 }
{
    check_instant(check_table(table), t)?;
    Ok(Units(units_due(table.tasks(), t.0)))
}
