// A task and a table of tasks (RULES 2), and their refusals.
ghost use Rattle.std.specs.Prelude.{◌≡◌, cond, []};
ghost use Rattle.budget.specs.Refusal as refusal;
ghost use Rattle.budget.specs.Refusal.{number_in};
ghost use Rattle.budget.specs.Task.{span, task_refusal, table_refusal, tasks_of, table_of, appended, valid_tasks};

use crate::quantity::{Time, Units};
use crate::refusal::Refusal;

// A sporadic task: period T, work C, deadline D, lateness J. A job may become ready up to J slots after its release, and its
// deadline counts from its release all the same.
#[derive(Clone, Copy, PartialEq, Eq)]
pub struct Task {
    pub period: Time,
    pub work: Units,
    pub deadline: Time,
    pub lateness: Time,
}

impl Task {
    // The task (0, 0, 0, 0), which fills the places that hold none.
    pub const NONE: Task = Task {
        period: Time(0),
        work: Units(0),
        deadline: Time(0),
        lateness: Time(0),
    };
}

// A task table: the tasks are the first `count` places; nothing reads the places behind them. The count stands beside the places because memory is
// fixed, and a table may say more tasks than it has places for: that is refused with 6 (`table_refusal`).
#[derive(Clone, Copy)]
pub struct Table {
    pub count: usize,
    pub tasks: [Task; 64],
}

impl Table {
    // The most tasks that a table has.
    pub const MOST: usize = 64;

    // The tasks of a table.
    pub fn tasks(&self) -> &[Task]
        ensures { result.now ≡ tasks_of self.now }
    {
        let count = self.count.min(Table::MOST);
        &self.tasks[..count]
    }
}

// The refusal of a task: 1 ≤ C ≤ D ≤ T ≤ the limit and J ≤ D − C, or 9.
#[tactic(auto, unfolding(crate::specs::Task::task_refusal, crate::specs::Task::valid_task))]
pub fn check_task(task: Task) -> Result<(), Refusal>
    ensures { number_in result ≡ task_refusal task }
{
    let period = task.period.0;
    let work = task.work.0;
    let deadline = task.deadline.0;
    let lateness = task.lateness.0;
    if work < 1 {
        return Err(Refusal::Range);
    }
    if deadline < work {
        return Err(Refusal::Range);
    }
    if period < deadline {
        return Err(Refusal::Range);
    }
    if Time::LIMIT < period {
        return Err(Refusal::Range);
    }
    if deadline - work < lateness {
        return Err(Refusal::Range);
    }
    Ok(())
}

// The slots from the latest readiness of a job to its deadline: D − J, or 0 in a place that holds no task and may hold anything.
pub fn span(task: Task) -> u32
    ensures { result ≡ span task }
{
    task.deadline.0.saturating_sub(task.lateness.0)
}

// The refusal of tasks: one of them out of range is 9.
fn check_tasks(tasks: &[Task]) -> Result<(), Refusal>
    ensures { number_in result ≡ cond (valid_tasks tasks.now) refusal.none refusal.range }
{
    for task in tasks {
        check_task(*task)?;
    }
    Ok(())
}

// The refusal of a table: more than 64 tasks are 6, then a task out of range is 9.
#[tactic(auto, unfolding(crate::specs::Task::table_refusal))]
pub fn check_table(table: Table) -> Result<(), Refusal>
    ensures { number_in result ≡ table_refusal table }
{
    if Table::MOST < table.count {
        return Err(Refusal::Tasks);
    }
    check_tasks(table.tasks())
}

// The table that has no tasks.
#[tactic(auto, unfolding(crate::specs::Task::table_of))]
pub fn no_tasks() -> Table
    ensures { result ≡ table_of [] }
{
    Table {
        count: 0,
        tasks: [Task::NONE; 64],
    }
}

// The table with one task more, behind the others; a full table stays as it is.
#[tactic(auto, unfolding(crate::specs::Task::appended))]
pub fn append(table: Table, task: Task) -> Table
    ensures { result ≡ appended table task }
{
    let count = table.count;
    if Table::MOST <= count {
        return table;
    }
    let mut longer = table;
    longer.tasks[count] = task;
    longer.count = count + 1;
    longer
}
