// Adding a task to a component, and removing one (RULES 11). The common period goes along: adding takes one common multiple with the stored value,
// removing works it out afresh. Component and task, or component and place, go together as the operations' own arguments.
ghost use Rattle.std.specs.Prelude.{◌≡◌, ◌++◌, ◌+◌, ◌≤◌, ◌<◌, length};
ghost use Rattle.budget.specs.Common.{common_of};
ghost use Rattle.budget.specs.Component.{Right, with_tasks};
ghost use Rattle.budget.specs.Edit.{added, adding_answer, edited_in, removing_answer};
ghost use Rattle.budget.specs.Limits.{most_tasks};
ghost use Rattle.budget.specs.Refusal.{number_in};
ghost use Rattle.budget.specs.inner.Edits.{adding_ranges, removed_answer};
ghost use Rattle.budget.specs.Task.{tasks_of, table_of};

use crate::common::{Common, common_of, grow};
use crate::component::{Component, check_held, check_ranges, is_right};
use crate::refusal::Refusal;
use crate::task::{Table, Task, append, check_task, no_tasks};

// The tasks of a table with these after them, and zero from there on.
pub(crate) fn append_all(table: Table, tasks: &[Task]) -> Table
    requires returned { table ≡ table_of (tasks_of table) }
    requires room { table.count + length tasks.now ≤ most_tasks }
    ensures { result ≡ table_of (tasks_of table ++ tasks.now) }
{
    let count = table.count;
    let end = count + tasks.len();
    let mut longer = table;
    longer.tasks[count..end].copy_from_slice(tasks);
    longer.count = end;
    longer
}

// The table of these tasks, and zero from there on.
pub(crate) fn table_from(tasks: &[Task]) -> Table
    requires { length tasks.now ≤ most_tasks }
    ensures { result ≡ table_of tasks.now }
{
    append_all(no_tasks(), tasks)
}

// The component with these tasks and their common period.
#[tactic(auto, unfolding(crate::specs::Component::with_tasks))]
pub(crate) fn with_table(component: Component, common: Common, table: Table) -> Component
    requires returned { table ≡ table_of (tasks_of table) }
    requires right { common ≡ common_of component.period.0 (tasks_of table) }
    ensures { result ≡ with_tasks component (tasks_of table) }
{
    Component {
        common,
        table,
        ..component
    }
}

// The refusals of adding that stand before that of the stored value: 6, then 9.
pub(crate) fn check_adding(component: Component, task: Task) -> Result<(), Refusal>
    ensures { number_in result ≡ adding_ranges component task }
{
    if Table::MOST <= component.table.count {
        return Err(Refusal::Tasks);
    }
    check_ranges(component)?;
    check_task(task)
}

// The component with a task more, behind the others, where there is room and the stored value is right.
pub(crate) fn added(component: Component, task: Task) -> Component
    requires { (component.table.count < most_tasks) × Right component }
    ensures { result ≡ with_tasks component (added (tasks_of component.table) task) }
{
    let stood = table_from(component.table.tasks());
    let grown = grow(component.common, task.period);
    with_table(component, grown, append(stood, task))
}

// The component with a task more, behind the others.
pub fn add_task(component: Component, task: Task) -> Result<Component, Refusal>
    ensures { edited_in result ≡ adding_answer component task }
{
    check_adding(component, task)?;
    if is_right(component) {
        return Ok(added(component, task));
    }
    Err(Refusal::Common)
}

// The component without the task at a place, where its table is in range; the tasks behind it close the gap.
pub(crate) fn removed_at(component: Component, place: usize) -> Result<Component, Refusal>
    requires { component.table.count ≤ most_tasks }
    ensures { edited_in result ≡ removed_answer component place }
{
    let tasks = component.table.tasks();
    if tasks.len() <= place {
        return Err(Refusal::Place);
    }
    let before = table_from(&tasks[..place]);
    let left = append_all(before, &tasks[place + 1..]);
    let common = common_of(component.period, left);
    Ok(with_table(component, common, left))
}

// The component without the task at a place.
pub fn remove_task(component: Component, place: usize) -> Result<Component, Refusal>
    ensures { edited_in result ≡ removing_answer component place }
{
    check_held(component)?;
    removed_at(component, place)
}
