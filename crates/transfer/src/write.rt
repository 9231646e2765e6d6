// Writing a component's records, or the end's, at a place of a buffer (RULES 10, 11).
ghost use Rattle.std.specs.Prelude.{◌≡◌, ◌+◌, ◌≤◌, Ok, length, ltb};
ghost use Rattle.std.proofs.lemmas.List.Edits.{sets};
ghost use Rattle.budget.specs.Component.{held_refusal};
ghost use Rattle.budget.specs.Task.{J, tasks_of};
ghost use Rattle.record.specs.Layout.{end_bytes};
ghost use Rattle.record.specs.Record.{said, TaskRecord};
ghost use Rattle.record.specs.Writing.{written, written_in, buffered};
ghost use Rattle.transfer.specs.Writing.{tasks_bytes, component_bytes, writing_refusal, end_refusal};

use budget::component::{Component, check_held};
use budget::refusal::Refusal;
use budget::task::{Table, Task};
use record::layout::{Head, Record};
use record::write::{check_room, size_of, write_record};
use sheet::check::MOST_COMPONENTS;

// A task's record states its J exactly where that is not 0: the form that a sheet takes.
fn task_record(task: Task) -> Record
    ensures { said result ≡ TaskRecord (ltb 0 (J task)) task }
{
    Record::Task {
        stated: 0 < task.lateness.0,
        task,
    }
}

// How many bytes a table's task records have.
fn tasks_size(table: Table) -> usize
    requires { table.count ≤ 64 }
    ensures { result ≡ length (tasks_bytes (tasks_of table)) }
{
    let mut size = 0;
    for task in table.tasks() {
        size += size_of(Some(task_record(*task)));
    }
    size
}

fn write_tasks(buffer: &mut [u8], at: usize, table: Table) -> Result<usize, Refusal>
    requires { at + length (tasks_bytes (tasks_of table)) ≤ length buffer.old }
    ensures place { result ≡ Ok (at + length (tasks_bytes (tasks_of table))) }
    ensures bytes { buffer.new ≡ sets buffer.old at (tasks_bytes (tasks_of table)) }
{
    let mut place = at;
    for task in table.tasks() {
        place = write_record(buffer, place, Some(task_record(*task)))?;
    }
    Ok(place)
}

fn component_size(component: Component) -> usize
    requires { component.table.count ≤ 64 }
    ensures { result ≡ length (component_bytes component) }
{
    size_of(Some(Record::Component(Head::from(component)))) + tasks_size(component.table)
}

// Writes the records of a component that is not refused when it is handed in: without room for all of them none.
pub(crate) fn store(buffer: &mut [u8], at: usize, component: Component) -> Result<usize, Refusal>
    requires { held_refusal component ≡ 0 }
    ensures answer { written_in result ≡ written (writing_refusal (length buffer.old) at component) at (component_bytes component) }
    ensures bytes { buffer.new ≡ buffered (writing_refusal (length buffer.old) at component) buffer.old at (component_bytes component) }
{
    check_room(buffer.len(), at, component_size(component))?;
    let place = write_record(buffer, at, Some(Record::Component(Head::from(component))))?;
    write_tasks(buffer, place, component.table)
}

// Writes one component's records from a place on, and answers the place behind them.
pub fn write_component(buffer: &mut [u8], at: usize, component: Component) -> Result<usize, Refusal>
    ensures answer { written_in result ≡ written (writing_refusal (length buffer.old) at component) at (component_bytes component) }
    ensures bytes { buffer.new ≡ buffered (writing_refusal (length buffer.old) at component) buffer.old at (component_bytes component) }
{
    check_held(component)?;
    store(buffer, at, component)
}

// Writes the end record from a place on, and answers the place behind it.
#[tactic(auto, unfolding(crate::specs::Writing::end_refusal, record::specs::Writing::written, record::specs::Writing::buffered))]
pub fn write_end(buffer: &mut [u8], at: usize, count: usize) -> Result<usize, Refusal>
    ensures answer { written_in result ≡ written (end_refusal (length buffer.old) at count) at (end_bytes count) }
    ensures bytes { buffer.new ≡ buffered (end_refusal (length buffer.old) at count) buffer.old at (end_bytes count) }
{
    if MOST_COMPONENTS < count {
        return Err(Refusal::Range);
    }
    write_record(buffer, at, Some(Record::End(count as u16)))
}
