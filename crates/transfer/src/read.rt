// Reading a component: by its place among the components, from its part alone, or between edges that are known.
ghost use Rattle.std.specs.Prelude.{◌≡◌, ◌≤◌, length, drop};
ghost use Rattle.budget.specs.Common.{common_of};
ghost use Rattle.budget.specs.Component.{refused};
ghost use Rattle.budget.specs.Task.{table_of, tasks_of};
ghost use Rattle.record.specs.Layout.{record_of};
ghost use Rattle.transfer.specs.ReadAt.{part_at, read_at};
ghost use Rattle.transfer.specs.Reading.{tasks_in, component_from, reading, reading_in};

use budget::common::common_of;
use budget::component::{Component, refused};
use budget::known::Known;
use budget::task::{Table, append, no_tasks};
use record::layout::{Head, Record, record_of};
use record::write::size_of;
use sheet::check::MOST_COMPONENTS;
use sheet::fault::Fault;
use sheet::part::locate;

// The tasks of a component, from behind its record on. (`read_pairs` goes through records likewise: each puts what it reads into a type of its own, and a
// closure for it would bring the invariant in as an argument.)
fn read_tasks(part: &[u8], start: usize) -> Table
    requires { start ≤ length part.now }
    ensures { result ≡ table_of (tasks_in 64 (drop start part.now)) }
{
    let mut table = no_tasks();
    let mut place = start;
    for _read in 0..Table::MOST {
        let Ok(record) = record_of(&part[place..]) else {
            break;
        };
        let Record::Task { task, .. } = record else {
            break;
        };
        table = append(table, task);
        place += size_of(Some(record));
    }
    table
}

// The component of a record and a table. No record holds its common period: that is worked out here, once. (No `From`: its types are of crates below.)
fn with_head(head: Head, table: Table) -> Known
    ensures { result.component ≡ record { number = head.number; period = head.period; capacity = head.capacity; deadline = head.deadline; common = common_of head.period.0 (tasks_of table); table = table } }
{
    let Head {
        number,
        period,
        capacity,
        deadline,
    } = head;
    Known {
        component: Component {
            number,
            period,
            capacity,
            deadline,
            common: common_of(period, table),
            table,
        },
    }
}

// What stands for a component that isn't read: the stand-in that RULES 11 names, as a component that stores its own common period.
fn none_read() -> Known
    ensures { result.component ≡ refused }
{
    Known {
        component: refused(),
    }
}

// Reads the component of a part: its record, then the task records behind it. A part that does not begin with a component record
// is read as the component of a refused reading.
#[tactic(auto, unfolding(crate::specs::Reading::component_from, crate::specs::Reading::with_head))]
pub fn read_part(part: &[u8]) -> Known
    ensures { result.component ≡ component_from part.now (record_of part.now) }
{
    match record_of(part) {
        Ok(Record::Component(head)) => {
            let size = size_of(Some(Record::Component(head)));
            with_head(head, read_tasks(part, size))
        }
        _ => none_read(),
    }
}

// Reads the component at a place of a sheet: the sheet's refusal, then 15 where none stands there.
pub fn read_component(sheet: &[u8], place: usize) -> Result<Known, Fault>
    ensures { reading_in result ≡ reading sheet.now place }
{
    let found = locate(sheet, place)?;
    Ok(read_part(&sheet[found.span.from..found.span.to]))
}

// The part of a sheet between two edges that are known, without another walk. Edges that do not lie in the sheet in their order hold
// an empty one: a part that can't be answered is empty (RULES 11).
pub fn part_at<'a>(sheet: &'a [u8], edges: &[usize; 257], place: usize) -> &'a [u8]
    ensures { result.now ≡ part_at sheet.now edges.now place }
{
    if MOST_COMPONENTS <= place {
        return &[];
    }
    let from = edges[place];
    let to = edges[place + 1];
    sheet.get(from..to).unwrap_or(&[])
}

// Reads the component at a place of a sheet whose edges are known.
#[tactic(auto, unfolding(crate::specs::ReadAt::read_at))]
pub fn read_at(sheet: &[u8], edges: &[usize; 257], place: usize) -> Known
    ensures { result.component ≡ read_at sheet.now edges.now place }
{
    read_part(part_at(sheet, edges, place))
}

// The component that was read; a refused answer has the stand-in (RULES 11).
pub fn answered_component(answer: Result<Known, Fault>) -> Known
    ensures { result.component ≡ (reading_in answer).component }
{
    answer.unwrap_or(none_read())
}
