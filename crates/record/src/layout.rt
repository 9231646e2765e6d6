// The records of a sheet (RULES 10): each kind is a row of fields. Reading one judges its layout and none of its values.
ghost use Rattle.std.specs.Prelude.{◌≡◌};
ghost use Rattle.record.specs.Layout.{row_of, record_with, of_kind, record_of, task_of};
ghost use Rattle.record.specs.Record.{PairRecord, said, record_in};
ghost use Rattle.record.specs.inner.Fields.{head_kind, head_fields, fields_of, kind_of};
ghost use Rattle.record.specs.inner.Kinds.{kind_number};
ghost use Rattle.record.specs.inner.Narrow.{Held};

use crate::field::number_in;
use crate::kind::Kind;
use crate::row::Values;
use budget::component::{Capacity, Component};
use budget::quantity::{Time, Units};
use budget::refusal::Refusal;
use budget::task::Task;

// What a component record says: the component without its tasks.
#[derive(Clone, Copy)]
pub struct Head {
    pub number: u16,
    pub period: Time,
    pub capacity: Capacity,
    pub deadline: Time,
}

// What a pair record says: the number of a component, and that of the one it is inside.
#[derive(Clone, Copy)]
pub struct Pair {
    pub child: u16,
    pub parent: u16,
}

// A record. Of a task it is told whether its J is stated, as TaskRecord of specs/Record.antt has it. The flag is declared before the task: with
// the two in the other order the check of a sheet of tasks was slower by 15 to 24 in a hundred (measured).
#[derive(Clone, Copy)]
pub enum Record {
    Component(Head),
    Task { stated: bool, task: Task },
    Pair(Pair),
    End(u16),
}

// What a component's record says of it: all but its stored common period and its tasks.
impl From<Component> for Head {
    ghost from_gives = { λ component head. head ≡ record { number = component.number; period = component.period; capacity = component.capacity; deadline = component.deadline } };

    fn from(component: Component) -> Head {
        let Component {
            number,
            period,
            capacity,
            deadline,
            ..
        } = component;
        Head {
            number,
            period,
            capacity,
            deadline,
        }
    }
}

impl Head {
    fn kind(self) -> Kind
        ensures { kind_number result ≡ head_kind self.capacity }
    {
        match self.capacity {
            Capacity::Stated(_) => Kind::Stated,
            Capacity::Asked => Kind::Asked,
        }
    }

    fn fields(self) -> Values
        ensures { result ≡ head_fields self self.capacity }
    {
        let number = u32::from(self.number);
        let period = self.period.0;
        let deadline = self.deadline.0;
        match self.capacity {
            Capacity::Stated(units) => [0, 0, number, period, units.0, deadline, 0, 0],
            Capacity::Asked => [0, 0, number, period, deadline, 0, 0, 0],
        }
    }
}

impl Pair {
    fn fields(self) -> Values
        ensures { result ≡ fields_of (PairRecord self) }
    {
        let child = u32::from(self.child);
        let parent = u32::from(self.parent);
        [0, 0, child, parent, 0, 0, 0, 0]
    }
}

impl Record {
    pub(crate) fn kind(self) -> Kind
        ensures { kind_number result ≡ kind_of (said self) }
    {
        match self {
            Record::Component(head) => head.kind(),
            Record::Task { stated, .. } => if stated { Kind::Late } else { Kind::Task },
            Record::Pair(_) => Kind::Pair,
            Record::End(_) => Kind::End,
        }
    }

    // The values of its row, with 0 for its length and its kind.
    pub(crate) fn fields(self) -> Values
        ensures { result ≡ fields_of (said self) }
    {
        match self {
            Record::Component(head) => head.fields(),
            Record::Task { task, .. } => [
                0,
                0,
                task.period.0,
                task.work.0,
                task.deadline.0,
                task.lateness.0,
                0,
                0,
            ],
            Record::Pair(pair) => pair.fields(),
            Record::End(count) => [0, 0, u32::from(count), 0, 0, 0, 0, 0],
        }
    }
}

fn task_of(values: Values, late: u32) -> Task
    ensures { result ≡ task_of values late }
{
    Task {
        period: Time(values[2]),
        work: Units(values[3]),
        deadline: Time(values[4]),
        lateness: Time(late),
    }
}

// The record of a kind with these values.
#[tactic(auto, unfolding(crate::specs::Layout::row_of, crate::specs::Layout::record_with))]
fn record_with(kind: Kind, values: Values) -> Record
    requires { Held (row_of (kind_number kind)) values }
    ensures { said result ≡ record_with (kind_number kind) values }
{
    match kind {
        Kind::Stated => Record::Component(Head {
            number: values[2] as u16,
            period: Time(values[3]),
            capacity: Capacity::Stated(Units(values[4])),
            deadline: Time(values[5]),
        }),
        Kind::Task => Record::Task {
            stated: false,
            task: task_of(values, 0),
        },
        Kind::End => Record::End(values[2] as u16),
        Kind::Asked => Record::Component(Head {
            number: values[2] as u16,
            period: Time(values[3]),
            capacity: Capacity::Asked,
            deadline: Time(values[4]),
        }),
        Kind::Late => Record::Task {
            stated: true,
            task: task_of(values, values[5]),
        },
        Kind::Pair => Record::Pair(Pair {
            child: values[2] as u16,
            parent: values[3] as u16,
        }),
    }
}

// The record of a kind. Nothing else calls values_at: a second caller keeps the compiler from building it in here, and halves the
// speed of reading (measured over a whole sheet).
fn of_kind(rest: &[u8], kind: Kind, size: usize) -> Result<Record, Refusal>
    ensures { record_in result ≡ of_kind rest.now (kind_number kind) size }
{
    let row = kind.row();
    let length = row.length();
    if size != length {
        return Err(Refusal::Length);
    }
    if rest.len() < length {
        return Err(Refusal::Cut);
    }
    Ok(record_with(kind, row.values_at(rest)))
}

// The record that begins what is left of a sheet. Most records are tasks: their kind goes in as a constant, so that the compiler
// knows the row and reads it without a loop.
#[tactic(auto, unfolding(crate::specs::Layout::record_of))]
pub fn record_of(rest: &[u8]) -> Result<Record, Refusal>
    ensures { record_in result ≡ record_of rest.now }
{
    if rest.len() < 4 {
        return Err(Refusal::Cut);
    }
    let number = number_in(&rest[2..4]) as u16;
    let size = number_in(&rest[..2]) as usize;
    match Kind::try_from(number)? {
        Kind::Task => of_kind(rest, Kind::Task, size),
        kind => of_kind(rest, kind, size),
    }
}
