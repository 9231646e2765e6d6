// A parent's workload (RULES 7): its own tasks, then each child's interface as a task, by rising child number. The common period starts from the stored
// one and goes on with the children's periods.
ghost use Rattle.std.specs.Prelude.{cond, ◌≡◌, eqb, ltb, map, take};
ghost use Rattle.std.specs.List.{find};
ghost use Rattle.budget.specs.Common.{grown};
ghost use Rattle.budget.specs.Limits.{most_tasks};
ghost use Rattle.budget.specs.Task.{tasks_of, table_of, appended};
ghost use Rattle.tree.specs.Offer.{as_task, offered_in};
ghost use Rattle.tree.specs.Workload.{load_in, load_on};

use crate::offer::Offer;
use budget::common::grow;
use budget::component::Component;
use budget::known::Known;
use budget::quantity::{Time, Units};
use budget::task::{Table, Task, append};
use record::layout::Pair;

// The offer of the component of a number; the first of that number.
fn find_offer(offers: &[Offer], number: u16) -> Option<Offer>
    ensures { result ≡ find (λ o. eqb o.number number) offers.now }
{
    offers
        .iter()
        .copied()
        .find(|offer| offer.number == u32::from(number))
}

// A table as tables are handed back: its tasks, and zeros behind them (RULES 2). Budget's `table_from` is its own and asks that the tasks fit; a count above 64
// is taken as 64 here.
fn own_tasks(table: Table) -> Table
    ensures { result ≡ table_of (take most_tasks (tasks_of table)) }
{
    let count = table.count.min(Table::MOST);
    let mut tasks = table.tasks;
    tasks[count..].fill(Task::NONE);
    Table { count, tasks }
}

// The component with what a child adds to it: the child's interface as a task behind the others, whose jobs are ready when they are released, and one
// common multiple more; nothing for capacity 0, or where the table is full.
fn with_child(loaded: Component, offer: Offer, capacity: Units) -> Component
    requires { (offered_in offer).capacity ≡ capacity.0 }
    ensures { let o = offered_in offer in result ≡ record loaded {
      common = cond (eqb o.capacity 0) loaded.common (cond (ltb loaded.table.count most_tasks) (grown loaded.common o.period) loaded.common);
      table = cond (eqb o.capacity 0) loaded.table (appended loaded.table (as_task o));
    } }
{
    if capacity.0 == 0 || Table::MOST <= loaded.table.count {
        return loaded;
    }
    let task = Task {
        period: offer.period,
        work: capacity,
        deadline: offer.deadline,
        lateness: Time(0),
    };
    Component {
        common: grow(loaded.common, offer.period),
        table: append(loaded.table, task),
        ..loaded
    }
}

// The component with its whole workload as its tasks, or none where it waits for a child.
pub(crate) fn load(known: Known, pairs: &[Pair], offers: &[Offer]) -> Option<Known>
    ensures { load_in result ≡ load_on pairs.now (map offered_in offers.now) known.component }
{
    let component = known.component;
    let mut loaded = Component {
        table: own_tasks(component.table),
        ..component
    };
    for pair in pairs {
        if pair.parent == component.number {
            let offer = find_offer(offers, pair.child)?;
            let capacity = offer.capacity?;
            loaded = with_child(loaded, offer, capacity);
        }
    }
    Some(Known { component: loaded })
}
