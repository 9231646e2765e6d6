// What a call gives: tasks, tables, interfaces and components.
use crate::words::Words;
use budget::common::Common;
use budget::component::{Capacity, Component};
use budget::interface::Interface;
use budget::quantity::{Time, Units};
use budget::task::{Table, Task};

// What stands in a task place that is to be ignored: no task, with a lateness above the deadline and both as large as can be, so that
// nothing may count with them.
const NO_TASK: Task = Task {
    period: Time(9),
    work: Units(0),
    deadline: Time(4_294_967_294),
    lateness: Time(4_294_967_295),
};

// A component as far as its deadline: its stored common period and its tasks are still to be read. It has no table, since each table that is made and
// filled over again is a kibibyte.
#[derive(Clone, Copy)]
pub struct Head {
    pub number: u16,
    pub capacity: Capacity,
    pub period: Time,
    pub deadline: Time,
}

impl Words<'_> {
    pub fn time(&mut self) -> Time {
        Time(self.long())
    }

    pub fn units(&mut self) -> Units {
        Units(self.long())
    }

    pub fn task(&mut self) -> Task {
        Task {
            period: self.time(),
            work: self.units(),
            deadline: self.time(),
            lateness: self.time(),
        }
    }

    pub fn interface(&mut self) -> Interface {
        Interface {
            period: self.time(),
            capacity: self.units(),
            deadline: self.time(),
        }
    }

    // A count above 64 comes with 64 tasks.
    pub fn table(&mut self) -> Table {
        let count = self.place();
        let mut tasks = [NO_TASK; 64];
        for task in tasks.iter_mut().take(count) {
            *task = self.task();
        }
        Table { count, tasks }
    }

    fn capacity(&mut self) -> Capacity {
        match self.word() {
            [b's', ..] => Capacity::Stated(self.units()),
            _ => Capacity::Asked,
        }
    }

    pub fn head(&mut self) -> Head {
        Head {
            number: self.component_number(),
            capacity: self.capacity(),
            period: self.time(),
            deadline: self.time(),
        }
    }

    // A stored common period: a number, also one that no component may store, or `above` for the mark.
    fn common(&mut self) -> Common {
        if self.begins_with(b'a') {
            self.word();
            return Common::Above;
        }
        Common::Within(self.time())
    }

    pub fn component(&mut self) -> Component {
        let Head {
            number,
            capacity,
            period,
            deadline,
        } = self.head();
        Component {
            number,
            period,
            capacity,
            deadline,
            common: self.common(),
            table: self.table(),
        }
    }
}
