// What an answer shows of a component.
use crate::print::Out;
use budget::answered::answered_component;
use budget::common::Common;
use budget::component::{Capacity, Component};
use budget::refusal::Refusal;
use budget::task::{Table, Task};

impl Out {
    fn task(&mut self, task: Task) {
        self.number(task.period.0);
        self.number(task.work.0);
        self.number(task.deadline.0);
        self.number(task.lateness.0);
    }

    fn table(&mut self, table: Table) {
        self.number(table.count);
        for task in table.tasks() {
            self.task(*task);
        }
    }

    fn capacity(&mut self, capacity: Capacity) {
        match capacity {
            Capacity::Stated(units) => {
                self.word("stated");
                self.number(units.0);
            }
            Capacity::Asked => self.word("asked"),
        }
    }

    fn common(&mut self, common: Common) {
        match common {
            Common::Within(length) => self.number(length.0),
            Common::Above => self.word("above"),
        }
    }

    // `zero` if every task place from the count on is (0, 0, 0, 0), else `filled`.
    fn rest(&mut self, table: Table) {
        if table
            .tasks
            .iter()
            .skip(table.count)
            .all(|task| *task == Task::NONE)
        {
            self.word("zero");
        } else {
            self.word("filled");
        }
    }

    // A component as it is given in a call, and whether the rest of its task places is zero.
    pub fn component(&mut self, component: Component) {
        self.number(component.number);
        self.capacity(component.capacity);
        self.number(component.period.0);
        self.number(component.deadline.0);
        self.common(component.common);
        self.table(component.table);
        self.rest(component.table);
    }

    // The answer of an edit; one that is refused shows the component that stands for none.
    pub fn edited(&mut self, answered: Result<Component, Refusal>) {
        self.status(&answered);
        self.component(answered_component(answered));
    }
}
