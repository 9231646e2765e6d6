// A component of which it is known that it stores its own common period (RULES 3). Whoever makes one shows it; whoever takes one need not ask.
ghost use Rattle.budget.specs.Component.{Right};

use crate::component::Component;

#[derive(Clone, Copy)]
pub struct Known {
    pub component: Component,
    pub ghost right: { Right component },
}
