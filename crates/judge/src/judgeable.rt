// A component that nothing refuses, with its common period L: what the verdict, the margin and the smallest capacity are looked for over (RULES 7, 8).
ghost use Rattle.judge.specs.inner.Whole.{Whole};

use budget::component::Component;
use budget::quantity::Time;

#[derive(Clone, Copy)]
pub(crate) struct Judgeable {
    pub component: Component,
    pub length: Time,
    pub ghost whole: { Whole component length.0 },
}
