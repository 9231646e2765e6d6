// Supply by an instant for an interface that is in range, which is never refused.
ghost use Rattle.std.specs.Prelude.{◌≡◌};
ghost use Rattle.budget.specs.Supply as Supply;
ghost use Rattle.judge.specs.inner.Scan.{Supplied};

use budget::interface::Interface;
use budget::quantity::Time;
use budget::supply::supply;

// The units of the interface by this instant. budget's own `units_by` stays private: to be public it would have to ask for what this function asks.
pub(crate) fn units_at(interface: Interface, at: u32) -> u32
    requires { Supplied interface at }
    ensures { result ≡ Supply.supply interface at }
{
    supply(interface, Time(at)).unwrap().0
}
