// Making a component from plain numbers (RULES 11): its common period is worked out.
ghost use Rattle.std.specs.Prelude.{◌≡◌};
ghost use Rattle.budget.specs.Edit.{edited_in};
ghost use Rattle.budget.specs.Make.{making_answer};

use crate::common::{Common, common_of};
use crate::component::{Capacity, Component, check_ranges};
use crate::edit::{table_from, with_table};
use crate::quantity::Time;
use crate::refusal::Refusal;
use crate::task::Table;

// The component of these numbers, refused as its ranges are.
pub fn make_component(
    number: u16,
    period: Time,
    capacity: Capacity,
    deadline: Time,
    table: Table,
) -> Result<Component, Refusal>
    ensures { edited_in result ≡ making_answer number period capacity deadline table }
{
    // The numbers before L is known, as `unmade` of specs/Make.antt has them: the stored value is not looked at by check_ranges.
    let unmade = Component {
        number,
        period,
        capacity,
        deadline,
        common: Common::Above,
        table,
    };
    check_ranges(unmade)?;
    let kept = table_from(table.tasks());
    let common = common_of(period, kept);
    Ok(with_table(unmade, common, kept))
}
