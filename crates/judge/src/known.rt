// Judging a component whose stored common period is known to be right (budget::known): the answers of the public operations, with the common period read
// and not worked out. Each differs from its public one in the one call that asks for it: a parameter for that call would be longer than both.
ghost use Rattle.std.specs.Prelude.{◌≡◌};
ghost use Rattle.judge.specs.Answer.{answer_in, judge_answer};
ghost use Rattle.judge.specs.Capacity.{capacity_answer, smallest_in};

use crate::answer::Judgement;
use crate::capacity::least_capacity;
use crate::judgeable::Judgeable;
use crate::judging::judge_over;
use budget::known::{Known, common_period};
use budget::quantity::Units;
use budget::refusal::Refusal;

pub fn judge(known: Known) -> Result<Judgement, Refusal>
    ensures { answer_in result ≡ judge_answer known.component }
{
    let length = common_period(known)?;
    Ok(judge_over(Judgeable {
        component: known.component,
        length,
    }))
}

pub fn smallest_capacity(known: Known) -> Result<Option<Units>, Refusal>
    ensures { smallest_in result ≡ capacity_answer known.component }
{
    let length = common_period(known)?;
    Ok(least_capacity(Judgeable {
        component: known.component,
        length,
    }))
}
