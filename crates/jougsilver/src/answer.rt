// The reply on one component, from what it is answered in its tree.
ghost use Rattle.std.specs.Prelude.{◌≡◌, IfOk};
ghost use Rattle.budget.specs.Refusal.{number_in};
ghost use Rattle.judge.specs.Answer.{judgement_in};
ghost use Rattle.tree.specs.Outcome.{outcome_in};
ghost use Rattle.jougsilver.specs.Answer.{refusal_of, judged_reply, reply_of};

use budget::quantity::{Time, Units};
use budget::refusal::Refusal;
use judge::answer::{Judgement, Margin, Verdict};
use judge::signed::twos_complement;
use transfer::reply::Reply;
use tree::answer::{Outcome, Placed};

// The number of an answer, 0 or its refusal's: a host in C is answered by numbers (RULES 12).
pub(crate) fn number_in<T: Copy>(answer: Result<T, Refusal>) -> u32
    ensures { result ≡ number_in answer }
{
    match answer {
        Ok(_) => 0,
        Err(refusal) => u32::from(u16::from(refusal)),
    }
}

// A host in C reads the verdict as a code (RULES 14); where there is no margin, zeros stand for it.
#[tactic(auto, unfolding(crate::specs::Answer::judged_reply))]
fn judged_reply(number: u16, judgement: Judgement) -> Reply
    ensures { result ≡ judged_reply number (judgement_in judgement) }
{
    let (code, instant) = match judgement.verdict {
        Verdict::Accepted => (0, Time(0)),
        Verdict::Short(instant) => (1, instant),
        Verdict::None => (2, Time(0)),
    };
    let margin = judgement.margin.unwrap_or(Margin {
        units: 0,
        at: Time(0),
    });
    Reply {
        number,
        code,
        capacity: judgement.capacity,
        instant,
        margin: twos_complement(margin.units),
        stands: margin.at,
    }
}

// The reply on a component, in the order of its fields; one that waits has a number and a code.
#[tactic(auto, unfolding(crate::specs::Answer::reply_of))]
pub(crate) fn reply_of(placed: Placed) -> Result<Reply, Refusal>
    ensures refusal { number_in result ≡ refusal_of (outcome_in placed.outcome) }
    ensures reply { IfOk result (λ r. r ≡ reply_of placed.number (outcome_in placed.outcome)) }
{
    let number = placed.number;
    match placed.outcome {
        Outcome::Waiting => Ok(Reply {
            number,
            code: 3,
            capacity: Units(0),
            instant: Time(0),
            margin: 0,
            stands: Time(0),
        }),
        Outcome::Judged(judged) => Ok(judged_reply(number, judged?)),
    }
}
