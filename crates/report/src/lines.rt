// The lines of a listing, each with its newline.
#![tactic(auto, unfolding(crate::specs::Lines::behind, crate::specs::Lines::refused_line, crate::specs::Lines::end_line, crate::specs::Lines::margin_fields, crate::specs::Lines::verdict_fields, crate::specs::Lines::answer_fields, crate::specs::Lines::outcome_fields, crate::specs::Lines::component_line), using(crate::proofs::Digits::as_text))]

ghost use Rattle.std.specs.Prelude.{◌≡◌, ◌≤◌, [], ◌∷◌, ◌++◌, length};
ghost use Rattle.budget.specs.Refusal.{number_of};
ghost use Rattle.judge.specs.Answer.{judgement_in};
ghost use Rattle.judge.specs.Margin.{margin_in};
ghost use Rattle.tree.specs.Outcome.{outcome_in};
ghost use Rattle.report.specs.Lines.{behind, refused_line, end_line, component_line, margin_fields, answer_fields, outcome_fields};

use crate::line::Line;
use judge::answer::{Judgement, Margin, Verdict};
use sheet::fault::Fault;
use tree::answer::{Outcome, Placed};

// The one line of a refused sheet.
pub(crate) fn refused_line(fault: Fault) -> Line
    ensures { result ≡ refused_line (number_of fault.refusal) fault.place }
{
    let mut line = Line::new();
    line.word(b"refused");
    line.field(u16::from(fault.refusal));
    line.field(fault.place);
    line.word(b"\n");
    line
}

// The last line of a sheet that is not refused.
pub(crate) fn end_line(count: usize) -> Line
    ensures { result ≡ end_line count }
{
    let mut line = Line::new();
    line.word(b"end");
    line.field(count);
    line.word(b"\n");
    line
}

// The last fields of an accepted or short component, and the newline.
fn put_margin(line: &mut Line, margin: Option<Margin>)
    requires { length line.old ≤ 38 }
    ensures { line.new ≡ line.old ++ behind (margin_fields (margin_in margin)) }
{
    match margin {
        Some(margin) => {
            line.field(margin.units);
            line.field(margin.at.0);
            line.word(b"\n");
        }
        None => line.word(b" - -\n"),
    }
}

// The verdict, the capacity it speaks of, and the margin.
fn put_judgement(line: &mut Line, judgement: Judgement)
    requires { length line.old ≤ 6 }
    ensures { line.new ≡ line.old ++ behind (answer_fields (judgement_in judgement)) }
{
    match judgement.verdict {
        Verdict::Accepted => {
            line.word(b" accepted");
            line.field(judgement.capacity.0);
            put_margin(line, judgement.margin);
        }
        Verdict::Short(instant) => {
            line.word(b" short");
            line.field(judgement.capacity.0);
            line.field(instant.0);
            put_margin(line, judgement.margin);
        }
        Verdict::None => line.word(b" none\n"),
    }
}

// What stands behind a component's number in its tree, and the newline.
fn put_outcome(line: &mut Line, outcome: Outcome)
    requires { length line.old ≤ 6 }
    ensures { line.new ≡ line.old ++ behind (outcome_fields (outcome_in outcome)) }
{
    match outcome {
        Outcome::Waiting => line.word(b" waiting\n"),
        Outcome::Judged(Err(_)) => line.word(b" long\n"),
        Outcome::Judged(Ok(judgement)) => put_judgement(line, judgement),
    }
}

// The line of one component: its number, then its answer.
pub(crate) fn component_line(placed: Placed) -> Line
    ensures { result ≡ component_line placed.number (outcome_in placed.outcome) }
{
    let mut line = Line::new();
    line.number(placed.number);
    put_outcome(&mut line, placed.outcome);
    line
}
