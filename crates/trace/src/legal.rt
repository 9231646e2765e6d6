// The trace question: whether a trace is legal (RULES 5).
ghost use Rattle.std.specs.Prelude.{◌≡◌, true, cond, ◌&&◌, ◌↔◌, ◌+◌, ◌≤◌, ◌<◌, ltb, eqb};
ghost use Rattle.budget.specs.Limits.{limit};
ghost use Rattle.budget.specs.Refusal.{none, number_in};
ghost use Rattle.trace.specs.Legal.{zeros_and_ones, Legal};
ghost use Rattle.trace.specs.Answer.{trace_refusal, Answered, legality_in};

use budget::interface::{Interface, check_interface};
use budget::quantity::Time;
use budget::refusal::Refusal;

// The most slots of a trace that is taken.
pub const LONGEST: usize = 65_536;

// Every byte is 0 or 1.
pub fn zeros_and_ones(trace: &[u8]) -> bool
    ensures { result ≡ zeros_and_ones trace.now }
{
    trace.iter().all(|&byte| byte <= 1)
}

// The refusal of an interface, an offset and a trace: the trace question's own three arguments (RULES 11), which go together to the walk.
#[tactic(auto, unfolding(crate::specs::Answer::trace_refusal))]
fn check_trace(interface: Interface, offset: u32, trace: &[u8]) -> Result<(), Refusal>
    ensures { number_in result ≡ trace_refusal interface offset trace.now }
{
    check_interface(interface)?;
    if interface.period.0 <= offset {
        return Err(Refusal::Range);
    }
    if LONGEST < trace.len() || !zeros_and_ones(trace) {
        return Err(Refusal::Trace);
    }
    Ok(())
}

// A slot's place in its period, and what the period lacks before it: its slots so far at places below the deadline that are not supplied.
#[derive(Clone, Copy)]
struct Place {
    place: u32,
    lacks: u32,
}

impl Place {
    // What the period lacks once the slot has this byte.
    fn lacking(self, deadline: u32, byte: u8) -> u32
        requires { self.lacks ≤ limit }
        ensures { result ≡ cond (ltb self.place deadline && eqb byte 0) (self.lacks + 1) self.lacks }
    {
        if self.place < deadline && byte == 0 {
            self.lacks + 1
        } else {
            self.lacks
        }
    }

    // The place of the next slot, with that many lacking before it; none where a period begins.
    fn next(self, period: u32, lacks: u32) -> Place
        requires { self.place < period }
        ensures place { result.place ≡ cond (eqb (self.place + 1) period) 0 (self.place + 1) }
        ensures lacks { result.lacks ≡ cond (eqb (self.place + 1) period) 0 lacks }
    {
        let place = self.place + 1;
        if place == period {
            Place { place: 0, lacks: 0 }
        } else {
            Place { place, lacks }
        }
    }
}

// No period of the trace lacks more than Δ − Θ of its slots at places below Δ. Slots outside the trace are never lacking.
fn walk(interface: Interface, offset: u32, trace: &[u8]) -> bool
    requires { trace_refusal interface offset trace.now ≡ none }
    ensures { (result ≡ true) ↔ Legal interface offset trace.now }
{
    let deadline = interface.deadline.0;
    let slack = deadline - interface.capacity.0;
    let mut slot = Place {
        place: offset,
        lacks: 0,
    };
    for &byte in trace {
        let lacks = slot.lacking(deadline, byte);
        if slack < lacks {
            return false;
        }
        slot = slot.next(interface.period.0, lacks);
    }
    true
}

// Is the trace a legal supply of the interface, its first slot at the place `offset` of a period?
pub fn is_legal(interface: Interface, offset: Time, trace: &[u8]) -> Result<bool, Refusal>
    ensures { Answered interface offset.0 trace.now (legality_in result) }
{
    check_trace(interface, offset.0, trace)?;
    Ok(walk(interface, offset.0, trace))
}

// Yes or no; a refused answer has no (RULES 11).
pub fn answered_legal(answer: Result<bool, Refusal>) -> bool
    ensures { result ≡ (legality_in answer).legal }
{
    answer.unwrap_or(false)
}
