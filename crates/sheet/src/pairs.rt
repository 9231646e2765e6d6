// The walk over the pairs of a sheet, behind its components: each pair is judged against the components and the pairs before it, and the
// end record behind the last.
ghost use Rattle.std.specs.Prelude.{◌≡◌, ◌==◌, ◌+◌, ◌≤◌, List, length, position};
ghost use Rattle.budget.specs.Refusal.{number_in};
ghost use Rattle.record.specs.Layout.{size_of};
ghost use Rattle.record.specs.Record.{PairRecord, said};
ghost use Rattle.sheet.specs.Register.{Entry};
ghost use Rattle.sheet.specs.Pairs.{ending_refusal, pair_judged, pair_step, paired_from};
ghost use Rattle.sheet.specs.inner.PairCourse.{Ends, Follows, Turns, Walkable, entries_in};

use crate::fault::Fault;
use crate::walk::Noted;
use budget::refusal::Refusal;
use budget::task::Table;
use record::layout::{Pair, Record, record_of};
use record::write::size_of;

// Where the walk stands that goes on: the byte where the next record begins, and the lowest number that the next child may have. What is noted of the
// components goes beside it and not inside: that is lent and changed in place, while a course is answered anew.
#[derive(Clone, Copy)]
struct Course {
    pub place: usize,
    pub lowest: u32,
}

// The place of the component of a number. A component is noted with one more than its number.
fn find(components: &[Noted], number: u16) -> Option<usize>
    ensures { result ≡ position (λ noted. noted.lowest == number + 1) components.now }
{
    let lowest = u32::from(number) + 1;
    components.iter().position(|noted| noted.lowest == lowest)
}

// The end record counts the components, and its bytes are all that are left.
#[tactic(auto, unfolding(crate::specs::Pairs::ending_refusal))]
fn check_ending(components: usize, count: u16, left: usize) -> Result<(), Refusal>
    ensures { (es : List Entry) → length es ≡ components → number_in result ≡ ending_refusal es count left }
{
    if usize::from(count) != components {
        return Err(Refusal::End);
    }
    if left != size_of(Some(Record::End(count))) {
        return Err(Refusal::End);
    }
    Ok(())
}

// A pair is taken, and counts as one more task of its parent; or it is refused: 16, then 6 where its parent is full.
fn take_pair(components: &mut [Noted], course: Course, pair: Pair) -> Result<Course, Refusal>
    requires { course.place + size_of (PairRecord pair) ≤ 65_536 }
    ensures { Follows components.old components.new course result (λ es st. pair_judged es st (PairRecord pair) 0) }
{
    if pair.parent <= pair.child || u32::from(pair.child) < course.lowest {
        return Err(Refusal::Pair);
    }
    if find(components, pair.child).is_none() {
        return Err(Refusal::Pair);
    }
    let Some(parent) = find(components, pair.parent) else {
        return Err(Refusal::Pair);
    };
    if Table::MOST <= components[parent].tasks as usize {
        return Err(Refusal::Tasks);
    }
    components[parent].tasks += 1;
    Ok(Course {
        place: course.place + size_of(Some(Record::Pair(pair))),
        lowest: u32::from(pair.child) + 1,
    })
}

// One record against the course so far. A component or a task may not stand behind a pair; behind the end record no course follows.
#[tactic(auto, unfolding(crate::specs::Pairs::pair_judged))]
fn judge_behind(
    components: &mut [Noted],
    course: Course,
    record: Record,
    left: usize,
) -> Result<Option<Course>, Refusal>
    requires { course.place + size_of (said «record») ≤ 65_536 }
    ensures { Turns components.old components.new course result (λ es st. pair_judged es st (said «record») left) }
{
    match record {
        Record::Component(_) => Err(Refusal::Pair),
        Record::Task { .. } => Err(Refusal::Pair),
        Record::Pair(pair) => Ok(Some(take_pair(components, course, pair)?)),
        Record::End(count) => {
            check_ending(components.len(), count, left)?;
            Ok(None)
        }
    }
}

fn pair_step(
    sheet: &[u8],
    components: &mut [Noted],
    course: Course,
) -> Result<Option<Course>, Refusal>
    requires { (course.place ≤ length sheet.now) × (length sheet.now ≤ 65_536) }
    ensures { Turns components.old components.new course result (λ es st. pair_step es sheet.now st) }
{
    let rest = &sheet[course.place..];
    let record = record_of(rest)?;
    judge_behind(components, course, record, rest.len())
}

// Walks from behind the last component over the pairs to the end record, by what the first walk noted of each component.
pub(crate) fn pair_walk(sheet: &[u8], components: &mut [Noted], start: usize) -> Result<(), Fault>
    requires { Walkable sheet.now components.old start }
    ensures { Ends result (paired_from (entries_in components.old) sheet.now start) }
{
    let mut course = Course {
        place: start,
        lowest: 0,
    };
    while let Some(next) = pair_step(sheet, components, course).map_err(|refusal| Fault {
        refusal,
        place: course.place,
    })? {
        course = next;
    }
    Ok(())
}
