// The calls of the host: `jougsilver_c` exports them to C, and include/jougsilver.h is their other side.
#![tactic(auto)]

mod all;
mod answer;

ghost use Rattle.std.specs.Prelude.{◌≡◌, length};
ghost use Rattle.budget.specs.Refusal.{number_in};
ghost use Rattle.jougsilver.specs.Host.{host_reply, host_refusal, check_reply, check_refusal, all_reply, all_refusal};
ghost use Rattle.transfer.specs.Writing.{buffered};

use crate::all::put_all;
use crate::answer::{number_in, reply_of};
use budget::refusal::Refusal;
use record::write::check_room;
use sheet::check::check_sheet;
use sheet::contents::contents_of;
use transfer::reply::{Checked, write_checked, write_reply};
use tree::place::judge_place;

// Each call promises two clauses, of the answer and of the bytes, over definitions of its own: a host relies on them call by call, so no two share a clause.

// The refusals in their order (RULES 13): of the place, of the component, of the room.
fn judge_at(sheet: &[u8], place: usize, reply: &mut [u8], at: usize) -> Result<usize, Refusal>
    ensures answer { number_in result ≡ host_refusal sheet.now place (length reply.old) at }
    ensures bytes { reply.new ≡ buffered (host_refusal sheet.now place (length reply.old) at) reply.old at (host_reply sheet.now place) }
{
    let placed = judge_place(sheet, place).map_err(|fault| fault.refusal)?;
    let fields = reply_of(placed)?;
    write_reply(reply, at, fields)
}

// Judges the component at a place of a sheet, in its tree, and puts the reply into the host's buffer from a place on.
pub fn jougsilver_judge(sheet: &[u8], place: usize, reply: &mut [u8], at: usize) -> u32
    ensures answer { result ≡ host_refusal sheet.now place (length reply.old) at }
    ensures bytes { reply.new ≡ buffered (host_refusal sheet.now place (length reply.old) at) reply.old at (host_reply sheet.now place) }
{
    number_in(judge_at(sheet, place, reply, at))
}

// Checks a whole sheet and puts what it was answered into the host's buffer from a place on. That a sheet is refused is the answer here, so only the
// room can be refused.
#[tactic(auto, unfolding(transfer::specs::Writing::written))]
pub fn jougsilver_check(sheet: &[u8], reply: &mut [u8], at: usize) -> u32
    ensures answer { result ≡ check_refusal (length reply.old) at }
    ensures bytes { reply.new ≡ buffered (check_refusal (length reply.old) at) reply.old at (check_reply sheet.now) }
{
    number_in(write_checked(reply, at, Checked::from(check_sheet(sheet))))
}

// The refusals in their order: of the sheet, of the room for all of it.
fn judge_all(sheet: &[u8], reply: &mut [u8], at: usize) -> Result<(), Refusal>
    ensures answer { number_in result ≡ all_refusal sheet.now (length reply.old) at }
    ensures bytes { reply.new ≡ buffered (all_refusal sheet.now (length reply.old) at) reply.old at (all_reply sheet.now) }
{
    let contents = contents_of(sheet).map_err(|fault| fault.refusal)?;
    let count = contents.count;
    check_room(reply.len(), at, 12 + 36 * count)?;
    // With room for all of it this isn't refused.
    let taken = Checked {
        refusal: 0,
        place: 0,
        count,
    };
    let _ = write_checked(reply, at, taken);
    put_all(sheet, &contents, &mut reply[at + 12..]);
    Ok(())
}

// Judges every component of a sheet in one pass, each after its children, and puts all replies into the host's buffer from a place on.
pub fn jougsilver_judge_all(sheet: &[u8], reply: &mut [u8], at: usize) -> u32
    ensures answer { result ≡ all_refusal sheet.now (length reply.old) at }
    ensures bytes { reply.new ≡ buffered (all_refusal sheet.now (length reply.old) at) reply.old at (all_reply sheet.now) }
{
    number_in(judge_all(sheet, reply, at))
}
