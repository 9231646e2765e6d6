// Calls that a host makes (include/jougsilver.h): each answers the number that it returns, and then its buffer, which is as
// much of the lent one as the call says, filled with a5.
#![tactic(auto)]

use calls::print::Out;
use calls::rows::ROOM;
use calls::words::Words;

// Calls with the buffer and the place in it that the call says, and shows what is returned and the buffer. (`calls_sheet` has one much like it: one for both
// would be public and need a `requires` for its closure, which no public function may have.) Memory is fixed: the longest buffer has 4,096 bytes
// (docs/CALLS.md).
fn called<F: FnOnce(&mut [u8], usize) -> u32>(words: &mut Words<'_>, out: &mut Out, call: F)
    requires { F.IsAlwaysCallable call }
{
    let mut buffer = [0xa5u8; 4096];
    match buffer.get_mut(..words.place()) {
        Some(reply) => {
            out.number(call(reply, words.place()));
            out.row(reply);
        }
        None => out.unknown(),
    }
}

fn host(words: &mut Words<'_>, out: &mut Out) {
    let mut bytes = [0u8; ROOM];
    let sheet = words.row(&mut bytes);
    let place = words.place();
    called(
        words,
        out,
        |reply, at| jougsilver::jougsilver_judge(sheet, place, reply, at),
    );
}

fn host_check(words: &mut Words<'_>, out: &mut Out) {
    let mut bytes = [0u8; ROOM];
    let sheet = words.row(&mut bytes);
    called(
        words,
        out,
        |reply, at| jougsilver::jougsilver_check(sheet, reply, at),
    );
}

fn host_all(words: &mut Words<'_>, out: &mut Out) {
    let mut bytes = [0u8; ROOM];
    let sheet = words.row(&mut bytes);
    called(
        words,
        out,
        |reply, at| jougsilver::jougsilver_judge_all(sheet, reply, at),
    );
}

// Answers the call, and says whether it is one of this crate.
pub fn answer(call: &[u8], mut words: Words<'_>, out: &mut Out) -> bool {
    let words = &mut words;
    match call {
        b"host" => host(words, out),
        b"host_check" => host_check(words, out),
        b"host_all" => host_all(words, out),
        _ => return false,
    }
    true
}
