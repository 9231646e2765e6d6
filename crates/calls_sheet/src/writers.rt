// Calls that write into a buffer, which is as much of the lent one as the call says, filled with a5.
use budget::refusal::Refusal;
use calls::print::Out;
use calls::words::Words;
use record::write::answered_place;
use transfer::pair::{self, Pair};
use transfer::write;

// Writes into the buffer from the place on that the call says, and shows the answer and the buffer. (`calls_host` has one much like it: one for both would
// be public and need a `requires` for its closure, which no public function may have.) Memory is fixed: the longest buffer has 4,096 bytes (docs/CALLS.md).
fn written<F: FnOnce(&mut [u8], usize) -> Result<usize, Refusal>>(
    words: &mut Words<'_>,
    out: &mut Out,
    write: F,
)
    requires { F.IsAlwaysCallable write }
{
    let mut buffer = [0xa5u8; 4096];
    match buffer.get_mut(..words.place()) {
        Some(part) => {
            let answered = write(part, words.place());
            out.status(&answered);
            out.number(answered_place(answered));
            out.row(part);
        }
        None => out.unknown(),
    }
}

fn write(words: &mut Words<'_>, out: &mut Out) {
    let component = words.component();
    written(
        words,
        out,
        |part, at| write::write_component(part, at, component),
    );
}

fn write_end(words: &mut Words<'_>, out: &mut Out) {
    let count = words.place();
    written(words, out, |part, at| write::write_end(part, at, count));
}

fn write_pair(words: &mut Words<'_>, out: &mut Out) {
    let pair = Pair {
        child: words.component_number(),
        parent: words.component_number(),
    };
    written(words, out, |part, at| pair::write_pair(part, at, pair));
}

// Answers the call, and says whether it is one of these.
pub(crate) fn answer(call: &[u8], mut words: Words<'_>, out: &mut Out) -> bool {
    let words = &mut words;
    match call {
        b"write" => write(words, out),
        b"write_end" => write_end(words, out),
        b"write_pair" => write_pair(words, out),
        _ => return false,
    }
    true
}
