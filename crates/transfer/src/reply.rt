// What a host is answered (RULES 14): on one component a reply, on a whole sheet what its check found.
ghost use Rattle.std.specs.Prelude.{◌≡◌, ◌%◌, length};
ghost use Rattle.record.specs.Writing.{room_refusal, written, written_in, buffered};
ghost use Rattle.sheet.specs.Answered.{checked_in};
ghost use Rattle.transfer.specs.Reply.{checked_bytes, told};

use budget::refusal::Refusal;
pub use record::reply::{Reply, write_reply};
use record::write::write_numbers;
use sheet::fault::Fault;

// A number as a field of 4 bytes keeps it. `%` before the cast, since write_checked answers every count and every place, above 32 bits too.
fn low(number: usize) -> u32
    ensures { result ≡ number % 4_294_967_296 }
{
    (number % 4_294_967_296) as u32
}

// What a host is told of a sheet: numbers, as the C interface has them.
#[derive(Clone, Copy)]
pub struct Checked {
    pub refusal: u16,
    pub place: usize,
    pub count: usize,
}

impl From<Result<usize, Fault>> for Checked {
    ghost from_gives = { λ answered checked. told checked ≡ checked_in answered };

    fn from(answered: Result<usize, Fault>) -> Checked {
        match answered {
            Ok(count) => Checked {
                refusal: 0,
                place: 0,
                count,
            },
            Err(fault) => Checked {
                refusal: u16::from(fault.refusal),
                place: fault.place,
                count: 0,
            },
        }
    }
}

// Writes what a host is told of a sheet from a place on, and answers the place behind it.
pub fn write_checked(buffer: &mut [u8], at: usize, checked: Checked) -> Result<usize, Refusal>
    ensures answer { written_in result ≡ written (room_refusal (length buffer.old) at 12) at (checked_bytes (told checked)) }
    ensures bytes { buffer.new ≡ buffered (room_refusal (length buffer.old) at 12) buffer.old at (checked_bytes (told checked)) }
{
    let number = u32::from(checked.refusal);
    write_numbers(buffer, at, number, low(checked.place), low(checked.count))
}
