// What a host is answered on one component: a record in the sheet's encoding (RULES 14).
ghost use Rattle.std.specs.Prelude.{◌≡◌, length};
ghost use Rattle.record.specs.Reply.{reply_bytes};
ghost use Rattle.record.specs.Writing.{room_refusal, written, written_in, buffered};

use crate::row::Row;
use crate::write::write_row;
use budget::quantity::{Time, Units};
use budget::refusal::Refusal;

// The fields of a reply; the margin is the signed number's two's complement.
#[derive(Clone, Copy)]
pub struct Reply {
    pub number: u16,
    pub code: u16,
    pub capacity: Units,
    pub instant: Time,
    pub margin: u32,
    pub stands: Time,
}

// A reply's kind: its own (RULES 14), and none of `Kind`, which has those of a sheet (RULES 10).
const REPLY: u16 = 16;

// Writes a reply from a place on, and answers the place behind it.
#[tactic(auto, unfolding(crate::specs::Reply::reply_bytes, crate::specs::Field::encode))]
pub fn write_reply(buffer: &mut [u8], at: usize, reply: Reply) -> Result<usize, Refusal>
    ensures answer { written_in result ≡ written (room_refusal (length buffer.old) at 24) at (reply_bytes reply) }
    ensures bytes { buffer.new ≡ buffered (room_refusal (length buffer.old) at 24) buffer.old at (reply_bytes reply) }
{
    let fields = [
        0,
        0,
        u32::from(reply.number),
        u32::from(reply.code),
        reply.capacity.0,
        reply.instant.0,
        reply.margin,
        reply.stands.0,
    ];
    let row = Row {
        widths: [2, 2, 2, 2, 4, 4, 4, 4],
    };
    write_row(buffer, at, row, row.headed(REPLY, fields))
}
