// Storing a row of values, or a record, at a place of a buffer (RULES 10, 11). Each writer takes a buffer and a place, and has the same two
// clauses for its own bytes, since the rules name that form: into a buffer from a given place on (docs/DECISIONS, "Named forms").
ghost use Rattle.std.specs.Prelude.{◌≡◌, length};
ghost use Rattle.budget.specs.Refusal.{number_in};
ghost use Rattle.record.specs.Layout.{record_bytes, size_of};
ghost use Rattle.record.specs.Record.{said_of};
ghost use Rattle.record.specs.Row.{row_bytes};
ghost use Rattle.record.specs.Writing.{room_refusal, written, written_in, buffered, numbers_bytes};

use crate::layout::Record;
use crate::row::{Row, Values};
use budget::refusal::Refusal;

// The refusal of a place past the buffer, or of one with too little room behind it.
#[tactic(auto, unfolding(crate::specs::Writing::room_refusal))]
pub fn check_room(room: usize, at: usize, size: usize) -> Result<(), Refusal>
    ensures { number_in result ≡ room_refusal room at size }
{
    if room < at || room - at < size {
        return Err(Refusal::Room);
    }
    Ok(())
}

// Writes a row of values from a place on, and answers the place behind it. `put` is lent the buffer from that place on, and fills only the row.
#[tactic(auto, unfolding(crate::specs::Writing::room_refusal))]
pub(crate) fn write_row(
    buffer: &mut [u8],
    at: usize,
    row: Row,
    values: Values,
) -> Result<usize, Refusal>
    ensures answer { written_in result ≡ written (room_refusal (length buffer.old) at (length (row_bytes row.widths values))) at (row_bytes row.widths values) }
    ensures bytes { buffer.new ≡ buffered (room_refusal (length buffer.old) at (length (row_bytes row.widths values))) buffer.old at (row_bytes row.widths values) }
{
    let size = row.length();
    check_room(buffer.len(), at, size)?;
    row.put(&mut buffer[at..], values);
    Ok(at + size)
}

// The length of a record, or 0 of none.
pub fn size_of(record: Option<Record>) -> usize
    ensures { result ≡ size_of (said_of «record») }
{
    match record {
        Some(record) => record.kind().row().length(),
        None => 0,
    }
}

// Writes a record from a place on, and answers the place behind it; of none it writes nothing.
pub fn write_record(buffer: &mut [u8], at: usize, record: Option<Record>) -> Result<usize, Refusal>
    ensures answer { written_in result ≡ written (room_refusal (length buffer.old) at (length (record_bytes (said_of «record»)))) at (record_bytes (said_of «record»)) }
    ensures bytes { buffer.new ≡ buffered (room_refusal (length buffer.old) at (length (record_bytes (said_of «record»)))) buffer.old at (record_bytes (said_of «record»)) }
{
    let Some(record) = record else {
        return write_row(buffer, at, Row { widths: [0; 8] }, [0; 8]);
    };
    let kind = record.kind();
    let row = kind.row();
    let values = row.headed(u16::from(kind), record.fields());
    write_row(buffer, at, row, values)
}

// Writes three numbers of 4 bytes each from a place on, and answers the place behind them.
#[tactic(auto, unfolding(crate::specs::Writing::numbers_bytes))]
pub fn write_numbers(
    buffer: &mut [u8],
    at: usize,
    first: u32,
    second: u32,
    third: u32,
) -> Result<usize, Refusal>
    ensures answer { written_in result ≡ written (room_refusal (length buffer.old) at (length (numbers_bytes first second third))) at (numbers_bytes first second third) }
    ensures bytes { buffer.new ≡ buffered (room_refusal (length buffer.old) at (length (numbers_bytes first second third))) buffer.old at (numbers_bytes first second third) }
{
    write_row(
        buffer,
        at,
        Row {
            widths: [4, 4, 4, 0, 0, 0, 0, 0],
        },
        [first, second, third, 0, 0, 0, 0, 0],
    )
}

// The place behind what was written; a refused answer has 0 (RULES 11).
pub fn answered_place(answer: Result<usize, Refusal>) -> usize
    ensures { result ≡ (written_in answer).place }
{
    answer.unwrap_or(0)
}
