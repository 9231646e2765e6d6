// Pairs between a sheet and the program (RULES 10, 11): reading one by its place among the pairs, or all of them, and writing one.
ghost use Rattle.std.specs.Prelude.{◌≡◌, List, [], MatchOption, length, take};
ghost use Rattle.record.specs.Layout.{pair_bytes, record_of};
ghost use Rattle.record.specs.Record.{PairRecord};
ghost use Rattle.record.specs.Writing.{written, written_in, buffered};
ghost use Rattle.transfer.specs.Pairing.{pair_table, pair_then, pairs_in, pair_reading, pair_reading_in, pair_writing_refusal};

use budget::refusal::Refusal;
pub use record::layout::Pair;
use record::layout::{Record, record_of};
use record::write::{size_of, write_record};
use sheet::check::MOST_COMPONENTS;
use sheet::contents::contents_of;
use sheet::fault::Fault;

// The pairs of a sheet, the first `count`; the places behind them are zero. The count stands beside the places because memory is fixed;
// no ArrayVec, since the fields are public and read_pairs' clause says what both are (pair_table).
#[derive(Clone, Copy)]
pub struct Pairs {
    pub count: usize,
    pub pairs: [Pair; 256],
}

impl Pairs {
    // The pairs without the places behind them.
    pub fn as_slice(&self) -> &[Pair]
        ensures { result.now ≡ take self.now.count self.now.pairs }
    {
        let count = self.count.min(MOST_COMPONENTS);
        &self.pairs[..count]
    }
}

// The pair of the pair record at the front of some bytes.
#[tactic(auto, unfolding(crate::specs::Pairing::pair_then))]
fn pair_of(rest: &[u8]) -> Option<Pair>
    ensures { MatchOption result ((ps : List Pair) → pair_then (record_of rest.now) ps ≡ []) (λ p. PairRecord p ≡ record_of rest.now) }
{
    match record_of(rest) {
        Ok(Record::Pair(pair)) => Some(pair),
        _ => None,
    }
}

// Reads the pair records at the front of some bytes. In a sheet these are the bytes behind its last component.
pub fn read_pairs(rest: &[u8]) -> Pairs
    ensures { result ≡ pair_table (pairs_in 256 rest.now) }
{
    let mut pairs = [Pair {
        child: 0,
        parent: 0,
    }; 256];
    let mut place = 0;
    for count in 0..MOST_COMPONENTS {
        let Some(pair) = pair_of(&rest[place..]) else {
            return Pairs { count, pairs };
        };
        pairs[count] = pair;
        place += size_of(Some(Record::Pair(pair)));
    }
    Pairs {
        count: MOST_COMPONENTS,
        pairs,
    }
}

// Reads the pair at a place among the pairs of a sheet: the sheet's refusal, then 15 where none stands there.
pub fn read_pair(sheet: &[u8], place: usize) -> Result<Pair, Fault>
    ensures { pair_reading_in result ≡ pair_reading sheet.now place }
{
    let found = contents_of(sheet)?;
    let from = found.edges[found.count];
    let pairs = read_pairs(&sheet[from..]);
    match pairs.as_slice().get(place) {
        Some(pair) => Ok(*pair),
        None => Err(Fault {
            refusal: Refusal::Place,
            place: 0,
        }),
    }
}

// Writes a pair from a place on, and answers the place behind it: 16 unless the parent is larger, then 11.
#[tactic(auto, unfolding(crate::specs::Pairing::pair_writing_refusal, record::specs::Writing::written, record::specs::Writing::buffered, record::specs::Layout::record_bytes))]
pub fn write_pair(buffer: &mut [u8], at: usize, pair: Pair) -> Result<usize, Refusal>
    ensures answer { written_in result ≡ written (pair_writing_refusal (length buffer.old) at pair) at (pair_bytes pair) }
    ensures bytes { buffer.new ≡ buffered (pair_writing_refusal (length buffer.old) at pair) buffer.old at (pair_bytes pair) }
{
    if pair.parent <= pair.child {
        return Err(Refusal::Pair);
    }
    write_record(buffer, at, Some(Record::Pair(pair)))
}

// The pair that was read; in a refused answer both numbers are 0 (RULES 11).
pub fn answered_pair(answer: Result<Pair, Fault>) -> Pair
    ensures { result ≡ (pair_reading_in answer).pair }
{
    answer.unwrap_or(Pair {
        child: 0,
        parent: 0,
    })
}
