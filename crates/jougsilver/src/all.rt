// The entries of all components of a sheet, judged in one pass (RULES 14).
ghost use Rattle.std.specs.Prelude.{◌≡◌, ◌+◌, ◌*◌, ◌≤◌, ◌<◌, length};
ghost use Rattle.std.proofs.lemmas.List.Edits.{sets};
ghost use Rattle.tree.specs.Outcome.{outcome_in};
ghost use Rattle.jougsilver.specs.Host.{entry_on, entries_to};
ghost use Rattle.tree.specs.inner.Known.{Known};

use crate::answer::{number_in, reply_of};
use record::write::write_numbers;
use sheet::contents::Contents;
use transfer::pair::read_pairs;
use transfer::reply::write_reply;
use tree::answer::Placed;
use tree::offer::Offer;
use tree::turn::{Pass, turn_at};

// One component's refusal, its number, the byte where its record begins, and its reply, or as many zeros where it is refused. An entry has room for all of
// it, so neither writer refuses.
fn put_entry(placed: Placed, byte: usize, entry: &mut [u8])
    requires { (length entry.old ≡ 36) × (byte < 4_294_967_296) }
    ensures { entry.new ≡ entry_on placed.number (outcome_in placed.outcome) byte }
{
    let reply = reply_of(placed);
    let first = number_in(reply);
    let _ = write_numbers(entry, 0, first, u32::from(placed.number), byte as u32);
    match reply {
        Ok(fields) => {
            let _ = write_reply(entry, 12, fields);
        }
        Err(_) => entry[12..].fill(0),
    }
}

// The entries of the components in their order, each read between its edges and judged after its children. The listing's lines have a loop of their own: a
// closure for both would bring the room of what each writes into the pass's contract.
#[tactic(auto, using(tree::proofs::Pass::known_within))]
pub(crate) fn put_all(sheet: &[u8], contents: &Contents, entries: &mut [u8])
    requires known { Known sheet.now contents.now.edges contents.now.count }
    requires room { 36 * contents.now.count ≤ length entries.old }
    ensures { entries.new ≡ sets entries.old 0 (entries_to sheet.now contents.now.count) }
{
    // The listing's pass and that of one place begin alike. No function could answer a pass, which is lent the pairs that are read here; a constructor of one would be no shorter.
    let count = contents.count;
    let pairs = read_pairs(&sheet[contents.edges[count]..]);
    let pass = Pass {
        sheet,
        edges: &contents.edges,
        pairs: pairs.as_slice(),
    };
    let mut offers = [Offer::NONE; 256];
    for place in 0..count {
        let placed = turn_at(pass, place, &mut offers);
        // Where an entry stands in the caller's buffer is fixed (RULES 14).
        let entry = &mut entries[36 * place..36 * place + 36];
        put_entry(placed, contents.edges[place], entry);
    }
}
