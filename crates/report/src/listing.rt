// The whole listing of a sheet as one page of bytes: a line for each component and one for the end, or the one line of a refused sheet (RULES 15).
ghost use Rattle.std.specs.Prelude.{◌+◌, ◌≤◌};
ghost use Rattle.report.specs.Listing.{Listed};
ghost use Rattle.report.specs.inner.Paged.{Lines, Paged};
ghost use Rattle.tree.specs.inner.Known.{Known};

use crate::line::Line;
use crate::lines::{component_line, end_line, refused_line};
use sheet::contents::{Contents, contents_of};
use transfer::pair::read_pairs;
use tree::offer::Offer;
use tree::turn::{Pass, turn_at};

// Room for the longest listing: 256 components and the end, a line of at most 64 bytes each.
pub type Page = [u8; 16448];

// Puts a line behind what the page holds, and answers where it ends.
fn put_line(page: &mut Page, at: usize, line: &Line) -> usize
    requires { at + 64 ≤ 16448 }
    ensures { Paged page.old at line.now page.new result }
{
    let bytes = line.as_slice();
    let end = at + bytes.len();
    page[at..end].copy_from_slice(bytes);
    end
}

// The lines of the components in their order, each read between its edges and judged after its children. The host's entries have a loop of their own: a
// closure for both would bring the room of what each writes into the pass's contract.
#[tactic(auto, using(tree::proofs::Pass::known_within))]
fn add_components(sheet: &[u8], contents: &Contents, page: &mut Page) -> usize
    requires { Known sheet.now contents.now.edges contents.now.count }
    ensures { Lines sheet.now page.old contents.now.count page.new result }
{
    // The host's pass and that of one place begin alike. No function could answer a pass, which is lent the pairs that are read here; a constructor of one would be no shorter.
    let count = contents.count;
    let pairs = read_pairs(&sheet[contents.edges[count]..]);
    let pass = Pass {
        sheet,
        edges: &contents.edges,
        pairs: pairs.as_slice(),
    };
    let mut offers = [Offer::NONE; 256];
    let mut at = 0;
    for place in 0..count {
        let placed = turn_at(pass, place, &mut offers);
        at = put_line(page, at, &component_line(placed));
    }
    at
}

// Puts the listing of a sheet at the front of a page, and answers its length. The sheet is walked once.
pub fn listing(sheet: &[u8], page: &mut Page) -> usize
    ensures { Listed sheet.now page.old page.new result }
{
    match contents_of(sheet) {
        Ok(contents) => {
            let at = add_components(sheet, &contents, page);
            put_line(page, at, &end_line(contents.count))
        }
        Err(fault) => put_line(page, 0, &refused_line(fault)),
    }
}
