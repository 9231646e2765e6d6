// Writing a component whose stored common period is known to be right (budget::known): as the public operation, without working the true one out.
// It differs from that one in the check that it makes first: a parameter for that check would be longer than both.
ghost use Rattle.std.specs.Prelude.{◌≡◌, length};
ghost use Rattle.record.specs.Writing.{written, written_in, buffered};
ghost use Rattle.transfer.specs.Writing.{component_bytes, writing_refusal};

use crate::write::store;
use budget::component::check_ranges;
use budget::known::Known;
use budget::refusal::Refusal;

pub fn write_component(buffer: &mut [u8], at: usize, known: Known) -> Result<usize, Refusal>
    ensures answer { written_in result ≡ written (writing_refusal (length buffer.old) at known.component) at (component_bytes known.component) }
    ensures bytes { buffer.new ≡ buffered (writing_refusal (length buffer.old) at known.component) buffer.old at (component_bytes known.component) }
{
    check_ranges(known.component)?;
    store(buffer, at, known.component)
}
