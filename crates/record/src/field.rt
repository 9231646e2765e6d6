// One field of a record: a number in so many bytes, its lowest byte first (RULES 10).
ghost use Rattle.std.specs.Prelude.{◌≡◌, ◌^◌, ◌≤◌, ◌<◌, length};
ghost use Rattle.record.specs.Field.{encode, field};

// The number that stands in a field. By u32::from_le_bytes of a copy that is filled up, records with a stated J took up to twice as
// long to read (measured).
pub(crate) fn number_in(bytes: &[u8]) -> u32
    requires { length bytes.now ≤ 4 }
    ensures value { result ≡ field bytes.now 0 (length bytes.now) }
    ensures fits { result < 256 ^ length bytes.now }
{
    let mut number = 0;
    for byte in bytes.iter().rev() {
        number = u32::from(*byte) + 256 * number;
    }
    number
}

// Fills a field with a number.
pub(crate) fn put_number(bytes: &mut [u8], number: u32)
    requires { length bytes.old ≤ 4 }
    ensures { bytes.new ≡ encode (length bytes.old) number }
{
    let wide = number.to_le_bytes();
    let end = bytes.len();
    bytes[..end].copy_from_slice(&wide[..end]);
}
