// A signed margin as the numbers that tell it without a sign: whether it is negative, its magnitude, and its 32 bits in two's complement, which a reply
// holds (RULES 14). docs/CLAIMS names all three, so those that no call needs stay too.
ghost use Rattle.std.specs.Prelude.{◌≡◌, nat_abs};
ghost use Rattle.judge.specs.Signed.{is_negative, signed_bits};

pub fn is_negative(margin: i32) -> bool
    ensures { result ≡ is_negative margin }
{
    margin < 0
}

// The margin without its sign.
pub fn magnitude(margin: i32) -> u32
    ensures { result ≡ nat_abs margin }
{
    margin.unsigned_abs()
}

// The margin's bits as an unsigned number.
pub fn twos_complement(margin: i32) -> u32
    ensures { result ≡ signed_bits margin }
{
    margin.cast_unsigned()
}
