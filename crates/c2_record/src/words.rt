// The two bytes of a field, its low one first, and what is kept of a number in them.
ghost use Rattle.std.specs.Prelude.{◌≡◌, ◌+◌, ◌*◌, ◌/◌, ◌%◌};

// `low(x)` is plainer than `x.to_le_bytes()[0]`, which a record would have twelve times.
pub(crate) fn low(x: u32) -> u8
    ensures { result ≡ x % 256 }
{
    x.to_le_bytes()[0]
}

pub(crate) fn high(x: u32) -> u8
    ensures { result ≡ x / 256 % 256 }
{
    x.to_le_bytes()[1]
}

// A byte as it is. What the bytes of a struct are is known where they are arguments: the contract says that none is
// more than a byte.
pub(crate) fn byte(x: u8) -> u8
    ensures { result ≡ x % 256 }
{
    x
}

pub(crate) fn two_bytes(l: u8, h: u8) -> u32
    ensures { result ≡ l + h * 256 }
{
    u32::from(u16::from_le_bytes([l, h]))
}
