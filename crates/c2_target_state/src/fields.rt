// The numbers of a state, each in its field.
ghost use Rattle.std.specs.Prelude.{◌≡◌, ◌%◌};

// A cast loses nothing here, so what is over goes by the remainder. One function for both sizes is no plainer: it
// needs a trait for two lines.
pub(crate) fn low(x: usize) -> u8
    ensures { result ≡ x % 256 }
{
    (x % 256) as u8
}

pub(crate) fn word(x: usize) -> u16
    ensures { result ≡ x % 65536 }
{
    (x % 65536) as u16
}
