// Hex digits, upper case.
ghost use Rattle.std.specs.Prelude.{◌≡◌, ◌*◌, ◌<◌, length};
ghost use Rattle.hex_format.specs.Digits.{upper, text};

// A digit, upper case.
#[tactic(auto, using(std::proofs::lemmas::Bool::Decides::nat_tests), unfolding(hex_format::specs::Digits::upper))]
fn upper(n: u8) -> u8
    requires { n < 16 }
    ensures { result ≡ upper n }
{
    if n < 10 { b'0' + n } else { b'A' + (n - 10) }
}

// The digits of bytes. Tried by zip with chunks_exact_mut(2): at the end of that loop no name that an invariant may
// use says what was written into the pairs that it lent.
pub(crate) fn put_text(out: &mut [u8], s: &[u8])
    requires { length out.old ≡ 2 * length s.now }
    ensures { out.new ≡ text s.now }
{
    for (i, b) in s.iter().enumerate() {
        out[2 * i] = upper(b / 16);
        out[2 * i + 1] = upper(b % 16);
    }
}
