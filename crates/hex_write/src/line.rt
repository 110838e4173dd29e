// One line of the file.
ghost use Rattle.std.specs.Prelude.{◌≡◌, ◌%◌, [], ◌∷◌, ◌++◌, length};
ghost use Rattle.hex_format.specs.Lines.{sum};
ghost use Rattle.hex_format.specs.Writing.{checksum, line_of};

use super::digit::put_text;

// The sum of bytes, kept to its low byte.
fn total(s: &[u8]) -> u8
    ensures { result ≡ sum s.now % 256 }
{
    s.iter().fold(0, |t: u8, b| t.wrapping_add(*b))
}

// What makes the sum 0.
#[tactic(auto, unfolding(hex_format::specs::Writing::checksum))]
fn check(s: &[u8]) -> u8
    ensures { result ≡ checksum s.now }
{
    total(s).wrapping_neg()
}

// The bytes of a data record.
fn put_record(out: &mut [u8; 21], high: u8, low: u8, s: &[u8])
    requires { length s.now ≡ 16 }
    ensures { out.new ≡ (16 ∷ high ∷ low ∷ 0 ∷ s.now) ++ (checksum (16 ∷ high ∷ low ∷ 0 ∷ s.now) ∷ []) }
{
    out[0] = 16;
    out[1] = high;
    out[2] = low;
    out[3] = 0;
    out[4..20].copy_from_slice(s);
    let k = check(&out[..20]);
    out[20] = k;
}

// A line of 16 bytes. Both are parts of slices, not arrays: `put_lines` says why.
pub(crate) fn put_line(out: &mut [u8], high: u8, low: u8, s: &[u8])
    requires { (length s.now ≡ 16) × (length out.old ≡ 44) }
    ensures { out.new ≡ line_of (16 ∷ high ∷ low ∷ 0 ∷ s.now) }
{
    let mut held = [0u8; 21];
    put_record(&mut held, high, low, s);
    out[0] = b':';
    put_text(&mut out[1..43], &held);
    out[43] = b'\n';
}
