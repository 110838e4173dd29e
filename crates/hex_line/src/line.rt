// A line at the front of what is left of a file: what it is, and how long it is. The end of a line is not
// looked for: a record's length byte says where it has to be.
ghost use Rattle.std.specs.Prelude.{◌≡◌, false, true, ◌+◌, ◌*◌, ◌%◌, ◌<◌, length, MatchOption};
ghost use Rattle.hex_format.specs.Digits.{octet, octets, all_digits};
ghost use Rattle.hex_format.specs.Lines.{sum, count, digits, kinded};
ghost use Rattle.hex_line.specs.Code.Shape.{line_end, shaped, judgement, judgement_at};

use super::digit::{digit, octet};
use hex_format::{Line, Record};
use numbers::Refusal;

// What a line is, and its length, 0 where it has no record's shape: `judge` promises both on a refusal too, so
// the length stands beside the result.
#[derive(Clone, Copy, Debug, PartialEq, Eq)]
pub struct Judged {
    pub line: Line,
    pub bytes: usize,
}

// The length of a line that has a record's shape; its number of data bytes; the low byte of its record's sum.
#[derive(Clone, Copy)]
struct Shape {
    bytes: usize,
    count: usize,
    sum: u8,
}

// The low byte of the sum of the digits' bytes; none where a character is no digit.
fn weigh(s: &[u8]) -> Option<u8>
    requires { length s.now % 2 ≡ 0 }
    ensures { MatchOption result (all_digits s.now ≡ false) (λ t. (all_digits s.now ≡ true) × (t ≡ sum (octets s.now) % 256)) }
{
    let mut sum: u8 = 0;
    for pair in s.chunks_exact(2) {
        let high = digit(pair[0])?;
        let low = digit(pair[1])?;
        sum = sum.wrapping_add(high * 16 + low);
    }
    Some(sum)
}

// The length of the line end at the front: LF or CR LF.
#[tactic(auto, using(crate::proofs::Laws::Shape::line_ends))]
pub fn end_bytes(s: &[u8]) -> Option<usize>
    ensures { MatchOption result (line_end s.now ≡ 0) (λ n. (n ≡ line_end s.now) × (0 < n)) }
{
    match s {
        [b'\n', ..] => Some(1),
        [b'\r', b'\n', ..] => Some(2),
        _ => None,
    }
}

// The number of data bytes, for any text: a digit that is missing is none.
#[tactic(auto, unfolding(hex_format::specs::Lines::count))]
pub fn count(s: &[u8]) -> usize
    ensures { (result ≡ count s.now) × (result < 256) }
{
    let (high, low) = match s {
        [_, high, low, ..] => (*high, *low),
        [_, high] => (*high, 0),
        _ => (0, 0),
    };
    usize::from(octet(high, low))
}

// The number of four digits.
pub fn word(a: u8, b: u8, c: u8, d: u8) -> usize
    ensures { result ≡ 256 * octet a b + octet c d }
{
    256 * usize::from(octet(a, b)) + usize::from(octet(c, d))
}

// The shape of a line that has a record's.
fn measure(s: &[u8]) -> Option<Shape>
    ensures { MatchOption result (shaped s.now ≡ 0)
        (λ m. (m.bytes ≡ shaped s.now) × (0 < m.bytes) × (m.sum ≡ sum (octets (digits s.now)) % 256)
        × (2 * count s.now + 11 < length s.now) × (m.count ≡ count s.now)) }
{
    if s.len() < 3 {
        return None;
    }
    let count = count(s);
    let end = 2 * count + 11;
    if s.len() <= end || s[0] != b':' {
        return None;
    }
    let sum = weigh(&s[1..end])?;
    let bytes = end + end_bytes(&s[end..])?;
    Some(Shape { bytes, count, sum })
}

// What a record is by type, length and address.
#[tactic(auto, using(std::proofs::lemmas::Bool::Decides::nat_tests), unfolding(hex_format::specs::Lines::kinded))]
fn judge_kind(flash: usize, kind: u8, count: usize, address: usize) -> Line
    ensures { result ≡ kinded flash kind count address }
{
    match kind {
        0 if count == 0 || (count <= flash && address <= flash - count) => {
            Ok(Record::Data(address, count))
        }
        1 if count == 0 && address == 0 => Ok(Record::Last),
        _ => Err(Refusal::BadHexRecord),
    }
}

// The first line of what is left of a file, by itself, for a flash of so many bytes.
pub fn judge(s: &[u8], flash: usize) -> Judged
    ensures { judgement result.line result.bytes ≡ judgement_at flash s.now }
{
    let Some(Shape { bytes, count, sum }) = measure(s) else {
        return Judged {
            line: Err(Refusal::BadLine),
            bytes: 0,
        };
    };
    if sum != 0 {
        return Judged {
            line: Err(Refusal::BadChecksum),
            bytes,
        };
    }
    let line = judge_kind(
        flash,
        octet(s[7], s[8]),
        count,
        word(s[3], s[4], s[5], s[6]),
    );
    Judged { line, bytes }
}
