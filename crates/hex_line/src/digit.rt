// Hex digits, and the bytes that they stand for.
ghost use Rattle.std.specs.Prelude.{◌≡◌, ◌<◌, MatchOption};
ghost use Rattle.hex_format.specs.Digits.{digit, octet};

// The value of a digit of either case; none for a character that is no digit, where the definition has 16. How far
// it lies from the first of its kind is one test, where a match on three ranges takes up to six; the cases differ in
// one bit.
#[tactic(auto, using(std::proofs::lemmas::Bool::Decides::nat_tests, crate::proofs::Laws::Cases::letter, crate::proofs::Laws::Cases::other), unfolding(hex_format::specs::Digits::digit))]
pub fn digit(a: u8) -> Option<u8>
    ensures { MatchOption result (digit a ≡ 16) (λ d. (d ≡ digit a) × (d < 16)) }
{
    let decimal = a.wrapping_sub(b'0');
    if decimal < 10 {
        return Some(decimal);
    }
    let letter = (a | 0x20).wrapping_sub(b'a');
    if letter < 6 {
        return Some(letter + 10);
    }
    None
}

// The byte of two digits, the high one first.
pub fn octet(high: u8, low: u8) -> u8
    ensures { result ≡ octet high low }
{
    digit(high).unwrap_or(0) * 16 + digit(low).unwrap_or(0)
}
