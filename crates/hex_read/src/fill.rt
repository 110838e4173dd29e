// Filling the image, once the file has been accepted.
ghost use Rattle.std.specs.Prelude.{◌≡◌, true, ℕ, ◌+◌, ◌-◌, ◌*◌, ◌≤◌, length, take, drop};
ghost use Rattle.std.proofs.lemmas.List.Edits.{sets};
ghost use Rattle.hex_format.specs.Digits.{octets};
ghost use Rattle.hex_format.specs.Lines.{is_line, count, address};
ghost use Rattle.hex_line.specs.Code.Shape.{first_line};
ghost use Rattle.hex_read.specs.Code.Fill.{Fillable, Window, filled};

use hex_line::digit::octet;
use hex_line::line::{count, end_bytes, word};

// A record at the front of what is left of the file: its address, its number of data bytes, and the length of
// its line.
#[derive(Clone, Copy)]
struct Front {
    address: usize,
    count: usize,
    bytes: usize,
}

// The bytes of the digits. Tried by zip with chunks_exact(2): at the end of that loop no name that an invariant may
// use says what was written into the bytes that iter_mut lent.
fn place(part: &mut [u8], s: &[u8])
    requires { length s.now ≡ 2 * length part.old }
    ensures { part.new ≡ octets s.now }
{
    for (i, b) in part.iter_mut().enumerate() {
        *b = octet(s[2 * i], s[2 * i + 1]);
    }
}

// The head of a line of a record's shape.
fn head(s: &[u8]) -> Front
    requires { is_line (first_line s.now) ≡ true }
    ensures { (result.address ≡ address s.now) × (result.count ≡ count s.now)
        × (result.bytes ≡ length (first_line s.now)) }
{
    let count = count(s);
    let address = word(s[3], s[4], s[5], s[6]);
    let end = 2 * count + 11;
    let bytes = end + end_bytes(&s[end..]).unwrap_or(0);
    Front {
        address,
        count,
        bytes,
    }
}

// A record's data into the image, which begins at an address.
fn put(image: &mut [u8], start: usize, s: &[u8], address: usize, count: usize)
    requires { (2 * count + 9 ≤ length s.now)
        × ((count ≡ 0 → ⊥) → (start ≤ address) × (address + count ≤ start + length image.old)) }
    ensures { image.new
        ≡ sets image.old (address - start) (octets (take (2 * count) (drop 9 s.now))) }
{
    if count == 0 {
        return;
    }
    let i = address - start;
    let e = i + count;
    let d = 2 * count + 9;
    place(&mut image[i..e], &s[9..d]);
}

// The bytes of an accepted file, from an address on, all that it sets. Lines differ in length, so the loop goes
// from line to line by a place: no range has these places.
pub(crate) fn fill(image: &mut [u8], start: usize, file: &[u8])
    requires { Fillable file.now start (length image.old) }
    ensures { (flash : ℕ) → Window file.now start (length image.old) flash
        → image.new ≡ filled flash start (length image.old) file.now }
{
    image.fill(0xff);
    let mut at: usize = 0;
    while at < file.len() {
        let h = head(&file[at..]);
        put(image, start, &file[at..], h.address, h.count);
        at += h.bytes;
    }
}
