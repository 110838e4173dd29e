// The map of what is set: a bit for each byte of the flash.
ghost use Rattle.std.specs.Prelude.{◌≡◌, ◌+◌, ◌*◌, ◌/◌, ◌%◌, ◌^◌, ◌≤◌, ◌<◌, length, MatchResult};
ghost use Rattle.numbers.specs.declared.Refusal.TheVariants.{SetTwice};
ghost use Rattle.hex_read.specs.Code.Map.{map_bit, Run, Clash};

use numbers::Refusal;

// A bit of a byte.
fn bit(b: u8, k: usize) -> u8
    requires { k < 8 }
    ensures { result ≡ map_bit b k }
{
    (b >> k) % 2
}

// A byte with one bit more.
fn with_bit(b: u8, k: usize) -> u8
    requires { (k < 8) × (map_bit b k ≡ 0) }
    ensures { result ≡ b + 2 ^ k }
{
    b + (1 << k)
}

// The map's length: there is no heap, so it has a bit for each of the 65,536 bytes of the largest flash.
pub(crate) const MAP_BYTES: usize = 8192;

// Marks a run of addresses; refused where one of them was marked before.
pub(crate) fn mark(map: &mut [u8; MAP_BYTES], a: usize, n: usize) -> Result<(), Refusal>
    requires { a + n ≤ 65536 }
    ensures { MatchResult result (λ _. Run map.old map.new a n) (λ e. (e ≡ SetTwice) × Clash map.old a n) }
{
    for i in 0..n {
        let k = (a + i) / 8;
        let p = (a + i) % 8;
        let b = map[k];
        if bit(b, p) != 0 {
            return Err(Refusal::SetTwice);
        }
        map[k] = with_bit(b, p);
    }
    Ok(())
}
