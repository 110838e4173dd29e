// What a call writes into the record.
ghost use Rattle.std.specs.Prelude.{◌≡◌, cond, eqb, length};
ghost use Rattle.radio_advance.specs.Code.Kept.{takes_old, merged_held, held_after, held_at};

use radio_image::PAGE_BYTES;
use radio_job::JobPoint;
use radio_record::{MASK, NUMBERS, RADIO_RECORD_BYTES, point_bytes};

// Our byte where the mask names it, else the old one.
fn merged_byte(mask: u8, ours: u8, old: u8) -> u8
    ensures { result ≡ cond (eqb mask 0xFF) ours old }
{
    if mask == 0xFF { ours } else { old }
}

// Merges the old configuration into the page that the record holds, by the mask that it holds. Page and mask lie in
// one array, which the loop reads and writes, so it goes by the place of the old byte: a `zip` of its parts is no plainer.
fn merge(held: &mut [u8; RADIO_RECORD_BYTES], old: &[u8])
    requires { length old.now ≡ 256 }
    ensures { held.new ≡ merged_held held.old old.now }
{
    for (i, byte) in old.iter().enumerate() {
        held[i] = merged_byte(held[MASK + i], held[i], *byte);
    }
}

// Takes the old configuration into the record, where it is awaited and this is it.
#[tactic(auto, unfolding(crate::specs::Code::Kept::held_after))]
pub(crate) fn keep_page(point: JobPoint, held: &mut [u8; RADIO_RECORD_BYTES], reply: &[u8])
    ensures { held.new ≡ held_after (takes_old point) held.old reply.now }
{
    if matches!(point, JobPoint::TakesConfiguration) && reply.len() == PAGE_BYTES {
        merge(held, reply);
    }
}

// Writes image length and point into the record.
pub(crate) fn keep_point(bytes: usize, point: JobPoint, held: &mut [u8; RADIO_RECORD_BYTES])
    ensures { held.new ≡ held_at bytes point held.old }
{
    held[NUMBERS..].copy_from_slice(&point_bytes(bytes, point));
}
