// The bytes of a record that a session leaves at 0.
ghost use Rattle.std.specs.Prelude.{◌≡◌};
ghost use Rattle.c2_record.specs.Code.Spare.{all_zero, unused, spare};

use crate::words::two_bytes;
use crate::{NUMBER, OFFSET, OFFSET_HIGH, RECORD_BYTES};

// Whether the bytes of a running point, 10 to 17, are 0. Compilers make one load of four bytes read as one number.
#[tactic(auto, using(laws::proofs::Pick::picks), unfolding(crate::specs::Code::Spare::all_zero))]
fn no_point(r: &[u8; RECORD_BYTES]) -> bool
    ensures { result ≡ all_zero r.now 10 }
{
    u32::from_le_bytes([r[10], r[11], r[12], r[13]]) == 0
        && u32::from_le_bytes([r[14], r[15], r[16], r[17]]) == 0
}

// Whether the fields not in use are 0: the offset of a running session, or the point of one that has ended.
#[tactic(auto, using(laws::proofs::Pick::picks), unfolding(crate::specs::Code::Spare::unused))]
pub(crate) fn unused(r: &[u8; RECORD_BYTES]) -> bool
    ensures { result ≡ unused r.now }
{
    if r[NUMBER] == 0 {
        two_bytes(r[OFFSET], r[OFFSET_HIGH]) == 0
    } else {
        no_point(r)
    }
}

// Whether the spare bytes, 28 to 31, are 0.
#[tactic(auto, unfolding(crate::specs::Code::Spare::spare))]
pub(crate) fn spare(r: &[u8; RECORD_BYTES]) -> bool
    ensures { result ≡ spare r.now }
{
    u32::from_le_bytes([r[28], r[29], r[30], r[31]]) == 0
}
