// The job that a record keeps, if it keeps one.
ghost use Rattle.std.specs.Prelude.{◌≡◌};
ghost use Rattle.radio_record.specs.Record.{numbers_checked, job_kept};

use crate::read::{read_fields, read_point};
use crate::write::point_bytes;
use crate::{JobKept, MASK, NUMBERS, RADIO_RECORD_BYTES};
use radio_image::{image_fits, mask_fits};
use radio_job::JobPoint;
use radio_point::point_fits;

// The job that was read, if it is one and these are its numbers.
fn checked(bytes: usize, point: JobPoint, told: &[u8]) -> Option<JobKept>
    ensures { result ≡ numbers_checked bytes point told.now }
{
    if image_fits(bytes)
        && point_fits(bytes, point)
        && told == point_bytes(bytes, point).as_slice()
    {
        Some(JobKept { bytes, point })
    } else {
        None
    }
}

// The job whose record this is, if there is one.
pub fn unpack(r: &[u8]) -> Option<JobKept>
    ensures { result ≡ job_kept r.now }
{
    let Ok(r) = <&[u8; RADIO_RECORD_BYTES]>::try_from(r) else {
        return None;
    };
    let point = read_point(read_fields(r))?;
    if !mask_fits(&r[MASK..NUMBERS]) {
        return None;
    }
    let bytes = usize::from(u16::from_le_bytes([r[NUMBERS], r[NUMBERS + 1]]));
    checked(bytes, point, &r[NUMBERS..])
}
