// What the last eight bytes of a record say, whatever they are.
ghost use Rattle.std.specs.Prelude.{◌≡◌};
ghost use Rattle.radio_record.specs.Record.{job_fields_read, stage_point, point_read};

use crate::{JobFields, NUMBERS, RADIO_RECORD_BYTES};
use radio_job::{Ending, JobPoint};

#[tactic(auto, unfolding(crate::specs::Record::job_fields_read))]
pub(crate) fn read_fields(r: &[u8; RADIO_RECORD_BYTES]) -> JobFields
    ensures { result ≡ job_fields_read r.now }
{
    JobFields {
        stage: r[NUMBERS + 2],
        page: r[NUMBERS + 3],
        number: u32::from(r[NUMBERS + 4]),
        code: u32::from(r[NUMBERS + 5]),
        offset: u32::from(u16::from_le_bytes([r[NUMBERS + 6], r[NUMBERS + 7]])),
    }
}

// The point of a running job.
fn stage_point(stage: u8, page: usize) -> Option<JobPoint>
    ensures { result ≡ stage_point stage page }
{
    match stage {
        0 => Some(JobPoint::AsksConfiguration),
        1 => Some(JobPoint::TakesConfiguration),
        2 => Some(JobPoint::ErasesArea),
        3 => Some(JobPoint::FeedsPage { page }),
        4 => Some(JobPoint::ErasesConfiguration),
        5 => Some(JobPoint::SetsConfiguration),
        6 => Some(JobPoint::SetsByte0),
        7 => Some(JobPoint::AsksPage { page }),
        8 => Some(JobPoint::TakesPage { page }),
        9 => Some(JobPoint::SetsByte1),
        _ => None,
    }
}

// The point that the fields tell, in range or not.
#[tactic(auto, unfolding(crate::specs::Record::point_read))]
pub(crate) fn read_point(f: JobFields) -> Option<JobPoint>
    ensures { result ≡ point_read f }
{
    if f.number == 0 {
        return stage_point(f.stage, usize::from(f.page));
    }
    Some(JobPoint::Finished {
        ending: Ending {
            number: f.number,
            code: f.code,
            offset: f.offset,
        },
    })
}
