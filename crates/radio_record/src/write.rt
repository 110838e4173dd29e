// The last eight bytes of a record.
ghost use Rattle.std.specs.Prelude.{◌≡◌};
ghost use Rattle.radio_record.specs.Record.{stage_fields, job_point_fields, point_bytes};

use crate::JobFields;
use radio_job::JobPoint;

fn stage_fields(stage: u8, page: usize) -> JobFields
    ensures { result ≡ stage_fields stage page }
{
    let [page, ..] = page.to_le_bytes();
    JobFields {
        stage,
        page,
        number: 0,
        code: 0,
        offset: 0,
    }
}

impl From<JobPoint> for JobFields {
    ghost from_gives = { λ p f. f ≡ job_point_fields p };

    fn from(point: JobPoint) -> JobFields {
        match point {
            JobPoint::AsksConfiguration => stage_fields(0, 0),
            JobPoint::TakesConfiguration => stage_fields(1, 0),
            JobPoint::ErasesArea => stage_fields(2, 0),
            JobPoint::FeedsPage { page } => stage_fields(3, page),
            JobPoint::ErasesConfiguration => stage_fields(4, 0),
            JobPoint::SetsConfiguration => stage_fields(5, 0),
            JobPoint::SetsByte0 => stage_fields(6, 0),
            JobPoint::AsksPage { page } => stage_fields(7, page),
            JobPoint::TakesPage { page } => stage_fields(8, page),
            JobPoint::SetsByte1 => stage_fields(9, 0),
            JobPoint::Finished { ending } => JobFields {
                stage: 0,
                page: 0,
                number: ending.number,
                code: ending.code,
                offset: ending.offset,
            },
        }
    }
}

// The bytes that tell the image's length and the point; both by themselves, since a job is kept where they are lawful.
#[tactic(auto, unfolding(crate::specs::Record::point_bytes, crate::specs::Record::fields_laid))]
pub fn point_bytes(bytes: usize, point: JobPoint) -> [u8; 8]
    ensures { result ≡ point_bytes bytes point }
{
    let f = JobFields::from(point);
    let [bytes_low, bytes_high, ..] = bytes.to_le_bytes();
    let [number, ..] = f.number.to_le_bytes();
    let [code, ..] = f.code.to_le_bytes();
    let [offset_low, offset_high, ..] = f.offset.to_le_bytes();
    [
        bytes_low,
        bytes_high,
        f.stage,
        f.page,
        number,
        code,
        offset_low,
        offset_high,
    ]
}
