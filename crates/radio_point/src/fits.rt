// The points and ends that there are.
ghost use Rattle.std.specs.Prelude.{◌≡◌, ◌&&◌, true, false, length, MatchOption};
ghost use Rattle.radio_job.specs.Image.{image_fits};
ghost use Rattle.radio_job.specs.State.{ending_fits, point_fits};

use numbers::DONE;
use radio_command::{BAD_MESSAGE, ERROR_ANSWER, PAGE_DIFFERS};
use radio_image::{PAGE_BYTES, image_fits, pages_for};
use radio_job::{Ending, JobPoint};

#[tactic(auto, unfolding(radio_job::specs::State::ending_fits))]
fn ending_fits(bytes: usize, e: Ending) -> bool
    ensures { result ≡ ending_fits bytes e }
{
    match e.number {
        ERROR_ANSWER => e.code < 256 && e.offset == 0,
        PAGE_DIFFERS => e.code == 0 && (e.offset as usize) / PAGE_BYTES < pages_for(bytes),
        DONE | BAD_MESSAGE => e.code == 0 && e.offset == 0,
        _ => false,
    }
}

// Whether a point is one of a job with an image of so many bytes.
pub fn point_fits(bytes: usize, point: JobPoint) -> bool
    ensures { result ≡ point_fits bytes point }
{
    match point {
        JobPoint::FeedsPage { page } | JobPoint::AsksPage { page } | JobPoint::TakesPage { page } =>
            { page < pages_for(bytes) }
        JobPoint::Finished { ending } => ending_fits(bytes, ending),
        _ => true,
    }
}

// A point of a job, with the job's image.
#[derive(Clone, Copy)]
pub struct PointOf<'a> {
    pub point: JobPoint,
    pub image: &'a [u8],
    ghost image_fits: { image_fits (length image.now) ≡ true },
    ghost point_fits: { point_fits (length image.now) point ≡ true },
}

// The point with the image, where the image fits and the point is one of a job with it.
pub fn point_of(point: JobPoint, image: &[u8]) -> Option<PointOf>
    ensures { MatchOption result (image_fits (length image.now) && point_fits (length image.now) point ≡ false)
        (λ at. (at.point ≡ point) × (at.image.now ≡ image.now)) }
{
    if image_fits(image.len()) && point_fits(image.len(), point) {
        Some(PointOf { point, image })
    } else {
        None
    }
}
