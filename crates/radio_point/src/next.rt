// The point after a reply.
ghost use Rattle.std.specs.Prelude.{◌≡◌};
ghost use Rattle.radio_job.specs.Advance.{next_point};
ghost use Rattle.radio_point.specs.Code.After.{page_behind, job_point_after};

use crate::ending::{ends, reply_ending};
use crate::fits::point_of;
use numbers::DONE;
use radio_image::pages_for;
use radio_job::JobPoint;

// The page behind one of the image's, if there is one.
pub fn next_page(page: usize, bytes: usize) -> Option<usize>
    ensures { result ≡ page_behind page bytes }
{
    if page < pages_for(bytes).saturating_sub(1) {
        Some(page + 1)
    } else {
        None
    }
}

fn next_point(point: JobPoint, bytes: usize) -> JobPoint
    ensures { result ≡ next_point point bytes }
{
    match point {
        JobPoint::AsksConfiguration => JobPoint::TakesConfiguration,
        JobPoint::TakesConfiguration => JobPoint::ErasesArea,
        JobPoint::ErasesArea => JobPoint::FeedsPage { page: 0 },
        JobPoint::FeedsPage { page } => match next_page(page, bytes) {
            Some(page) => JobPoint::FeedsPage { page },
            None => JobPoint::ErasesConfiguration,
        },
        JobPoint::ErasesConfiguration => JobPoint::SetsConfiguration,
        JobPoint::SetsConfiguration => JobPoint::SetsByte0,
        JobPoint::SetsByte0 => JobPoint::AsksPage { page: 0 },
        JobPoint::AsksPage { page } => JobPoint::TakesPage { page },
        JobPoint::TakesPage { page } => match next_page(page, bytes) {
            Some(page) => JobPoint::AsksPage { page },
            None => JobPoint::SetsByte1,
        },
        JobPoint::SetsByte1 => JobPoint::Finished { ending: ends(DONE) },
        JobPoint::Finished { .. } => point,
    }
}

// The point after a reply to a job with this image: the next, or the end that the reply brings. A point that is none of
// its points stays.
#[tactic(auto, unfolding(crate::specs::Code::After::job_point_after))]
pub fn point_after(point: JobPoint, image: &[u8], reply: &[u8]) -> JobPoint
    ensures { result ≡ job_point_after point image.now reply.now }
{
    let Some(at) = point_of(point, image) else {
        return point;
    };
    match reply_ending(at, reply) {
        Ok(()) => next_point(point, image.len()),
        Err(ending) => JobPoint::Finished { ending },
    }
}
