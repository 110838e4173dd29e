// How a job stands after a reply: it goes on, or it has ended.
ghost use Rattle.std.specs.Prelude.{◌≡◌, ◌<◌, ◌≤◌, length};
ghost use Rattle.radio_job.specs.declared.JobPoint.TheVariants.{FeedsPage, TakesPage};
ghost use Rattle.radio_job.specs.Image.{page_count};
ghost use Rattle.radio_job.specs.Job.{answer_ending};
ghost use Rattle.radio_job.specs.Advance.{length_ending, last_ending, reply_ending};
ghost use Rattle.radio_point.specs.Code.After.{ending_of_number};

use crate::fits::PointOf;
use crate::next::next_page;
use numbers::DONE;
use radio_command::{BAD_MESSAGE, CommandName, ERROR_ANSWER, PAGE_DIFFERS, read_command};
use radio_image::PAGE_BYTES;
use radio_job::{Ending, JobPoint};

// An end that has neither code nor offset.
pub(crate) fn ends(number: u32) -> Ending
    ensures { result ≡ ending_of_number number }
{
    Ending {
        number,
        code: 0,
        offset: 0,
    }
}

#[tactic(auto, unfolding(radio_job::specs::Job::answer_ending))]
fn answer_ending(reply: &[u8]) -> Result<(), Ending>
    ensures { result ≡ answer_ending reply.now }
{
    let Some(c) = read_command(reply) else {
        return Err(ends(BAD_MESSAGE));
    };
    match c.name {
        CommandName::InfOk => Ok(()),
        CommandName::InfError => Err(Ending {
            number: ERROR_ANSWER,
            code: u32::from(c.p0),
            offset: 0,
        }),
        _ => Err(ends(BAD_MESSAGE)),
    }
}

#[tactic(auto, unfolding(radio_job::specs::Advance::length_ending))]
fn length_ending(expect: usize, reply: &[u8]) -> Result<(), Ending>
    ensures { result ≡ length_ending expect reply.now }
{
    if reply.len() == expect {
        Ok(())
    } else {
        Err(ends(BAD_MESSAGE))
    }
}

// A page of the image that was sent back, held against the image.
#[tactic(auto, unfolding(radio_job::specs::Advance::length_ending))]
fn page_ending(page: usize, image: &[u8], reply: &[u8]) -> Result<(), Ending>
    requires { (page < page_count image.now) × (length image.now ≤ 32256) }
    ensures { result ≡ reply_ending (TakesPage page) image.now reply.now }
{
    length_ending(PAGE_BYTES, reply)?;
    let mut wanted = [0u8; PAGE_BYTES];
    radio_image::put_page(image, page, &mut wanted);
    let at = radio_image::shared(reply, &wanted);
    if at == PAGE_BYTES {
        return Ok(());
    }
    Err(Ending {
        number: PAGE_DIFFERS,
        code: 0,
        offset: (PAGE_BYTES * page + at) as u32,
    })
}

// The module answers the last page alone.
fn feed_ending(page: usize, image: &[u8], reply: &[u8]) -> Result<(), Ending>
    ensures { result ≡ reply_ending (FeedsPage page) image.now reply.now }
{
    match next_page(page, image.len()) {
        Some(_) => length_ending(0, reply),
        None => answer_ending(reply),
    }
}

fn last_ending(reply: &[u8]) -> Result<(), Ending>
    ensures { result ≡ last_ending (answer_ending reply.now) }
{
    answer_ending(reply)?;
    Err(ends(DONE))
}

pub(crate) fn reply_ending(at: PointOf, reply: &[u8]) -> Result<(), Ending>
    ensures { result ≡ reply_ending at.entry.point at.entry.image.now reply.now }
{
    match at.point {
        JobPoint::TakesConfiguration => length_ending(PAGE_BYTES, reply),
        JobPoint::FeedsPage { page } => feed_ending(page, at.image, reply),
        JobPoint::TakesPage { page } => page_ending(page, at.image, reply),
        JobPoint::SetsByte1 => last_ending(reply),
        JobPoint::Finished { ending } => Err(ending),
        _ => answer_ending(reply),
    }
}
