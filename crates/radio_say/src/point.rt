// What a job says at a point.
ghost use Rattle.std.specs.Prelude.{◌≡◌, take};
ghost use Rattle.radio_calls.specs.Calls.{takes_answer, message_put};
ghost use Rattle.radio_say.specs.Code.Say.{point_says, say_answer, say_out};

use crate::message::{command, configuration, feed, says};
use radio_calls::RadioAdvanced;
use radio_command::CommandName;
use radio_image::{PAGE_BYTES, pages_for};
use radio_job::JobPoint;
use radio_point::{PointOf, point_of};
use radio_record::RADIO_RECORD_BYTES;

// The page of the flash that holds the configuration.
const CONFIGURATION: u8 = 127;

// What a job says at one of its points, written into a buffer of one page.
fn say_at(at: PointOf, held: &[u8; RADIO_RECORD_BYTES], out: &mut [u8; PAGE_BYTES]) -> RadioAdvanced
    ensures value { result ≡ takes_answer (point_says at.entry.point at.entry.image.now (take 256 held.now)) }
    ensures out_after { out.new
        ≡ message_put (point_says at.entry.point at.entry.image.now (take 256 held.now)) out.old }
{
    match at.point {
        JobPoint::AsksConfiguration => command(CommandName::RdFlashPage, CONFIGURATION, 0, 0, out),
        JobPoint::TakesConfiguration => says(0, 256),
        JobPoint::ErasesArea => {
            let pages = pages_for(at.image.len()) as u8;
            command(CommandName::WrPrgArea, pages, 0, 0, out)
        }
        JobPoint::FeedsPage { page } => feed(page, at.image, out),
        JobPoint::ErasesConfiguration => command(
            CommandName::WrFlashPage,
            CONFIGURATION,
            0,
            0,
            out,
        ),
        JobPoint::SetsConfiguration => configuration(held, out),
        JobPoint::SetsByte0 => command(CommandName::WrFlashByte, CONFIGURATION, 0, held[0], out),
        JobPoint::AsksPage { page } => command(CommandName::RdFlashPage, page as u8, 0, 0, out),
        JobPoint::TakesPage { .. } => says(0, 256),
        JobPoint::SetsByte1 => command(CommandName::WrFlashByte, CONFIGURATION, 1, held[1], out),
        JobPoint::Finished { ending } => RadioAdvanced::from(ending),
    }
}

// What a job says at a point, written into the buffer. Nothing is said where there is no room, where the
// record has another length, or at a point that is none of a job with this image.
pub fn say(point: JobPoint, image: &[u8], held: &[u8], out: &mut [u8]) -> RadioAdvanced
    ensures value { result ≡ say_answer point image.now held.now out.old }
    ensures out_after { out.new ≡ say_out point image.now held.now out.old }
{
    let Ok(held) = <&[u8; RADIO_RECORD_BYTES]>::try_from(held) else {
        return says(0, 0);
    };
    let Some(at) = point_of(point, image) else {
        return says(0, 0);
    };
    let Some(out) = out.first_chunk_mut::<PAGE_BYTES>() else {
        return says(0, 0);
    };
    say_at(at, held, out)
}
