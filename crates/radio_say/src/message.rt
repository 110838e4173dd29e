// The messages of a job, one by one.
ghost use Rattle.std.specs.Prelude.{◌≡◌, [], ◌++◌, ◌<◌, take, drop};
ghost use Rattle.radio_job.specs.declared.JobPoint.TheVariants.{FeedsPage};
ghost use Rattle.radio_job.specs.Image.{page_count};
ghost use Rattle.radio_job.specs.Job.{command_message};
ghost use Rattle.radio_calls.specs.Calls.{takes_answer, message_put};
ghost use Rattle.radio_say.specs.Code.Say.{point_says, asks_for};

use radio_calls::RadioAdvanced;
use radio_command::{CommandName, RadioCommand};
use radio_image::PAGE_BYTES;
use radio_point::next_page;
use radio_record::RADIO_RECORD_BYTES;

// The message and the length of the reply that a running job gives.
pub(crate) fn says(send: u32, expect: u32) -> RadioAdvanced
    ensures { result ≡ asks_for send expect }
{
    RadioAdvanced {
        number: 0,
        code: 0,
        offset: 0,
        send,
        expect,
    }
}

// A command, to be confirmed. Name and parameters come one by one: a RadioCommand would spell all four at each call.
pub(crate) fn command(
    name: CommandName,
    p0: u8,
    p1: u8,
    p2: u8,
    out: &mut [u8; PAGE_BYTES],
) -> RadioAdvanced
    ensures value { result ≡ asks_for 8 8 }
    ensures out_after { out.new ≡ command_message name p0 p1 p2 ++ drop 8 out.old }
{
    out[..8].copy_from_slice(&radio_command::build(RadioCommand { name, p0, p1, p2 }));
    says(8, 8)
}

// A page of the image. The module answers the last alone.
pub(crate) fn feed(page: usize, image: &[u8], out: &mut [u8; PAGE_BYTES]) -> RadioAdvanced
    requires { page < page_count image.now }
    ensures value { result ≡ takes_answer (point_says (FeedsPage page) image.now []) }
    ensures out_after { out.new ≡ message_put (point_says (FeedsPage page) image.now []) out.old }
{
    radio_image::put_page(image, page, out);
    match next_page(page, image.len()) {
        Some(_) => says(256, 0),
        None => says(256, 8),
    }
}

// The configuration page.
pub(crate) fn configuration(
    held: &[u8; RADIO_RECORD_BYTES],
    out: &mut [u8; PAGE_BYTES],
) -> RadioAdvanced
    ensures value { result ≡ asks_for 256 8 }
    ensures out_after { out.new ≡ take 256 held.now }
{
    out.copy_from_slice(&held[..PAGE_BYTES]);
    says(256, 8)
}
