// Reads an image from standard input and writes what is reported of it: how many pages were programmed, how
// many replies that took, and the outcome.
#![tactic(auto)]

ghost use Rattle.std.specs.Prelude.{◌≤◌, length, IfOk};

use c2_report::{Report, report_of};
use std::io;
use std::io::Read;

// No more of the input is looked at than the largest flash holds.
const MOST: usize = 65536;

// Fills the buffer from its start, as far as there is input, and gives how many bytes that are. The library has this
// for a Vec alone, and there is no heap here.
fn read_full(input: &mut impl Read, buffer: &mut [u8]) -> io::Result<usize>
    ensures { IfOk result (λ n. n ≤ length buffer.new) }
{
    let mut done = 0;
    while done < buffer.len() {
        let more = input.read(&mut buffer[done..])?;
        if more == 0 {
            break;
        }
        done += more;
    }
    Ok(done)
}

fn main(rt: HostRuntime) -> io::Result<()> {
    let mut image = [0u8; MOST];
    let count = read_full(&mut rt.reader(), &mut image)?;
    let Report {
        pages,
        replies,
        outcome,
    } = report_of(&image[..count]);
    println!(rt; "pages {pages}\nreplies {replies}\noutcome {outcome}")
}
