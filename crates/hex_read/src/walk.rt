// Judging the lines one after the other.
ghost use Rattle.std.specs.Prelude.{◌≡◌, false, ◌+◌, ◌*◌, ◌≤◌, min, max, length, replicate};
ghost use Rattle.hex_format.specs.Reading.{unset, lines, lines_taken};
ghost use Rattle.hex_read.specs.Code.Read.{no_line};
ghost use Rattle.hex_read.specs.Code.Walk.{Within, TakesLine, Walked};

use super::map::{MAP_BYTES, mark};
use hex_format::{Line, Record};
use numbers::Refusal;

// After some lines: whether the end record has been, the first address set and the address past the last one. With
// nothing set these are the flash's end and 0, so that `min` and `max` take the first run as any other.
#[derive(Clone, Copy)]
pub(crate) struct Taken {
    pub ended: bool,
    pub low: usize,
    pub high: usize,
}

impl Taken {
    // With a run of addresses more.
    fn with_run(self, a: usize, n: usize) -> Taken
        requires { a + n ≤ 65536 }
        ensures { result ≡ record { ended = self.ended; low = min self.low a; high = max self.high (a + n) } }
    {
        Taken {
            low: self.low.min(a),
            high: self.high.max(a + n),
            ..self
        }
    }
}

// Why a file is refused, and its faulty line, counted from 1; none where it isn't a line's fault.
#[derive(Clone, Copy)]
pub(crate) struct Fault {
    pub refusal: Refusal,
    pub line: Option<u64>,
}

impl From<Refusal> for Fault {
    ghost from_gives = { λ e f. f ≡ no_line e };

    fn from(refusal: Refusal) -> Fault {
        Fault {
            refusal,
            line: None,
        }
    }
}

// A line that has been judged. Of two faults of it the lower number comes back, so its place is tested last.
fn take_line(map: &mut [u8; MAP_BYTES], line: Line, before: Taken) -> Result<Taken, Refusal>
    requires { Within line 65536 }
    ensures { TakesLine map.old map.new line before result }
{
    let after = match line? {
        Record::Data(a, n) if n != 0 => {
            mark(map, a, n)?;
            before.with_run(a, n)
        }
        Record::Data(..) => before,
        Record::Last => Taken {
            ended: true,
            ..before
        },
    };
    if before.ended {
        return Err(Refusal::NoEndRecord);
    }
    Ok(after)
}

// All lines, with a map that is clear. The loop goes from line to line by a place: no range has these places.
pub(crate) fn walk(map: &mut [u8; MAP_BYTES], flash: usize, file: &[u8]) -> Result<Taken, Fault>
    requires { (flash ≤ 65536) × (map.old ≡ replicate 8192 0) }
    ensures { Walked result (lines_taken 0 false (replicate flash unset) (lines file.now)) }
{
    let mut at: usize = 0;
    let mut line: u64 = 0;
    let mut taken = Taken {
        ended: false,
        low: flash,
        high: 0,
    };
    while at < file.len() {
        let judged = hex_line::line::judge(&file[at..], flash);
        line += 1;
        match take_line(map, judged.line, taken) {
            Ok(next) => taken = next,
            Err(refusal) => {
                let line = Some(line);
                return Err(Fault { refusal, line });
            }
        }
        at += judged.bytes;
    }
    if taken.ended {
        Ok(taken)
    } else {
        Err(Refusal::NoEndRecord.into())
    }
}
