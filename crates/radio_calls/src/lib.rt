// The calls of a radio job as data: what each answers, as C has it. What they answer and leave, and what
// lists of them come to, stands in specs/.
#![tactic(auto)]

ghost use Rattle.std.specs.Prelude.{◌≡◌};
ghost use Rattle.exchange.specs.Exchange.{ends};
ghost use Rattle.numbers.specs.Numbers.{refusal_number};
ghost use Rattle.radio_calls.specs.Calls.{opens_number, takes_number, takes_answer};

use numbers::Refusal;
use radio_job::Ending;

// What an opening answers: 0 or the number by which it is refused, the length of the first message, and of
// the reply to it.
#[repr(C)]
#[derive(Clone, Copy)]
pub struct RadioOpened {
    pub number: u32,
    pub send: u32,
    pub expect: u32,
}

impl From<Refusal> for RadioOpened {
    ghost from_gives = { λ e r. r ≡ opens_number (refusal_number e) };

    fn from(e: Refusal) -> RadioOpened {
        let number = u32::from(e);
        RadioOpened {
            number,
            send: 0,
            expect: 0,
        }
    }
}

// What a call that takes a reply answers: 0 while the job runs, a refusal or the end; the module's error code
// with 42; the offset in the padded image with 43; the length of the next message, and of the reply to it.
#[repr(C)]
#[derive(Clone, Copy)]
pub struct RadioAdvanced {
    pub number: u32,
    pub code: u32,
    pub offset: u32,
    pub send: u32,
    pub expect: u32,
}

impl From<Refusal> for RadioAdvanced {
    ghost from_gives = { λ e r. r ≡ takes_number (refusal_number e) };

    fn from(e: Refusal) -> RadioAdvanced {
        RadioAdvanced {
            number: u32::from(e),
            code: 0,
            offset: 0,
            send: 0,
            expect: 0,
        }
    }
}

// A job that has ended has nothing more to send.
impl From<Ending> for RadioAdvanced {
    ghost from_gives = { λ e r. r ≡ takes_answer (ends e) };

    fn from(e: Ending) -> RadioAdvanced {
        RadioAdvanced {
            number: e.number,
            code: e.code,
            offset: e.offset,
            send: 0,
            expect: 0,
        }
    }
}
