// The radio module's programming job: its types. The order of the job is an exchange, in specs/; its code
// stands in `radio_point`, `radio_say` and `radio_advance`.
#![tactic(auto)]

// How a job has ended: done, 28 by a reply that is none, 42 with the module's error code, 43 with the offset of the
// first byte that differs. No enum: a record's bytes may hold any number, code and offset, and `ending_fits` speaks of
// each.
#[derive(Clone, Copy)]
pub struct Ending {
    pub number: u32,
    pub code: u32,
    pub offset: u32,
}

// The point that a job has reached: which message it has sent, so which reply it takes next, or its end.
#[derive(Clone, Copy)]
pub enum JobPoint {
    AsksConfiguration,
    TakesConfiguration,
    ErasesArea,
    FeedsPage { page: usize },
    ErasesConfiguration,
    SetsConfiguration,
    SetsByte0,
    AsksPage { page: usize },
    TakesPage { page: usize },
    SetsByte1,
    Finished { ending: Ending },
}
