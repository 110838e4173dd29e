// The numbers that come back from a call (documents 01 and 02), one name for each, with when it is given.
#![tactic(auto)]

ghost use Rattle.std.specs.Prelude.{◌≡◌};
ghost use Rattle.numbers.specs.Numbers.{refusal_number};

// Why a call, a line of a file or a step of a model is refused, with the number that comes back.
#[derive(Clone, Copy, Debug, PartialEq, Eq)]
pub enum Refusal {
    // FPDAT address below 3.
    BadFpdat = 1,
    // Page size neither 512 nor 1,024.
    BadPageSize = 2,
    // Page count 0, or size times count above 65,536.
    BadPageCount = 3,
    // Image empty or not whole pages.
    BadImage = 4,
    // First page plus image pages above page count.
    PastLastPage = 5,
    // Record of another length, or not a session or job in range.
    BadRecord = 6,
    // Image length differs from the session's or the job's.
    OtherImage = 7,
    // Place plus number of replies above the step buffer's length.
    NoRoom = 8,
    // Model: step 1 or above 6.
    NoStep = 16,
    // Model: flash of another length than its pages, or its own state names a point that no frame or command has.
    NoPoint = 17,
    // WAIT limit 0; tested after 3.
    BadWaitLimit = 18,
    // More than four pairs, or a register below 3 or equal to the FPDAT address; tested after 18.
    BadPairs = 19,
    // HEX line: a bad character, digit count or line end.
    BadLine = 20,
    // HEX line: the record's bytes, checksum included, don't add up to 0.
    BadChecksum = 21,
    // HEX record: type neither 00 nor 01, type 01 with length or address not 0, or data past the last flash byte.
    BadHexRecord = 22,
    // HEX record: a byte set twice.
    SetTwice = 23,
    // HEX file: no end record, or anything after it.
    NoEndRecord = 24,
    // HEX file: no data.
    NoData = 25,
    // Buffer to be filled too small.
    BufferTooSmall = 26,
    // Radio module: a message with a wrong length, head, sum or command.
    BadMessage = 28,
    // Radio module: mask or data not 256 bytes, a mask byte neither 0x00 nor 0xFF, or one that names bytes 2 or 3.
    BadMask = 29,
    // Radio module: an image of 0 or above 32,256 bytes.
    BadImageLength = 30,
    // Two dumps of different length, or of a length that is not a whole number of pages (document 02, k).
    BadDumps = 31,
}

impl From<Refusal> for u32 {
    ghost from_gives = { λ e n. n ≡ refusal_number e };

    fn from(e: Refusal) -> u32 {
        e as u32
    }
}

// How a session stands: it is running, or it has ended done, or by one of these. No enum: its record may hold any number,
// and the laws of packing speak of every one.

// The session is running.
pub const RUNNING: u32 = 0;

// The session ended done.
pub const DONE: u32 = 32;

// Reply neither 0 nor 1.
pub const BAD_REPLY: u32 = 9;

// The zero that reaches the limit in a WAIT.
pub const WAIT_LIMIT_REACHED: u32 = 10;

// The unsatisfied read that reaches the limit in a poll (the 256th).
pub const POLL_LIMIT_REACHED: u32 = 11;

// Device ID differs.
pub const OTHER_DEVICE: u32 = 12;

// Status not 0x0D.
pub const BAD_STATUS: u32 = 13;

// Byte read differs from the image.
pub const COMPARE_DIFFERS: u32 = 14;
