// The modelled target: its parts as types. specs/ has what a step makes of them, c2_target_step the code.
#![tactic(auto)]

// What a frame does at its STOP.
#[derive(Clone, Copy)]
pub enum Effect {
    // a frame with LENGTH not 0
    Nothing,
    // an Address Write of this byte
    SetAddress(usize),
    // a Data Write of this byte
    Write(usize),
    // an Address Read: one read less in which the interface shows itself busy, or its output not ready
    CountDown,
    // a Data Read: output that was read goes
    Read,
}

// The strobe that comes next, by its field. `heard` bits of a field go with their value so far; bits come and
// go lowest first.
#[derive(Clone, Copy)]
pub enum Point {
    // between two frames: the next strobe is a START
    Start,
    Ins {
        heard: usize,
        value: usize,
    },
    // LENGTH of a Data Write, and of a Data Read
    WriteLength {
        heard: usize,
        value: usize,
    },
    ReadLength {
        heard: usize,
        value: usize,
    },
    // a written ADDRESS
    Address {
        heard: usize,
        value: usize,
    },
    // written DATA of one byte
    Data {
        heard: usize,
        value: usize,
    },
    // written DATA with LENGTH not 0: bits still to be heard
    LongData {
        left: usize,
    },
    // the first strobe of a WAIT; `left` bits are sent after it
    Wait {
        left: usize,
        effect: Effect,
    },
    // a later strobe of a WAIT; `zeros` are still to be sent before its 1
    Waiting {
        zeros: usize,
        left: usize,
        effect: Effect,
    },
    // a read ADDRESS or read DATA: bits still to be sent, and their value
    Send {
        left: usize,
        value: usize,
        effect: Effect,
    },
    Stop {
        effect: Effect,
    },
}

// A command that is under way, by the byte that comes next. `write` tells a block write from a block read.
#[derive(Clone, Copy)]
pub enum Command {
    // a new command
    Ready,
    // erase: the page
    ErasePage,
    // erase: the 0x00 for this page
    EraseConfirm { page: usize },
    // block: the high byte of the address
    High { write: bool },
    // block: the low byte, after this high byte
    Low { write: bool, high: usize },
    // block: the length code
    LengthCode { write: bool, address: usize },
    // block write: the byte for this address; bytes left, this one among them
    Byte { address: usize, left: usize },
    // block write past the end: bytes left, which are taken and not written
    PastEnd { left: usize },
}

// Output that waits to be read.
#[derive(Clone, Copy)]
pub enum Output {
    Empty,
    // the status 0x0D, or 0x00
    Status { passed: bool },
    // the status 0x0D, then so many bytes of the flash from this address
    StatusBlock { address: usize, count: usize },
    // the rest of a block: so many bytes of the flash from this address
    Block { address: usize, count: usize },
}

// The Programming Interface behind FPDAT. `busy` is what is left of the delay d, `late` of the delay e.
#[derive(Clone, Copy)]
pub struct Link {
    pub command: Command,
    pub output: Output,
    pub busy: usize,
    pub late: usize,
}

// Of each of the four pairs that the device may want, in their order: whether the last value written to its
// register since the reset is the wanted one. No array: to the definitions that is a list of any length, and each
// would say besides that it has four.
#[derive(Clone, Copy)]
pub struct Met {
    pub first: bool,
    pub second: bool,
    pub third: bool,
    pub fourth: bool,
}

// The address register, the interface on or off, how many of the three key writes the last Data Writes were,
// which wanted pairs are met, and the interface.
#[derive(Clone, Copy)]
pub struct Device {
    pub address: usize,
    pub on: bool,
    pub keys: usize,
    pub met: Met,
    pub link: Link,
}

// The target: the strobe that comes next, the place in the delay list, the collision mark, and the device.
#[derive(Clone, Copy)]
pub struct Target {
    pub point: Point,
    pub place: usize,
    pub collision: bool,
    pub device: Device,
}

// What an accepted step gives: the reply, a bit, and the target afterwards.
#[derive(Clone, Copy)]
pub struct Turned {
    pub reply: bool,
    pub target: Target,
}
