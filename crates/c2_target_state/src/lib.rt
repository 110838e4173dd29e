// The modelled target for C: its state is a struct of plain numbers, handed in and back by value. Nothing
// else is kept between steps.
#![tactic(auto)]

mod decode;
mod encode;
mod fields;
mod form;
mod model;

pub use model::step;

// The state of a target between two steps. Numbers that are not in use are 0. This is the C interface, so kinds and
// truth values are numbers here, each in a field of its own.
#[repr(C)]
#[derive(Clone, Copy)]
pub struct State {
    // the place in the delay list
    pub place: u64,
    // command: the address of the next byte, and the bytes still to come
    pub start: u16,
    pub rest: u16,
    // output: the address of the next byte, and the bytes still to be read
    pub next: u16,
    pub count: u16,
    // the strobe that comes next, by its field: 0 START, 1 INS, 2 LENGTH of a Data Write, 3 LENGTH of a Data
    // Read, 4 a written ADDRESS, 5 written DATA of one byte, 6 written DATA of more, 7 the first strobe of a
    // WAIT, 8 a later one, 9 a bit that the target sends, 10 STOP
    pub point: u8,
    // the bits of the field heard so far, and their value, or the value that is left to be sent
    pub heard: u8,
    pub value: u8,
    // the bits still to come, and the zeros before the 1 of a WAIT
    pub left: u8,
    pub zeros: u8,
    // what the frame does at its STOP: 0 nothing, 1 sets the address, 2 writes a byte, 3 counts an Address
    // Read, 4 reads; and the address or byte that it writes
    pub effect: u8,
    pub byte: u8,
    // 1 once the master has driven a strobe of the target's
    pub collision: u8,
    // the address register, the interface on or off, and the key writes in a row
    pub address: u8,
    pub on: u8,
    pub keys: u8,
    // of each of the four pairs that the device may want, in their order: 1 where the last value written to
    // its register since the reset is the wanted one
    pub met1: u8,
    pub met2: u8,
    pub met3: u8,
    pub met4: u8,
    // the byte that the command waits for: 0 a new command, 1 the page of an erase, 2 its 0x00, 3 a block's
    // high byte, 4 its low byte, 5 its length code, 6 a byte to write, 7 a byte past the end
    pub command: u8,
    // 1 for a block write; the page; the high byte
    pub write: u8,
    pub page: u8,
    pub high: u8,
    // output that waits: 0 none, 1 a status, 2 the status and then a block, 3 a block; and whether the status
    // is 0x0D
    pub output: u8,
    pub passed: u8,
    // what is left of the delays d and e
    pub busy: u8,
    pub late: u8,
}

// What a step gives: a number, 0 where the step is accepted, the reply, and the state afterwards. C, whose interface
// this is, has no Result.
#[repr(C)]
#[derive(Clone, Copy)]
pub struct ModelReplied {
    pub number: u32,
    pub reply: u32,
    pub target: State,
}

// The numbers of a point (`PointFields`), of a command (`CommandFields`) and of the output (`OutputFields`).
#[derive(Clone, Copy, Default)]
struct PointFields {
    point: u8,
    heard: u8,
    value: u8,
    left: u8,
    zeros: u8,
    effect: u8,
    byte: u8,
}

#[derive(Clone, Copy, Default)]
struct CommandFields {
    command: u8,
    write: u8,
    page: u8,
    high: u8,
    start: u16,
    rest: u16,
}

#[derive(Clone, Copy, Default)]
struct OutputFields {
    output: u8,
    passed: u8,
    next: u16,
    count: u16,
}
