// The acts of the order by their numbers: what an act of a stage does, and how many acts a stage has.
#![tactic(auto)]

ghost use Rattle.std.specs.Prelude.{◌≡◌};
ghost use Rattle.c2_acts.specs.Code.Acts.{lead_task, put_task, erase_task, write_task, read_task, register_task, task_of, acts_in};

// How many acts the stages have: of a page in Erase, of a block in Write and Read, of a pair in Register.
pub const LEAD_ACTS: u32 = 8;

pub const ERASE_ACTS: u32 = 13;

pub const BLOCK_ACTS: u32 = 525;

pub const CLOSE_ACTS: u32 = 1;

pub const REGISTER_ACTS: u32 = 2;

// Acts have numbers and no enum: a session counts them, and `task_of` is stated of every number
// (specs/Code/Acts.antt). Acts of the lead: the Address Write of FPCTL, the three key writes, and the pause after them.
pub const LEAD_ADDRESS: u32 = 3;

pub const FIRST_KEY: u32 = 4;

pub const SECOND_KEY: u32 = 5;

pub const LEAD_PAUSE: u32 = 7;

// The first act of a pair: the Address Write of its register.
pub const PAIR_ADDRESS: u32 = 0;

// Acts of every command: the Address Write of FPDAT, the put of the command byte, the poll and the read of
// its status, and the put of what comes next, a page or the high byte of an address.
pub const COMMAND_ADDRESS: u32 = 0;

pub const COMMAND_BYTE: u32 = 1;

pub const COMMAND_READY: u32 = 3;

pub const COMMAND_STATUS: u32 = 4;

pub const COMMAND_PLACE: u32 = 5;

// The act after a block's length code: the put of the first byte in a block write, the poll for the status in
// a block read.
pub const BLOCK_BODY: u32 = 11;

// The poll for the status of a block write, the status of a block read, and its first compare.
pub const WRITE_READY: u32 = 523;

pub const READ_STATUS: u32 = 12;

pub const FIRST_COMPARE: u32 = 14;

// The stages of the order: up to the pause (Lead); a register written for each pair (Register); then for each page
// its erase, its block writes and its block reads; and the last reset.
#[derive(Clone, Copy)]
pub enum Stage {
    Lead,
    Erase,
    Write,
    Read,
    Close,
    Register,
}

// What an act does: a step that stands in no frame, a frame that is sent, a poll for InBusy 0 or OutReady 1,
// or a Data Read that must give the device ID, the status 0x0D or a byte of the image.
#[derive(Clone, Copy)]
pub enum Task {
    Reset,
    Pause,
    Address,
    Send,
    Input,
    Output,
    Ident,
    Status,
    Compare,
}

fn lead_task(act: u32) -> Task
    ensures { result ≡ lead_task act }
{
    match act {
        0 | 2 => Task::Reset,
        1 => Task::Ident,
        LEAD_ADDRESS => Task::Address,
        FIRST_KEY..LEAD_PAUSE => Task::Send,
        _ => Task::Pause,
    }
}

// What an act of a put does: a put is two acts, the byte and then the poll.
fn put_task(act: u32) -> Task
    ensures { result ≡ put_task act }
{
    if act % 2 == 1 {
        Task::Send
    } else {
        Task::Input
    }
}

fn erase_task(act: u32) -> Task
    ensures { result ≡ erase_task act }
{
    if act == COMMAND_ADDRESS {
        return Task::Address;
    }
    match act % 4 {
        1 => Task::Send,
        2 => Task::Input,
        3 => Task::Output,
        _ => Task::Status,
    }
}

fn write_task(act: u32) -> Task
    ensures { result ≡ write_task act }
{
    match act {
        COMMAND_ADDRESS => Task::Address,
        COMMAND_READY | WRITE_READY => Task::Output,
        COMMAND_STATUS => Task::Status,
        0..WRITE_READY => put_task(act),
        _ => Task::Status,
    }
}

fn read_task(act: u32) -> Task
    ensures { result ≡ read_task act }
{
    match act {
        COMMAND_ADDRESS => Task::Address,
        COMMAND_READY => Task::Output,
        COMMAND_STATUS | READ_STATUS => Task::Status,
        0..BLOCK_BODY => put_task(act),
        _ if act % 2 == 1 => Task::Output,
        _ => Task::Compare,
    }
}

fn register_task(act: u32) -> Task
    ensures { result ≡ register_task act }
{
    match act {
        PAIR_ADDRESS => Task::Address,
        _ => Task::Send,
    }
}

// What the act of a stage does.
pub fn task_of(stage: Stage, act: u32) -> Task
    ensures { result ≡ task_of stage act }
{
    match stage {
        Stage::Lead => lead_task(act),
        Stage::Erase => erase_task(act),
        Stage::Write => write_task(act),
        Stage::Read => read_task(act),
        Stage::Close => Task::Reset,
        Stage::Register => register_task(act),
    }
}

// How many acts a stage has: of a page in Erase, of a block in Write and Read, of a pair in Register.
pub fn acts_in(stage: Stage) -> u32
    ensures { result ≡ acts_in stage }
{
    match stage {
        Stage::Lead => LEAD_ACTS,
        Stage::Erase => ERASE_ACTS,
        Stage::Write | Stage::Read => BLOCK_ACTS,
        Stage::Close => CLOSE_ACTS,
        Stage::Register => REGISTER_ACTS,
    }
}
