// The byte that an act of the session sends or compares.
ghost use Rattle.std.specs.Prelude.{◌≡◌, cond, ◌+◌, ◌-◌, ◌*◌, ◌/◌, ◌%◌, ◌<◌, eqb};
ghost use Rattle.c2_session.specs.Code.Bytes.{block_offset, page_number, high_byte, lead_byte, erase_byte, block_byte, image_byte, write_byte, register_byte, stage_byte};

use crate::{At, Session};
use c2_acts::{
    BLOCK_BODY, COMMAND_ADDRESS, COMMAND_BYTE, COMMAND_PLACE, FIRST_KEY, LEAD_ADDRESS,
    PAIR_ADDRESS, SECOND_KEY, Stage,
};
use c2_order::{BLOCK_READ, BLOCK_WRITE, FPCTL, KEY_1, KEY_2, KEY_3, PAGE_ERASE};

// Where a page of this number begins, in the flash or in the image.
fn page_offset(page: u32, size: u32) -> usize
    requires { page < 131072 }
    ensures value { result ≡ page * size }
    ensures upper_bound { result < 562949953421312 }
{
    (page as usize) * (size as usize)
}

#[tactic(auto, unfolding(crate::specs::Code::Bytes::lead_byte))]
fn lead_byte(act: u32) -> u8
    ensures { result ≡ lead_byte act }
{
    match act {
        LEAD_ADDRESS => FPCTL,
        FIRST_KEY => KEY_1,
        SECOND_KEY => KEY_2,
        _ => KEY_3,
    }
}

// A byte of the image. Every call has tested the image's length: a missing byte, which would be 0, is not
// asked for.
pub(crate) fn image_byte(image: &[u8], i: usize) -> u8
    ensures { result ≡ image_byte image.now i }
{
    image.get(i).copied().unwrap_or(0)
}

impl Session {
    // The number in the flash of the page at a point, which is kept to 16 bits.
    fn page_number(self, page: u32) -> u32
        ensures value { result ≡ page_number self (page % 65536) }
        ensures upper_bound { result < 131072 }
    {
        u32::from(self.first) + page % 65536
    }

    // The high byte of the block's address in the flash.
    fn high_byte(self, at: At) -> u8
        ensures { result ≡ high_byte self at }
    {
        let page = page_offset(self.page_number(at.page), self.settings.size);
        ((page + (at.block as usize) * 256) / 256 % 256) as u8
    }

    // A byte of a command that is not the image's: after the command's own byte this one is put, a page or the high
    // byte of an address. The low byte of an address and the length code are 0.
    fn command_byte(self, at: At, command: u8, place: u8) -> u8
        ensures { result ≡ cond (eqb at.act 0) self.settings.fpdat (cond (eqb at.act 1) command (cond (eqb at.act 5) place 0)) }
    {
        match at.act {
            COMMAND_ADDRESS => self.settings.fpdat,
            COMMAND_BYTE => command,
            COMMAND_PLACE => place,
            _ => 0,
        }
    }

    #[tactic(auto, unfolding(crate::specs::Code::Bytes::erase_byte))]
    fn erase_byte(self, at: At) -> u8
        ensures { result ≡ erase_byte self at }
    {
        self.command_byte(at, PAGE_ERASE, (self.page_number(at.page) % 256) as u8)
    }

    #[tactic(auto, unfolding(crate::specs::Code::Bytes::block_byte))]
    fn block_byte(self, at: At, command: u8) -> u8
        ensures { result ≡ block_byte self at command }
    {
        self.command_byte(at, command, self.high_byte(at))
    }

    // The image offset of the byte that an act of a block sends or compares, where the block's first byte is that of
    // this act: each byte takes two acts. The page is kept to 16 bits, so that the product fits a word.
    pub(crate) fn byte_offset(self, at: At, first: u32) -> usize
        ensures { result ≡ block_offset self.settings at + (at.act - first) / 2 }
    {
        let block = page_offset(at.page % 65536, self.settings.size) + (at.block as usize) * 256;
        block + (at.act.saturating_sub(first) as usize) / 2
    }

    #[tactic(auto, unfolding(crate::specs::Code::Bytes::write_byte, crate::specs::Code::Bytes::sent_offset))]
    fn write_byte(self, at: At, image: &[u8]) -> u8
        ensures { result ≡ write_byte self at image.now }
    {
        if at.act < BLOCK_BODY {
            self.block_byte(at, BLOCK_WRITE)
        } else {
            image_byte(image, self.byte_offset(at, BLOCK_BODY))
        }
    }

    // The byte that an act of a pair sends. The pair's number is kept below 4.
    #[tactic(auto, unfolding(crate::specs::Code::Bytes::register_byte))]
    fn register_byte(self, at: At) -> u8
        ensures { result ≡ register_byte self at }
    {
        let pairs = self.settings.pairs;
        let i = (at.page % 4) as usize;
        match at.act {
            PAIR_ADDRESS => pairs.registers[i],
            _ => pairs.values[i],
        }
    }

    // The byte that an act sends.
    pub(crate) fn stage_byte(self, at: At, image: &[u8]) -> u8
        ensures { result ≡ stage_byte at.stage self at image.now }
    {
        match at.stage {
            Stage::Lead => lead_byte(at.act),
            Stage::Erase => self.erase_byte(at),
            Stage::Write => self.write_byte(at, image),
            Stage::Read => self.block_byte(at, BLOCK_READ),
            Stage::Close => 0,
            Stage::Register => self.register_byte(at),
        }
    }
}
