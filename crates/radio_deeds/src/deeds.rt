// What each command does: its answer, the change of the flash, and the point after it.
ghost use Rattle.std.specs.Prelude.{◌≡◌, ◌&&◌, slice_index};
ghost use Rattle.radio_flash.specs.Flash.{flash_address, in_program_area, is_protected};
ghost use Rattle.radio_target.specs.Deeds.{answers_error, answers_ok, performs, too_many, then_data, deed};
ghost use Rattle.radio_target.specs.Deeds.{rd_flash_byte, wr_flash_byte, rd_flash_page, wr_flash_page};
ghost use Rattle.radio_target.specs.Deeds.{rd_prg_area, wr_prg_area, wr_blank_chk, wr_prg_xram};
ghost use Rattle.radio_deeds.specs.Code.Answered.{answers, error_code, answered};

use crate::{INFORMATION, ModuleError, PROGRAM_PAGES, PROTECTION, XRAM_PAGES};
use radio_command::{CommandName, RadioCommand};
use radio_flash::{FlashChange, PAGE_BYTES, is_blank};
use radio_target::{Deed, ModulePoint};

// An answer, and no more.
fn answers(name: CommandName, p0: u8) -> Deed
    ensures { result ≡ answers name p0 }
{
    Deed {
        answer: RadioCommand {
            name,
            p0,
            p1: 0,
            p2: 0,
        },
        change: FlashChange::Nothing,
        point: ModulePoint::Waits,
    }
}

pub(crate) fn answers_error(e: ModuleError) -> Deed
    ensures { result ≡ answers_error (error_code e) }
{
    answers(CommandName::InfError, e as u8)
}

fn answers_ok(code: u8) -> Deed
    ensures { result ≡ answers_ok code }
{
    answers(CommandName::InfOk, code)
}

fn performs(change: FlashChange, point: ModulePoint) -> Deed
    ensures { result ≡ performs change point }
{
    Deed {
        change,
        point,
        ..answers_ok(0)
    }
}

fn too_many(n: u8, most: u8) -> bool
    ensures { result ≡ too_many n most }
{
    n == 0 || most < n
}

fn then_data(e: u8, page: u32, left: u32) -> ModulePoint
    ensures { result ≡ then_data e page left }
{
    match e {
        1 => ModulePoint::Waits,
        _ => ModulePoint::Takes { page, left },
    }
}

// A byte of a slice, 0 past its end.
pub(crate) fn byte_at(s: &[u8], i: usize) -> u8
    ensures { result ≡ slice_index s.now i }
{
    s.get(i).copied().unwrap_or(0)
}

// The address of a byte in its page.
fn address(hi: u8, lo: u8) -> usize
    ensures { result ≡ flash_address hi lo }
{
    PAGE_BYTES * usize::from(hi) + usize::from(lo)
}

#[tactic(auto, unfolding(radio_flash::specs::Flash::is_protected))]
fn is_protected(flash: &[u8]) -> bool
    ensures { result ≡ is_protected flash.now }
{
    byte_at(flash, PROTECTION) == 0
}

// Whether a page is hidden by code protection.
fn hidden(page: u8, flash: &[u8]) -> bool
    ensures { result ≡ (in_program_area page && is_protected flash.now) }
{
    page < PROGRAM_PAGES && is_protected(flash)
}

#[tactic(auto, unfolding(radio_target::specs::Deeds::rd_flash_byte))]
fn rd_flash_byte(hi: u8, lo: u8, flash: &[u8]) -> Result<Deed, ModuleError>
    ensures { answered result ≡ rd_flash_byte hi lo flash.now }
{
    if hidden(hi, flash) {
        return Err(ModuleError::Readonly);
    }
    if INFORMATION < hi {
        return Err(ModuleError::OutOfMemory);
    }
    Ok(answers_ok(byte_at(flash, address(hi, lo))))
}

#[tactic(auto, unfolding(radio_target::specs::Deeds::wr_flash_byte))]
fn wr_flash_byte(hi: u8, lo: u8, to: u8, flash: &[u8]) -> Result<Deed, ModuleError>
    ensures { answered result ≡ wr_flash_byte hi lo to flash.now }
{
    if hi == INFORMATION {
        return Err(ModuleError::Readonly);
    }
    if INFORMATION < hi {
        return Err(ModuleError::OutOfMemory);
    }
    if hidden(hi, flash) {
        return Err(ModuleError::Codeprotection);
    }
    let at = address(hi, lo);
    if byte_at(flash, at) != 0xFF {
        return Err(ModuleError::ByteNotErased);
    }
    Ok(performs(FlashChange::Byte { at, to }, ModulePoint::Waits))
}

#[tactic(auto, unfolding(radio_target::specs::Deeds::rd_flash_page))]
fn rd_flash_page(page: u8, flash: &[u8]) -> Result<Deed, ModuleError>
    ensures { answered result ≡ rd_flash_page page flash.now }
{
    if hidden(page, flash) {
        return Err(ModuleError::Readonly);
    }
    if INFORMATION < page {
        return Err(ModuleError::OutOfMemory);
    }
    let page = u32::from(page);
    Ok(performs(FlashChange::Nothing, ModulePoint::Sends { page, left: 1 }))
}

#[tactic(auto, unfolding(radio_target::specs::Deeds::wr_flash_page))]
fn wr_flash_page(page: u8, e: u8, flash: &[u8]) -> Result<Deed, ModuleError>
    ensures { answered result ≡ wr_flash_page page e flash.now }
{
    if is_protected(flash) || page == INFORMATION {
        return Err(ModuleError::Readonly);
    }
    if INFORMATION < page {
        return Err(ModuleError::OutOfMemory);
    }
    let after = then_data(e, u32::from(page), 1);
    let page = usize::from(page);
    Ok(performs(FlashChange::Page { page }, after))
}

#[tactic(auto, unfolding(radio_target::specs::Deeds::rd_prg_area))]
fn rd_prg_area(n: u8, flash: &[u8]) -> Result<Deed, ModuleError>
    ensures { answered result ≡ rd_prg_area n flash.now }
{
    if is_protected(flash) {
        return Err(ModuleError::Codeprotection);
    }
    if too_many(n, PROGRAM_PAGES) {
        return Err(ModuleError::OutOfMemory);
    }
    let left = u32::from(n);
    Ok(performs(FlashChange::Nothing, ModulePoint::Sends { page: 0, left }))
}

#[tactic(auto, unfolding(radio_target::specs::Deeds::wr_prg_area))]
fn wr_prg_area(n: u8, e: u8, flash: &[u8]) -> Result<Deed, ModuleError>
    ensures { answered result ≡ wr_prg_area n e flash.now }
{
    if is_protected(flash) {
        return Err(ModuleError::Readonly);
    }
    if too_many(n, PROGRAM_PAGES) {
        return Err(ModuleError::OutOfMemory);
    }
    Ok(performs(FlashChange::Area, then_data(e, 0, u32::from(n))))
}

#[tactic(auto, unfolding(radio_target::specs::Deeds::wr_prg_xram))]
fn wr_prg_xram(n: u8, flash: &[u8]) -> Result<Deed, ModuleError>
    ensures { answered result ≡ wr_prg_xram n flash.now }
{
    if is_protected(flash) {
        return Err(ModuleError::Readonly);
    }
    if too_many(n, XRAM_PAGES) {
        return Err(ModuleError::OutOfMemory);
    }
    let left = u32::from(n);
    Ok(performs(FlashChange::Nothing, ModulePoint::Loads { left }))
}

#[tactic(auto, unfolding(radio_target::specs::Deeds::wr_blank_chk))]
fn wr_blank_chk(flash: &[u8]) -> Result<Deed, ModuleError>
    ensures { answered result ≡ wr_blank_chk flash.now }
{
    if !is_blank(flash) {
        return Err(ModuleError::BlankCheck);
    }
    Ok(answers_ok(0))
}

pub(crate) fn deed(c: RadioCommand, flash: &[u8]) -> Result<Deed, ModuleError>
    ensures { answered result ≡ deed c.name c.p0 c.p1 c.p2 flash.now }
{
    let RadioCommand { name, p0, p1, p2 } = c;
    match name {
        CommandName::RdSwVersion => Ok(answers(CommandName::InfSwVersion, 0)),
        CommandName::RdFlashByte => rd_flash_byte(p0, p1, flash),
        CommandName::WrFlashByte => wr_flash_byte(p0, p1, p2, flash),
        CommandName::RdFlashPage => rd_flash_page(p0, flash),
        CommandName::WrFlashPage => wr_flash_page(p0, p1, flash),
        CommandName::RdPrgArea => rd_prg_area(p0, flash),
        CommandName::WrPrgArea => wr_prg_area(p0, p1, flash),
        CommandName::WrBlankChk => wr_blank_chk(flash),
        CommandName::WrBist => Ok(answers_ok(1)),
        CommandName::WrPrgXram => wr_prg_xram(p0, flash),
        CommandName::InfSwVersion | CommandName::InfOk | CommandName::InfError => {
            Err(ModuleError::UnknowCmd)
        }
    }
}
