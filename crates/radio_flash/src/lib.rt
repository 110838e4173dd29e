// The radio module's flash, 129 pages of 256 bytes, and the changes that are made to it.
#![tactic(auto)]

mod blank;
mod changes;
mod pages;

pub use blank::is_blank;
pub use changes::change;
pub use pages::put_page;

// What becomes of the flash: nothing; a byte is programmed; a page is erased; program area and configuration
// are erased. No `Option` around the last three: `change` would only match a layer more.
#[derive(Clone, Copy)]
pub enum FlashChange {
    Nothing,
    Byte { at: usize, to: u8 },
    Page { page: usize },
    Area,
}

// The bytes of a page, and of the flash. The job's crates don't rest on the module's, so radio_image has a page's too.
pub const PAGE_BYTES: usize = 256;

pub const FLASH_BYTES: usize = 33024;

// The configuration page, and the bytes up to its end.
pub const CONFIGURATION: usize = 127;

const AREA_BYTES: usize = 32768;
