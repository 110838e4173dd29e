// Two dumps of a flash compared, for C: the ranges of bytes that differ, and a quick form that tells the
// first difference alone.
#![tactic(auto)]

ghost use Rattle.std.specs.Prelude.{◌≡◌};
ghost use Rattle.dump_ranges.specs.Answers.{ranges_answer, ranges_list, first_answer};

use dump_ranges::{DifferenceFound, RangesFound};

mod accepted;
mod dumps;
mod first;
mod list;
mod stretch;

// The ranges of bytes that differ, start then length for each, into the list buffer, as many as it takes
// whole. Tests 2, then 31. The numbers behind the ranges that it holds stay; a refused call leaves all of
// them.
#[unsafe(no_mangle)]
pub extern "C" fn c2_dump_ranges(size: u32, a: &[u8], b: &[u8], list: &mut [u64]) -> RangesFound
    ensures value { result ≡ ranges_answer size a.now b.now list.old }
    ensures list_after { list.new ≡ ranges_list size a.now b.now list.old }
{
    match accepted::accepted(size, a, b) {
        Ok(dumps) => dumps.list_ranges(list),
        Err(e) => RangesFound {
            number: e.into(),
            more: 0,
            held: 0,
        },
    }
}

// The page and the offset in it of the first difference, or that the dumps are equal. Tests 2, then 31.
#[unsafe(no_mangle)]
pub extern "C" fn c2_dump_first(size: u32, a: &[u8], b: &[u8]) -> DifferenceFound
    ensures { result ≡ first_answer size a.now b.now }
{
    match accepted::accepted(size, a, b) {
        Ok(dumps) => match dumps.first_difference(size as usize) {
            Some((page, offset)) => DifferenceFound {
                number: 0,
                differs: 1,
                page: page as u64,
                offset: offset as u32,
            },
            None => DifferenceFound {
                number: 0,
                differs: 0,
                page: 0,
                offset: 0,
            },
        },
        Err(e) => DifferenceFound {
            number: e.into(),
            differs: 0,
            page: 0,
            offset: 0,
        },
    }
}
