// The tests of a page size and of two dumps' lengths.
#![tactic(auto, using(std::proofs::lemmas::Bool::Decides::nat_tests), unfolding(settings::specs::Accepted::is_page_size, dump_ranges::specs::Answers::are_dumps, dump_ranges::specs::Answers::dump_refusal))]

ghost use Rattle.std.specs.Prelude.{◌≡◌, length, IfOk};
ghost use Rattle.numbers.specs.Numbers.{number_of};
ghost use Rattle.dump_ranges.specs.Answers.{dump_refusal};

use crate::dumps::Dumps;
use numbers::Refusal;

// The two dumps as they are compared, or why they are refused, tested in this order.
pub(crate) fn accepted<'a>(size: u32, a: &'a [u8], b: &'a [u8]) -> Result<Dumps<'a>, Refusal>
    ensures refusal { number_of result ≡ dump_refusal size (length a.now) (length b.now) }
    ensures dumps { IfOk result (λ dumps. (dumps.a.now ≡ a.now) × (dumps.b.now ≡ b.now)) }
{
    if size != 512 && size != 1024 {
        return Err(Refusal::BadPageSize);
    }
    if a.len() != b.len() || a.len() % (size as usize) != 0 {
        return Err(Refusal::BadDumps);
    }
    Ok(Dumps { a, b })
}
