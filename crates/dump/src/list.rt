// The ranges into the list buffer.
ghost use Rattle.std.specs.Prelude.{◌≡◌};
ghost use Rattle.dump_ranges.specs.Answers.{ranges_found, list_filled};

use crate::dumps::Dumps;
use dump_ranges::RangesFound;

impl Dumps<'_> {
    // The ranges into the list buffer, from difference to difference: the loop goes on from where the last range
    // ended, so no range and no iterator has its steps, and a `for` over pairs of the list would be no plainer.
    pub(crate) fn list_ranges(self, list: &mut [u64]) -> RangesFound
        ensures value { result ≡ ranges_found self.entry.a.now self.entry.b.now list.old }
        ensures list_after { list.new ≡ list_filled self.entry.a.now self.entry.b.now list.old }
    {
        let mut held: usize = 0;
        let mut end: usize = 0;
        while let Some(at) = self.next_difference(end) {
            let place = 2 * held;
            if list.len() - place < 2 {
                return RangesFound {
                    number: 0,
                    more: 1,
                    held: held as u64,
                };
            }
            end = self.range_end(at);
            list[place] = at as u64;
            list[place + 1] = (end - at) as u64;
            held += 1;
        }
        RangesFound {
            number: 0,
            more: 0,
            held: held as u64,
        }
    }
}
