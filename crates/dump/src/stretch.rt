// How far two dumps go on being equal, or differing.
ghost use Rattle.std.specs.Prelude.{◌≡◌, true, false, ◌<◌, ◌≤◌, length, get_or};
ghost use Rattle.dump.specs.Code.Stretch.{DifferenceAt, Passed, EndAt, FirstPlace};

use crate::dumps::Dumps;

// The bytes that are passed as a whole where they are the same.
const STRETCH: usize = 64;

// The bytes that are looked at one by one before a stretch is tried.
const NEAR: usize = 16;

// Whether two slices are the same. The loop is never left early, so that the compiler takes many bytes at a time:
// `==` is a call in the library, a quarter dearer for dumps that are mostly equal. Callers rely on a true answer
// alone: a false one makes them look at each byte.
fn same(a: &[u8], b: &[u8]) -> bool
    requires { length a.now ≡ length b.now }
    ensures { result ≡ true → a.now ≡ b.now }
{
    let mut same = true;
    for i in 0..a.len() {
        if a[i] != b[i] {
            same = false;
        }
    }
    same
}

impl Dumps<'_> {
    // The first place from `at` on and before `end` where the bytes differ.
    // A `for` and not `find` over the range, which proves too: of that the C compiler makes twice the instructions
    // for dumps with many ranges. Nor one loop with that of `range_end`, with what is looked for as a parameter:
    // made for size, it tests that parameter at each byte.
    fn difference_before(self, at: usize, end: usize) -> Option<usize>
        requires { (at ≤ end) × (end ≤ length self.a.now) }
        ensures { FirstPlace false self.entry.a.now self.entry.b.now at end result }
    {
        for i in at..end {
            if self.a[i] != self.b[i] {
                return Some(i);
            }
        }
        None
    }

    // A place up to which all is equal, a stretch at a time. A chain over chunks of both (`zip`, `take_while`,
    // `count`) would count stretches, which have to be turned back into a place: it is no plainer than this loop.
    fn passed(self, at: usize) -> usize
        requires { at ≤ length self.a.now }
        ensures { Passed self.entry.a.now self.entry.b.now at result }
    {
        let mut i = at;
        while STRETCH <= self.len() - i && same(&self.a[i..i + STRETCH], &self.b[i..i + STRETCH]) {
            i += STRETCH;
        }
        i
    }

    // The first place from `at` on that differs. Some bytes are looked at one by one, since differences often lie
    // close together; behind them stretches that are the same are passed as a whole.
    pub(crate) fn next_difference(self, at: usize) -> Option<usize>
        requires { at ≤ length self.a.now }
        ensures { DifferenceAt self.entry.a.now self.entry.b.now at result }
    {
        let near = at + NEAR.min(self.len() - at);
        match self.difference_before(at, near) {
            None => self.difference_before(self.passed(near), self.len()),
            found => found,
        }
    }

    // The end of the range that starts at `at`: the dumps' length is a true one, where it goes on to their end.
    pub(crate) fn range_end(self, at: usize) -> usize
        requires { (at < length self.a.now) × (get_or self.a.now at 0 ≡ get_or self.b.now at 0 → ⊥) }
        ensures { EndAt self.entry.a.now self.entry.b.now at result }
    {
        for i in at + 1..self.len() {
            if self.a[i] == self.b[i] {
                return i;
            }
        }
        self.len()
    }
}
