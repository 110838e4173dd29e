// The first difference, page by page and byte by byte.
ghost use Rattle.std.specs.Prelude.{◌≡◌, ◌%◌, ◌<◌, ◌≤◌, length};
ghost use Rattle.dump.specs.Code.Found.{FirstFound};

use crate::dumps::Dumps;

impl Dumps<'_> {
    // The page and the offset in it of the first difference of two dumps in whole pages: page by page and byte by
    // byte, and from inside both loops out of them. A page that is the same as a whole is not gone through byte by
    // byte.
    pub(crate) fn first_difference(self, size: usize) -> Option<(usize, usize)>
        requires { (0 < size) × (size ≤ 1024) × (length self.a.now % size ≡ 0) }
        ensures { FirstFound size self.entry.a.now self.entry.b.now result }
    {
        'pages: {
            for page in 0..self.len() / size {
                let at = page * size;
                if self.a[at..at + size] == self.b[at..at + size] {
                    continue;
                }
                for offset in 0..size {
                    if self.a[at + offset] != self.b[at + offset] {
                        break 'pages Some((page, offset));
                    }
                }
            }
            None
        }
    }
}
