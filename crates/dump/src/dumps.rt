// What is compared, once the tests have passed.
ghost use Rattle.std.specs.Prelude.{◌≡◌, length};

// Two dumps of one length.
#[derive(Clone, Copy)]
pub(crate) struct Dumps<'a> {
    pub(crate) a: &'a [u8],
    pub(crate) b: &'a [u8],
    ghost same_length: { length a.now ≡ length b.now },
}

impl Dumps<'_> {
    // The length of both.
    pub(crate) fn len(self) -> usize
        ensures { result ≡ length self.entry.a.now }
    {
        self.a.len()
    }
}
