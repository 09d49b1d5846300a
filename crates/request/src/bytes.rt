// Some of a request's bytes.
ghost use Rattle.std.specs.Prelude.{◌≡◌, ◌+◌, ◌≤◌, length};

// N bytes, from a place on.
#[derive(Clone, Copy)]
pub struct Bytes<'a, const N: usize> {
    pub of: &'a [u8],
    pub at: usize,
    ghost inside: { at + N ≤ length of.now },
}

impl<'a, const N: usize> Bytes<'a, N> {
    // M of them, from the i-th on.
    pub fn part<const M: usize>(self, i: usize) -> Bytes<'a, M>
        requires { i + M ≤ N }
        ensures { (result.of.now ≡ self.entry.of.now) × (result.at ≡ self.entry.at + i) }
    {
        Bytes {
            of: self.of,
            at: self.at + i,
        }
    }
}
