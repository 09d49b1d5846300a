// A request's bytes.
ghost use Rattle.std.specs.Prelude.{◌≡◌, ◌+◌, ◌≤◌, length};
ghost use Rattle.rules.specs.Document01.Bytes.{size_of};

use crate::bytes::Bytes;

// The bytes, as many as there are for two PLLs or three.
#[derive(Clone, Copy)]
pub struct Form<'a> {
    pub bytes: &'a [u8],
    pub three: bool,
    ghost least: { 90 ≤ length bytes.now },
    ghost sized: { size_of three ≤ length bytes.now },
}

impl<'a> Form<'a> {
    // N bytes from a place on.
    pub fn from<const N: usize>(&self, at: usize) -> Bytes<'a, N>
        requires { at + N ≤ length self.now.bytes.now }
        ensures { (result.of.now ≡ self.now.bytes.now) × (result.at ≡ at) }
    {
        Bytes { of: self.bytes, at }
    }
}
