// What a clock is read from: the words of a bank, and the hertz that HSE is fed with.
ghost use Rattle.std.specs.Prelude.{◌≡◌};
ghost use Rattle.rules.specs.Manual.Tree.{word as word_of};

#[derive(Clone, Copy)]
pub struct Bank<'a> {
    pub words: &'a [u32],
    pub hse: Option<u32>,
}

impl Bank<'_> {
    // The word of a field; 0 where the bank has none.
    pub fn word(&self, f: usize) -> u32
        ensures { result ≡ word_of self.now.words.now f }
    {
        fields::word(self.words, f)
    }
}
