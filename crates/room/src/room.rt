// A room that is written from its front.
ghost use Rattle.std.specs.Prelude.{◌≤◌, length};

// What is written stands before `at`.
#[derive(Drop)]
pub struct Room<'a, T> {
    pub items: &'a mut [T],
    pub at: usize,
    ghost within: { at ≤ length items.now },
}
