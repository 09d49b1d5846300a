// Items written one behind the other, as far as there is room.
ghost use Rattle.std.specs.Prelude.{[], ◌∷◌};
ghost use Rattle.room.specs.Write.{Wrote};

use crate::room::Room;

impl<T: Copy> Room<'_, T> {
    // Nothing is written where there is no room.
    #[inline(always)]
    pub fn put(&mut self, x: T)
        ensures { Wrote self.old self.new (x ∷ []) }
    {
        if self.at < self.items.len() {
            self.items[self.at] = x;
            self.at += 1;
        }
    }
}
