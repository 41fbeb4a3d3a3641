//! Reading and changing the value while a seat is inside.
ghost use Rattle.std.specs.Prelude.{◌≡◌};
ghost use Rattle.std.specs.Borrow.{Lends, sem};
ghost use Rattle.dl_turn.specs.contracts.lock.Held.{the_row};
ghost use Rattle.dl_turn.specs.Held.{value_in, with_value};

use crate::lock::Held;

impl<T> Held<T> {
    /// Lends the value. What is written through the reference is what `leave` puts back.
    pub fn value(&mut self) -> &mut T
        ensures* writes_back { sem 𝓛 (Lends (the_row T.row) T.row self.entry result (with_value self.old)) }
        ensures value { result.now ≡ value_in self.old }
    {
        &mut self.value
    }
}
