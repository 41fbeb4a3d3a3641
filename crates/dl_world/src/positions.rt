//! Lists of positions that can be looked up in one step.

ghost use Rattle.std.specs.Prelude.{◌≡◌};
ghost use Rattle.dl_model.specs.Sorts.{has as has_position};

use std::marker::Model;

// A list of positions with a mark for each number that is in it. Contracts see the list.
#[derive(Drop)]
pub(crate) struct Positions<'a> {
    list: &'a [u8],
    marks: [bool; 256],
}

impl<'a> Model for Positions<'a> {
    ghost use Rattle.std.specs.Prelude.{ℕ, List};
    ghost use Rattle.dl_world.specs.Positions.{AreMarked};

    ghost Value = { List ℕ };

    ghost view = { λ p. p.list.now };

    ghost invariant = { λ p. AreMarked p.list.now p.marks };
}

impl<'a> Positions<'a> {
    pub(crate) fn of(list: &'a [u8]) -> Positions<'a>
        ensures { result ≡ list.now }
    {
        let mut marks = [false; 256];
        for position in list {
            marks[usize::from(*position)] = true;
        }
        Positions { list, marks }
    }

    // Whether the list has the position.
    pub(crate) fn has(&self, position: u8) -> bool
        ensures { result ≡ has_position self.now position }
    {
        self.marks[usize::from(position)]
    }
}
