//! The ids of the live messages of a label.

ghost use Rattle.std.specs.Prelude.{◌≡◌, ◌<◌, ◌-◌, ◌++◌, ◌∷◌, [], IfOk};
ghost use Rattle.std.specs.List.{filter};
ghost use Rattle.dl_soup.specs.Live.{is_alone, other_than};

use std::alloc::{AllocError, Global};
use std::marker::Model;

// Ids in ascending order, and how many more there is room for.
#[derive(Drop)]
pub(crate) struct Ids {
    items: Vec<u32>,
    spare: u32,
}

impl Model for Ids {
    ghost use Rattle.dl_soup.specs.IdRows.{IdRow, id_row, IdsHaveRoom};

    ghost Value = { IdRow };

    ghost view = { id_row };

    ghost invariant = { IdsHaveRoom };
}

impl Ids {
    pub(crate) fn make(alloc: Global, room: u32) -> Result<Ids, AllocError>
        ensures { IfOk result (λ row. row ≡ record { ids = []; spare = room }) }
    {
        let mut items = Vec::new(alloc);
        items.reserve(room as usize)?;
        Ok(Ids { items, spare: room })
    }

    #[inline(always)]
    pub(crate) fn as_slice(&self) -> &[u32]
        ensures { result.now ≡ self.now.ids }
    {
        self.items.as_slice()
    }

    #[inline(always)]
    pub(crate) fn push(&mut self, id: u32)
        requires { 0 < self.old.spare }
        ensures { self.new ≡ record { ids = self.old.ids ++ id ∷ []; spare = self.old.spare - 1 } }
    {
        self.items.push_reserved(id);
        self.spare -= 1;
    }

    // Whether this is the one id.
    #[inline(always)]
    fn is_alone(&self, id: u32) -> bool
        ensures { result ≡ is_alone id self.now.ids }
    {
        let [only] = self.items.as_slice() else {
            return false;
        };
        *only == id
    }

    // Takes out an id, wherever it stands. Mostly it is the only one, and then there is no walk.
    #[inline(always)]
    pub(crate) fn remove(&mut self, id: u32)
        ensures ids { self.new.ids ≡ filter (other_than id) self.old.ids }
        ensures spare { self.new.spare ≡ self.old.spare }
    {
        if self.is_alone(id) {
            self.items.clear();
            return;
        }
        self.items.retain(|other| *other != id);
    }
}
