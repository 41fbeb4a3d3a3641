//! The entries of a history.

ghost use Rattle.std.specs.Prelude.{◌≡◌, ◌<◌, ◌-◌, ◌++◌, ◌∷◌, [], IfOk};
ghost use Rattle.dl_soup.specs.Replies.{entry_of};

use dl_model::{Call, Entry, Reply};
use std::alloc::{AllocError, Global};
use std::marker::Model;

// Entries, and how many more there is room for.
#[derive(Drop)]
pub(crate) struct Entries {
    items: Vec<Entry>,
    spare: u32,
}

impl Model for Entries {
    ghost use Rattle.dl_soup.specs.EntryRows.{EntryRow, entry_row, EntriesHaveRoom};

    ghost Value = { EntryRow };

    ghost view = { entry_row };

    ghost invariant = { EntriesHaveRoom };
}

impl Entries {
    pub(crate) fn make(alloc: Global, room: u32) -> Result<Entries, AllocError>
        ensures { IfOk result (λ row. row ≡ record { entries = []; spare = room }) }
    {
        let mut items = Vec::new(alloc);
        items.reserve(room as usize)?;
        Ok(Entries { items, spare: room })
    }

    #[inline(always)]
    pub(crate) fn as_slice(&self) -> &[Entry]
        ensures { result.now ≡ self.now.entries }
    {
        self.items.as_slice()
    }

    // Adds an entry. It is built where it stays.
    #[inline(always)]
    pub(crate) fn push(&mut self, node: u32, ticks: u32, call: &Call, reply: &Reply)
        requires { 0 < self.old.spare }
        ensures { self.new ≡ record { entries = self.old.entries ++ entry_of node ticks call.now reply.now ∷ []; spare = self.old.spare - 1 } }
    {
        self.items.push_reserved(Entry {
            node,
            ticks,
            call: *call,
            reply: *reply,
        });
        self.spare -= 1;
    }
}
