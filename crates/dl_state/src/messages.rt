//! The messages of a label.

ghost use Rattle.std.specs.Prelude.{◌≡◌, ◌<◌, ◌+◌, ◌-◌, ◌^◌, ◌++◌, ◌∷◌, [], length, max, slice_get, OnOk, OnErr};
ghost use Rattle.std.specs.Option.{option_copied};
ghost use Rattle.dl_model.specs.Steps.{change, consumed};

use crate::message::Message;
use std::alloc::{AllocError, Global};
use std::marker::Model;

// The messages of a label, by their ids, and how many more there is room for.
#[derive(Drop)]
pub(crate) struct Messages {
    items: Vec<Message>,
    spare: u32,
}

impl Model for Messages {
    ghost use Rattle.dl_state.specs.Soup.{Soup, soup_of, HasRoom};

    ghost Value = { Soup };

    ghost view = { soup_of };

    ghost invariant = { HasRoom };
}

impl Messages {
    pub(crate) fn new(alloc: Global) -> Messages
        ensures { result ≡ record { messages = []; spare = 0 } }
    {
        Messages {
            items: Vec::new(alloc),
            spare: 0,
        }
    }

    pub(crate) fn len(&self) -> u32
        ensures { result ≡ length self.now.messages }
    {
        self.items.len() as u32
    }

    pub(crate) fn get(&self, id: u32) -> Option<&Message>
        ensures { option_copied result ≡ slice_get self.now.messages id }
    {
        self.items.get(id as usize)
    }

    // Makes room for that many more.
    pub(crate) fn reserve(&mut self, more: u32) -> Result<(), AllocError>
        requires { length self.old.messages + more < 2 ^ 32 }
        ensures messages { self.new.messages ≡ self.old.messages }
        ensures ok { OnOk result (self.new.spare ≡ max self.old.spare more) }
        ensures err { OnErr result (self.new.spare ≡ self.old.spare) }
    {
        if more > self.spare {
            self.items.reserve(more as usize)?;
            self.spare = more;
        }
        Ok(())
    }

    pub(crate) fn push(&mut self, message: Message)
        requires { 0 < self.old.spare }
        ensures { self.new ≡ record { messages = self.old.messages ++ message ∷ []; spare = self.old.spare - 1 } }
    {
        self.items.push_reserved(message);
        self.spare -= 1;
    }

    // Clears the mark of a message.
    pub(crate) fn consume(&mut self, id: u32)
        requires { id < length self.old.messages }
        ensures { self.new ≡ record { messages = change consumed self.old.messages id; spare = self.old.spare } }
    {
        let message = &mut self.items[id as usize];
        message.live = false;
    }
}
