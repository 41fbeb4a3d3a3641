//! Messages.

ghost use Rattle.std.specs.Prelude.{◌≡◌, ◌≤◌, true, length};

use std::marker::Model;

/// A message in a record of fixed size. Contracts see it as a message of the model.
#[derive(Clone, Copy, Debug)]
pub struct Message {
    /// The position of its tag in the protocol.
    pub tag: u8,
    /// The node that sent it.
    pub from: u32,
    /// The node that it is addressed to, or another number where it was addressed to none.
    pub to: i64,
    /// Whether it was not received yet.
    pub live: bool,
    /// How many arguments it has, at most 8.
    pub count: u8,
    /// Its arguments. Those past the count are 0.
    pub args: [i64; 8],
}

impl Model for Message {
    ghost use Rattle.dl_term.specs.State.{Message as Meant};

    ghost Value = { Meant };

    ghost use Rattle.dl_state.specs.Packed.{message_of, IsPacked, packed_of, packed-again};

    ghost view = { message_of };

    ghost invariant = { IsPacked };

    ghost inverse = { packed_of };

    ghost inverse_ok = { packed-again };
}

impl Message {
    /// A live message with these arguments, at most 8.
    pub fn new(tag: u8, from: u32, to: i64, args: &[i64]) -> Message
        requires { length args.now ≤ 8 }
        ensures { result ≡ record { tag = tag; from = from; to = to; live = true; args = args.now } }
    {
        let mut values = [0; 8];
        values[..args.len()].copy_from_slice(args);
        Message {
            tag,
            from,
            to,
            live: true,
            count: args.len() as u8,
            args: values,
        }
    }

    /// Its arguments, as many as its count.
    pub fn arguments(&self) -> &[i64]
        ensures args { result.now ≡ self.now.args }
        ensures few { length result.now ≤ 8 }
    {
        &self.args[..usize::from(self.count)]
    }
}
