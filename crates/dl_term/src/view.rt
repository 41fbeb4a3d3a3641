//! The state that terms and formulas are evaluated in.

ghost use Rattle.std.specs.Prelude.{◌≡◌, length};
ghost use Rattle.dl_term.specs.State.{State, field_at, soup_at, message_at, tag_of, part_at};

use crate::syntax::Part;

/// A state of a world that can be read. Its meaning is a `State`, and each call answers 0 for what isn't there.
pub trait View {
    ghost state: { Self → State };

    /// The number of nodes. Nodes are the numbers below it.
    fn nodes(&self) -> u32
        ensures { result ≡ (state self.now).nodes };

    /// What stands in a field or row at this node and index. The index is 0 for a field that is no row.
    fn field(&self, label: u8, field: u8, node: i128, index: i128) -> i64
        ensures { result ≡ field_at (state self.now) label field node index };

    /// The number of messages in the label's soup. Their ids are the numbers below it.
    fn len(&self, label: u8) -> u32
        ensures { result ≡ length (soup_at (state self.now) label) };

    /// The tag of the message with this id.
    fn tag(&self, label: u8, id: u32) -> u8
        ensures { result ≡ tag_of (message_at (state self.now) label id) };

    /// A part of the message with this id. `Part::Live` reads 1 or 0.
    fn part(&self, label: u8, id: u32, part: Part) -> i64
        ensures { result ≡ part_at (state self.now) label id part };
}
