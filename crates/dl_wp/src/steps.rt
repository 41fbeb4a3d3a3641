//! The steps, in terms.

use dl_term::{Lab, Term};
use sqlite_items::Items;

/// A send, in terms over the names that are in scope before it.
#[derive(Drop)]
pub struct SendStep {
    pub label: Lab,
    /// The position of the tag.
    pub tag: u8,
    /// The node that sends.
    pub sender: Term,
    /// The node that it is addressed to.
    pub to: Term,
    /// One for each argument of the tag.
    pub args: Items<Term>,
}

/// The receive of a message that is in scope before it.
#[derive(Drop)]
pub struct ReceiveStep {
    pub label: Lab,
    /// The position of the message's tag.
    pub tag: u8,
    /// The node that receives.
    pub receiver: Term,
    /// The name of the message.
    pub msg: u32,
}
