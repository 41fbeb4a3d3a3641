//! Terms for the parts of a message.

use dl_term::Term;
use sqlite_items::Items;

/// Terms for the parts of a message. An argument past the last of `args` is 0.
#[derive(Drop)]
pub struct NewMessage {
    pub id: Term,
    pub from: Term,
    pub to: Term,
    pub live: Term,
    pub args: Items<Term>,
}
