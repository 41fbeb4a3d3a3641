//! What the lists around a place have named.

use crate::declared::Protocol;
use crate::text::Text;
use dl_term::Sort;
use sqlite_items::Items;

/// What the item has named up to a place.
#[derive(Drop)]
pub struct Scope<'a> {
    /// The variables that are no locals.
    pub variables: Items<Text<'a>>,
    /// The names of messages.
    pub messages: Items<Text<'a>>,
    /// The names of hypotheses.
    pub hypotheses: Items<Text<'a>>,
    /// The locals of a procedure.
    pub locals: Items<Text<'a>>,
    /// A hypothesis that only the script behind the next one knows.
    pub pending: Items<Text<'a>>,
    /// The protocol of the item, as far as it goes.
    pub own: Protocol<'a>,
    /// Whether `self` stands for it.
    pub has_own: bool,
    /// The sorts of the parameters.
    pub parameters: Items<Sort>,
    /// The sort just before.
    pub sort: Option<Sort>,
    /// The core of a hook.
    pub core: Text<'a>,
    /// The label just before.
    pub label: Text<'a>,
    /// The number of arguments of the tag just before, where it is known.
    pub arguments: Option<usize>,
    /// The procedure just before.
    pub procedure: Text<'a>,
    /// The sorts of the constants that it still wants.
    pub wanted: Items<Sort>,
    /// The word of an obligation.
    pub obligation: Text<'a>,
    /// Of each name that the obligation still wants, whether it is a message.
    pub named: Items<bool>,
    /// What may stand once in a list and stood there before.
    pub listed: Items<Text<'a>>,
}
