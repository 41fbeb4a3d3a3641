//! The names that quantifiers bind around a place.

ghost use Rattle.std.specs.Prelude.{◌≡◌};
ghost use Rattle.dl_wp.specs.Code.{around_of};

/// The names that quantifiers bind around a place, from the innermost.
#[derive(Clone, Copy)]
pub(crate) enum Bound<'a> {
    Nothing,
    Variable(&'a Bound<'a>, u32),
    /// The last part says whether the quantifier is over the label and the tag of the step.
    Message(&'a Bound<'a>, u32, bool),
}

/// Whether a quantifier around binds this variable.
pub(crate) fn binds_variable(bound: &Bound, sym: u32) -> bool
    ensures { result ≡ (around_of bound.now).variable sym }
{
    match bound {
        Bound::Nothing => false,
        Bound::Variable(outer, name) => sym == *name || binds_variable(outer, sym),
        Bound::Message(outer, _, _) => binds_variable(outer, sym),
    }
}

/// Whether a quantifier around binds this message.
pub(crate) fn binds_message(bound: &Bound, msg: u32) -> bool
    ensures { result ≡ (around_of bound.now).message msg }
{
    match bound {
        Bound::Nothing => false,
        Bound::Variable(outer, _) => binds_message(outer, msg),
        Bound::Message(outer, name, _) => msg == *name || binds_message(outer, msg),
    }
}

/// Whether the innermost quantifier around that binds this message is over the label and the tag of the step.
pub(crate) fn is_bound_over(bound: &Bound, msg: u32) -> bool
    ensures { result ≡ (around_of bound.now).over msg }
{
    match bound {
        Bound::Nothing => false,
        Bound::Variable(outer, _) => is_bound_over(outer, msg),
        Bound::Message(outer, name, over) => if msg == *name {
            *over
        } else {
            is_bound_over(outer, msg)
        },
    }
}

/// Whether a quantifier around binds this message, but for the innermost one that binds the message `but`.
pub(crate) fn binds_beside(bound: &Bound, but: u32, msg: u32) -> bool
    ensures { result ≡ (around_of bound.now).beside but msg }
{
    match bound {
        Bound::Nothing => false,
        Bound::Variable(outer, _) => binds_beside(outer, but, msg),
        Bound::Message(outer, name, _) => if but == *name {
            binds_message(outer, msg)
        } else {
            msg == *name || binds_beside(outer, but, msg)
        },
    }
}
