//! What a machine answers.

use dl_model::Call;

/// What a machine does next.
#[derive(Clone, Copy, Debug, PartialEq, Eq)]
pub enum At {
    /// A tick was made.
    Tick,
    /// It stands at this call, and stays there until it gets a reply.
    Call(Call),
    /// Its program returned this number.
    Ended(i64),
    /// A number left the range of i64.
    Stopped,
}
