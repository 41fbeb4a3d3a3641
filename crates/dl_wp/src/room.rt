//! The room that is left for a result, in parts.

ghost use Rattle.std.specs.Prelude.{◌≡◌, ◌≤◌, ◌<◌, ◌+◌, ◌-◌, ◌^◌, IfOk};
ghost use Rattle.dl_term.specs.Measures.{parts};

use crate::faults::Stop;
use dl_term::{Term, term_size};

/// What is left of the room after so many parts.
pub(crate) fn less(room: u64, parts: u64) -> Result<u64, Stop>
    ensures left { IfOk result (λ left. left + parts ≡ room) }
    ensures lacks { (result ≡ Err Stop.Room) → room < parts }
{
    match room.checked_sub(parts) {
        Some(left) => Ok(left),
        None => Err(Stop::Room),
    }
}

/// What is left of the room after the term.
pub(crate) fn less_term(room: u64, term: &Term) -> Result<u64, Stop>
    requires { room < 2 ^ 64 - 1 }
    ensures left { IfOk result (λ left. left + parts term.now ≡ room) }
    ensures lacks { (result ≡ Err Stop.Room) → room < parts term.now }
{
    less(room, term_size(term))
}

/// A room for a term that is compared with this one, and is no part of the result where the two are the same.
pub(crate) fn room_beside(room: u64, term: &Term) -> Result<u64, Stop>
    ensures enough { IfOk result (λ enough. (room ≤ enough) × (parts term.now ≤ enough) × (enough < 2 ^ 64 - 1)) }
    ensures memory { (result ≡ Err Stop.Room) → ⊥ }
{
    let enough = room.max(term_size(term));
    if enough == u64::MAX {
        Err(Stop::Memory)
    } else {
        Ok(enough)
    }
}
