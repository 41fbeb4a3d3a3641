//! The replay of a history.

ghost use Rattle.std.specs.Prelude.{◌≡◌, ◌<◌, ◌≤◌, ◌^◌, ℕ, length, IfOk, MatchOption, Err};
ghost use Rattle.dl_model.specs.Formed.{IsFormed};
ghost use Rattle.dl_model.specs.Runs.{IsRun, Leads};
ghost use Rattle.dl_model.specs.States.{first_state};
ghost use Rattle.dl_state.specs.Shapes.{shape_state, EachIsFilled};
ghost use Rattle.dl_history.specs.declared.fault.ReplayFault.TheVariants.{At};
ghost use Rattle.dl_history.specs.Given.{IsGiven};
ghost use Rattle.dl_history.specs.Meant.{meant};
ghost use Rattle.dl_history.specs.Replayed.{IsFirstFault, IsFaultAt};

use crate::config::Config;
use crate::events::make_event;
use crate::fault::ReplayFault;
use crate::start::start;
use dl_model::{Decls, Entry};
use dl_state::Shape;
use std::alloc::Global;

/// The configuration after a history: the state, and the machine of each node that runs a program. `At` has the
/// position, from 0, of the first entry that is no event there, and `Memory` comes only where memory is refused.
///
/// The conditions are that the declarations are formed, that the shape is theirs, and that there are fewer than 2^32
/// entries.
pub fn replay(
    alloc: Global,
    decls: &Decls,
    shape: &Shape,
    entries: &[Entry],
) -> Result<Config, ReplayFault>
    requires formed { IsFormed decls.now }
    requires filled { EachIsFilled shape.now }
    requires shape { shape_state shape.now ≡ first_state decls.now.inst }
    requires few { length entries.now < 2 ^ 32 }
    ensures run { IfOk result (λ config. IsRun decls.now entries.now (meant decls.now config)) }
    ensures given { IfOk result (λ config. IsGiven decls.now config) }
    ensures fault { (position : ℕ) → result ≡ Err (At position) → IsFirstFault decls.now entries.now position }
{
    let mut config = start(alloc, decls, shape, entries.len() as u32)?;
    match make_events(decls, &mut config, entries) {
        Some(position) => {
            drop(config);
            Err(ReplayFault::At(position))
        }
        None => Ok(config),
    }
}

// Makes the events up to the first entry that is none, and answers its position.
fn make_events(decls: &Decls, config: &mut Config, entries: &[Entry]) -> Option<u32>
    requires formed { IsFormed decls.now }
    requires given { IsGiven decls.now config.old }
    requires few { length entries.now < 2 ^ 32 }
    requires room { length entries.now ≤ config.old.state.spare }
    ensures { MatchOption result (Leads decls.now (meant decls.now config.old) entries.now (meant decls.now config.new) × IsGiven decls.now config.new) (λ position. IsFaultAt decls.now (meant decls.now config.old) entries.now position) }
{
    for position in 0..entries.len() {
        if !make_event(decls, config, &entries[position]) {
            return Some(position as u32);
        }
    }
    None
}
