//! Configurations: the state of a world, and the machines of its nodes.

ghost use Rattle.std.specs.Prelude.{◌≡◌, ◌++◌, ◌∷◌, [], OnOk};
ghost use Rattle.dl_history.specs.Runners.{place_of};

use dl_prog::Cont;
use dl_state::WorldState;
use std::alloc::{AllocError, Global};
use std::marker::Model;

/// The state of a world, and the machine of each node that runs a program.
#[derive(Drop)]
pub struct Config {
    pub state: WorldState,
    pub machines: Machines,
}

/// Machines, each with its node. Contracts see them as a list.
#[derive(Drop)]
pub struct Machines {
    pub(crate) items: Vec<(u32, Cont)>,
}

impl Model for Machines {
    ghost use Rattle.std.specs.Prelude.{List};
    ghost use Rattle.dl_history.specs.Runners.{Runner};

    ghost Value = { List Runner };

    ghost view = { λ m. m.items.items };
}

impl Machines {
    pub(crate) fn new(alloc: Global) -> Machines
        ensures { result ≡ [] }
    {
        Machines {
            items: Vec::new(alloc),
        }
    }

    pub(crate) fn push(&mut self, node: u32, cont: Cont) -> Result<(), AllocError>
        ensures { OnOk result (self.new ≡ self.old ++ record { 0 = node; 1 = cont } ∷ []) }
    {
        self.items.push((node, cont))?;
        Ok(())
    }

    /// Each machine with its node.
    pub fn as_slice(&self) -> &[(u32, Cont)]
        ensures { result.now ≡ self.now }
    {
        self.items.as_slice()
    }

    // Where the node stands in the list, if it is there.
    pub(crate) fn place(&self, node: u32) -> Option<usize>
        ensures { result ≡ place_of self.now node }
    {
        place_in(self.as_slice(), node)
    }
}

fn place_in(runners: &[(u32, Cont)], node: u32) -> Option<usize>
    ensures { result ≡ place_of runners.now node }
{
    let [(known, _), rest @ ..] = runners else {
        return None;
    };
    if node == *known {
        return Some(0);
    }
    match place_in(rest, node) {
        Some(place) => Some(place + 1),
        None => None,
    }
}
