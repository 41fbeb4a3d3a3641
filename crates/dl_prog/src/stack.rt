//! The path of a machine, in memory that is taken once.

ghost use Rattle.std.specs.Prelude.{◌≡◌, ◌<◌, ◌-◌, ◌+◌, [], ◌∷◌, drop, length, IfOk};

use crate::slots::Slot;
use std::alloc::{AllocError, Global};
use std::marker::Model;

// How the path goes on: into a procedure, or into a command.
#[derive(Clone, Copy)]
pub(crate) enum Step {
    // The caller goes on at `back`, with the slots that it had.
    Enter {
        proc: u8,
        back: usize,
        saved: [Slot; 25],
    },
    // Into the command at `at`, of a choice into its first branch or the other one. After these commands the outer ones
    // go on at `back`.
    Inside {
        at: usize,
        first: bool,
        back: usize,
    },
}

// A path from the innermost step, and how many steps more there is room for. Cells before `low` are free.
#[derive(Drop)]
pub(crate) struct Stack {
    cells: Vec<Step>,
    low: usize,
}

impl Model for Stack {
    ghost use Rattle.dl_prog.specs.Stack.{Path, path_of, IsWithin};

    ghost Value = { Path };

    ghost view = { path_of };

    ghost invariant = { IsWithin };
}

impl Stack {
    // An empty path with room for so many steps.
    pub(crate) fn make(alloc: Global, room: usize) -> Result<Stack, AllocError>
        ensures { IfOk result (λ stack. stack ≡ record { items = []; spare = room }) }
    {
        let mut cells = Vec::new(alloc);
        cells.resize(
            room,
            Step::Inside {
                at: 0,
                first: false,
                back: 0,
            },
        )?;
        Ok(Stack { cells, low: room })
    }

    // The path, from the innermost step.
    #[inline(always)]
    pub(crate) fn steps(&self) -> &[Step]
        ensures { result.now ≡ self.now.items }
    {
        &self.cells[self.low..]
    }

    // Makes the path a step longer.
    pub(crate) fn push(&mut self, step: Step)
        requires { 0 < self.old.spare }
        ensures { self.new ≡ record { items = step ∷ self.old.items; spare = self.old.spare - 1 } }
    {
        self.low -= 1;
        self.cells[self.low] = step;
    }

    // Takes the innermost step away.
    pub(crate) fn pop(&mut self)
        requires { 0 < length self.old.items }
        ensures { self.new ≡ record { items = drop 1 self.old.items; spare = self.old.spare + 1 } }
    {
        self.low += 1;
    }
}
