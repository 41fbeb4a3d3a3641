//! A state whose live messages are found without a walk over the others.

ghost use Rattle.std.specs.Prelude.{◌≡◌, ◌<◌, ◌-◌, ◌+◌, ◌++◌, ◌∷◌, [], length, IfOk, replicate, map};
ghost use Rattle.std.specs.List.{All};
ghost use Rattle.dl_term.specs.State.{soup_at};
ghost use Rattle.dl_model.specs.Formed.{InstancesAreFormed};
ghost use Rattle.dl_model.specs.Steps.{after_send, after_receive};
ghost use Rattle.dl_state.specs.Shapes.{shape_state, EachIsFilled};
ghost use Rattle.dl_proto.specs.Shaped.{IsShaped};
ghost use Rattle.dl_proto.specs.Given.{SendIsGiven, ReceiveIsGiven};
ghost use Rattle.dl_soup.specs.Live.{live_in};

use crate::ids::Ids;
use dl_model::Instances;
use dl_proto::{apply_receive, apply_send};
use dl_state::{Shape, WorldState};
use sqlite_items::at;
use std::alloc::{AllocError, Global};
use std::marker::Model;

// A state, with the ids of the live messages of each label.
#[derive(Drop)]
pub(crate) struct Pool {
    state: WorldState,
    live: Vec<Ids>,
}

impl Model for Pool {
    ghost use Rattle.dl_state.specs.Known.{Known};

    ghost Value = { Known };

    ghost use Rattle.dl_soup.specs.PoolKept.{known_of, PoolIsKept};

    ghost view = { known_of };

    ghost invariant = { PoolIsKept };
}

impl Pool {
    // The state of a shape, with room for that many messages.
    pub(crate) fn make(alloc: Global, shape: &Shape, room: u32) -> Result<Pool, AllocError>
        requires { EachIsFilled shape.now }
        ensures { IfOk result (λ pool. pool ≡ record { state = shape_state shape.now; spare = room }) }
    {
        let mut state = WorldState::init(alloc, shape)?;
        state.reserve(room)?;
        let live = make_rows(alloc, shape.labels.len(), room)?;
        Ok(Pool { state, live })
    }

    #[inline(always)]
    pub(crate) fn state(&self) -> &WorldState
        ensures { result.now ≡ self.now }
    {
        &self.state
    }

    // The ids of the live messages of a label.
    #[inline(always)]
    pub(crate) fn live(&self, label: u8) -> &[u32]
        ensures { result.now ≡ live_in (soup_at self.now.state label) }
    {
        match at(self.live.as_slice(), usize::from(label)) {
            Some(row) => row.as_slice(),
            None => &[],
        }
    }

    // Makes a node's raw send, and answers the message's id.
    #[inline(always)]
    pub(crate) fn send(
        &mut self,
        inst: &Instances,
        label: u8,
        tag: u8,
        from: u32,
        to: i64,
        args: &[i64],
    ) -> u32
        requires formed { InstancesAreFormed inst.now }
        requires shaped { IsShaped inst.now self.old.state }
        requires given { SendIsGiven inst.now label tag from args.now }
        requires room { 0 < self.old.spare }
        ensures id { result ≡ length (soup_at self.old.state label) }
        ensures pool { self.new ≡ record { state = after_send inst.now self.old.state from label tag to args.now; spare = self.old.spare - 1 } }
    {
        let id = apply_send(inst, &mut self.state, label, tag, from, to, args);
        let row = &mut self.live[usize::from(label)];
        row.push(id);
        id
    }

    // Makes a node's receive of the message with this id.
    #[inline(always)]
    pub(crate) fn receive(&mut self, inst: &Instances, label: u8, id: u32, node: u32)
        requires formed { InstancesAreFormed inst.now }
        requires shaped { IsShaped inst.now self.old.state }
        requires given { ReceiveIsGiven inst.now self.old.state label id node }
        ensures { self.new ≡ record { state = after_receive inst.now self.old.state node label id; spare = self.old.spare } }
    {
        apply_receive(inst, &mut self.state, label, id, node);
        let row = &mut self.live[usize::from(label)];
        row.remove(id);
    }
}

// That many empty lists, each with this room.
fn make_rows(alloc: Global, count: usize, room: u32) -> Result<Vec<Ids>, AllocError>
    ensures { IfOk result (λ rows. rows.items ≡ replicate count (record { ids = []; spare = room })) }
{
    let mut rows = Vec::new(alloc);
    for _made in 0..count {
        rows.push(Ids::make(alloc, room)?)?;
    }
    Ok(rows)
}
