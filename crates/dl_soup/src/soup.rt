//! The soup.

ghost use Rattle.std.specs.Prelude.{◌≡◌, ◌<◌, [], if◌then◌else◌, IfOk, IfSome, Some, None};
ghost use Rattle.dl_model.specs.Formed.{InstancesAreFormed};
ghost use Rattle.dl_model.specs.Delivery.{matches, IsChosen};
ghost use Rattle.dl_model.specs.Runs.{Replies};
ghost use Rattle.dl_state.specs.Shapes.{shape_state};
ghost use Rattle.dl_soup.specs.Given.{ShapeIsGiven, CallIsGiven};
ghost use Rattle.dl_soup.specs.Kept.{IsKept};
ghost use Rattle.dl_soup.specs.Replies.{reply_of, acted, can_call, has_any, receives_in};

use crate::answer::{answer, waits};
use crate::entries::Entries;
use crate::pick::{Wanted, has_match};
use crate::pool::Pool;
use crate::start::{Start, seed_of};
use dl_model::{Call, Entry, Instances, Order, Reply};
use dl_state::{Shape, WorldState};
use std::alloc::{AllocError, Global};
use std::marker::Model;

/// The one soup of messages that all nodes share. Contracts see its instances, its shape, its order of delivery, its
/// state, the history of the calls that led to it, and how many more calls there is room for.
///
/// Of each soup it holds that its history is a run of the soup under its order, which leads from the first state to the
/// state: clause `kept` of [`Soup::make`], [`Soup::act`], [`Soup::act_ready`], [`Soup::history`] and
/// [`Soup::state`].
#[derive(Drop)]
pub struct Soup {
    inst: Instances,
    shape: Shape,
    order: Order,
    // where the order's generator has come to
    turn: u64,
    pool: Pool,
    history: Entries,
}

impl Model for Soup {
    ghost use Rattle.std.specs.Coded.{codes};
    ghost use Rattle.dl_term.specs.contracts.syntax.Term as term;
    ghost use Rattle.dl_term.specs.contracts.syntax.Formula as formula;
    ghost use Rattle.dl_soup.specs.Seen.{Seen};

    ghost Value = { Seen };

    ghost coded = { Prim.hlevel (codes, term.the_row.coded, formula.the_row.coded) };

    ghost use Rattle.dl_soup.specs.SoupKept.{seen_of, SoupIsKept};

    ghost view = { seen_of };

    ghost invariant = { SoupIsKept };
}

impl Soup {
    /// A soup in its first state, with no messages and no history, and with room for that many calls. The one refusal is
    /// want of memory.
    ///
    /// The conditions are that the instances are formed, and that the shape has their nodes and, for each label, the
    /// fields of its protocol, each with a first value for each node.
    pub fn make(
        alloc: Global,
        inst: Instances,
        shape: &Shape,
        order: Order,
        room: u32,
    ) -> Result<Soup, AllocError>
        requires formed { InstancesAreFormed inst }
        requires shape { ShapeIsGiven inst shape.now }
        ensures soup { IfOk result (λ soup. soup ≡ record { inst = inst; shape = shape.now; order = order; state = shape_state shape.now; history = []; spare = room }) }
        ensures kept { IfOk result IsKept }
    {
        match Start::make(alloc, shape, room) {
            Ok(start) => {
                let Start {
                    shape,
                    pool,
                    history,
                } = start;
                Ok(Soup {
                    inst,
                    shape,
                    order,
                    turn: seed_of(order),
                    pool,
                    history,
                })
            }
            Err(fault) => {
                drop(inst);
                Err(fault)
            }
        }
    }

    /// Makes a node's call, after so many ticks, and answers its reply: one event of the model, which is added to the
    /// history. Of several matches the one that the order names is received. It takes no memory.
    ///
    /// The conditions are that there is room for a call, that the node exists, and that a send is of a label and a tag
    /// that exist, with as many arguments as the tag has.
    pub fn act(&mut self, node: u32, ticks: u32, call: &Call) -> Reply
        requires room { 0 < self.old.spare }
        requires given { CallIsGiven self.old.inst node call.now }
        ensures reply { result ≡ reply_of self.old node call.now }
        ensures soup { self.new ≡ acted self.old node ticks call.now }
        ensures replies { Replies self.old.inst self.old.state node call.now result }
        ensures chosen { IsChosen self.old.order (receives_in self.old.history) self.old.inst self.old.state node call.now result }
        ensures kept { IsKept self.new }
    {
        let reply = answer(
            &self.inst,
            &mut self.pool,
            self.order,
            &mut self.turn,
            node,
            call,
        );
        self.history.push(node, ticks, call, &reply);
        reply
    }

    /// Makes a node's call as [`Soup::act`] does, but where it is an await without a match nothing changes, and the answer
    /// is none. It takes no memory.
    ///
    /// The conditions are those of [`Soup::act`].
    #[inline(always)]
    pub fn act_ready(&mut self, node: u32, ticks: u32, call: &Call) -> Option<Reply>
        requires room { 0 < self.old.spare }
        requires given { CallIsGiven self.old.inst node call.now }
        ensures reply { result ≡ (if can_call self.old node call.now then Some (reply_of self.old node call.now) else None) }
        ensures soup { self.new ≡ (if can_call self.old node call.now then acted self.old node ticks call.now else self.old) }
        ensures replies { IfSome result (λ reply. Replies self.old.inst self.old.state node call.now reply) }
        ensures chosen { IfSome result (λ reply. IsChosen self.old.order (receives_in self.old.history) self.old.inst self.old.state node call.now reply) }
        ensures kept { IsKept self.new }
    {
        let reply = answer(
            &self.inst,
            &mut self.pool,
            self.order,
            &mut self.turn,
            node,
            call,
        );
        if waits(call, &reply) {
            return None;
        }
        self.history.push(node, ticks, call, &reply);
        Some(reply)
    }

    /// Whether there is a message of the tag at the label that the node can receive. It takes no memory.
    pub fn ready(&self, node: u32, label: u8, tag: u8) -> bool
        ensures { result ≡ has_any (matches self.now.inst self.now.state node label tag) }
    {
        let wanted = Wanted { node, label, tag };
        has_match(&self.inst, &self.pool, &wanted)
    }

    /// The entries of the calls, in order. It takes no memory.
    pub fn history(&self) -> &[Entry]
        ensures entries { result.now ≡ self.now.history }
        ensures kept { IsKept self.now }
    {
        self.history.as_slice()
    }

    /// The state of the world. It takes no memory.
    pub fn state(&self) -> &WorldState
        ensures state { result.now.state ≡ self.now.state }
        ensures kept { IsKept self.now }
    {
        self.pool.state()
    }
}

fn crosses<S: Send + Sync>(_value: &S) {}

// The state and the history of a soup may cross threads, and threads may share them.
fn crosses_threads(pool: &Pool, history: &Entries) {
    crosses(pool);
    crosses(history);
}
