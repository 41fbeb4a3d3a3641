//! The state of a world.

ghost use Rattle.std.specs.Prelude.{◌≡◌, ℕ, ◌<◌, ◌+◌, ◌++◌, ◌∷◌, [], pos, length, map, max, IfOk, OnOk, OnErr};
ghost use Rattle.std.specs.List.{All};
ghost use Rattle.std.specs.Option.{option_copied};
ghost use Rattle.dl_term.specs.State.{statelet, soup_at, message_at, field_at, tag_of, part_at, part_of};
ghost use Rattle.dl_model.specs.Steps.{change, consumed, set_cell};
ghost use Rattle.dl_state.specs.Shapes.{shape_state, EachIsFilled};
ghost use Rattle.dl_state.specs.Places.{HasPlace};
ghost use Rattle.dl_state.specs.Writes.{with_fields, with_soup, CanGrow};
ghost use Rattle.dl_state.specs.Kept.{statelet_of, HasSpare, SlotCanGrow};

use crate::board::Board;
use crate::message::Message;
use crate::messages::Messages;
use crate::shape::Shape;
use dl_term::{Part, View};
use std::alloc::{AllocError, Global};
use std::marker::Model;

// What a label has.
#[derive(Drop)]
pub(crate) struct Slot {
    board: Board,
    messages: Messages,
}

/// The state of a world. Contracts see it as a state of the model, and the number of messages that each soup
/// has room for.
#[derive(Drop)]
pub struct WorldState {
    nodes: u32,
    labels: Vec<Slot>,
    spare: u32,
}

impl Model for WorldState {
    ghost use Rattle.dl_state.specs.Known.{Known};

    ghost Value = { Known };

    ghost use Rattle.dl_state.specs.Kept.{known_of, EachHasSpare};

    ghost view = { known_of };

    ghost invariant = { EachHasSpare };
}

impl WorldState {
    /// The state of a shape: each field has its first values, and there are no messages and no room for one.
    /// The condition is that each field has a first value for each node. The one refusal is want of memory.
    pub fn init(alloc: Global, shape: &Shape) -> Result<WorldState, AllocError>
        requires { EachIsFilled shape.now }
        ensures { IfOk result (λ world. world ≡ record { state = shape_state shape.now; spare = 0 }) }
    {
        let mut labels = Vec::new(alloc);
        for fields in shape.labels.as_slice() {
            let board = Board::lay(alloc, shape.nodes, fields.as_slice())?;
            let messages = Messages::new(alloc);
            labels.push(Slot { board, messages })?;
        }
        Ok(WorldState {
            nodes: shape.nodes,
            labels,
            spare: 0,
        })
    }

    /// Makes room for that many more messages in each soup. The condition is that they and the messages of each
    /// label are together fewer than 2^32. The one refusal is want of memory, and then nothing has changed.
    pub fn reserve(&mut self, more: u32) -> Result<(), AllocError>
        requires { All (CanGrow more) self.old.state.labels }
        ensures state { self.new.state ≡ self.old.state }
        ensures ok { OnOk result (self.new.spare ≡ max self.old.spare more) }
        ensures err { OnErr result (self.new.spare ≡ self.old.spare) }
    {
        reserve_each(self.labels.as_mut_slice(), more)?;
        self.spare = self.spare.max(more);
        Ok(())
    }

    /// Appends a message to the soup of a label that exists, and answers its id. There is room for it. It takes no
    /// memory.
    pub fn append(&mut self, label: u8, message: Message) -> u32
        requires label { label < length self.old.state.labels }
        requires room { 0 < self.old.spare }
        ensures id { result ≡ length (soup_at self.old.state label) }
        ensures state { self.new.state ≡ with_soup self.old.state label (soup_at self.old.state label ++ message ∷ []) }
        ensures spare { self.new.spare + 1 ≡ self.old.spare }
    {
        let slot = &mut self.labels[usize::from(label)];
        let id = slot.messages.len();
        slot.messages.push(message);
        self.spare -= 1;
        id
    }

    /// Clears the mark of a message that exists. It takes no memory.
    pub fn consume(&mut self, label: u8, id: u32)
        requires label { label < length self.old.state.labels }
        requires id { id < length (soup_at self.old.state label) }
        ensures { self.new ≡ record { state = with_soup self.old.state label (change consumed (soup_at self.old.state label) id); spare = self.old.spare } }
    {
        let slot = &mut self.labels[usize::from(label)];
        slot.messages.consume(id);
    }

    /// Writes a number of a field at a place that exists. The index is 0 for a field that is no row. It takes no
    /// memory.
    pub fn set(&mut self, label: u8, field: u8, node: u32, index: u32, value: i64)
        requires label { label < length self.old.state.labels }
        requires place { HasPlace (statelet self.old.state label).fields field node index }
        ensures { self.new ≡ record { state = with_fields self.old.state label (set_cell (statelet self.old.state label).fields field node (pos index) value); spare = self.old.spare } }
    {
        let slot = &mut self.labels[usize::from(label)];
        slot.board.set(field, node, index, value);
    }

    /// The message with this id in the soup of the label, if there is one. It takes no memory.
    pub fn message(&self, label: u8, id: u32) -> Option<&Message>
        ensures { option_copied result ≡ message_at self.now.state label id }
    {
        match self.labels.get(usize::from(label)) {
            Some(slot) => slot.messages.get(id),
            None => None,
        }
    }
}

impl View for WorldState {
    ghost state = { λ world. world.state };

    fn nodes(&self) -> u32
        ensures { result ≡ self.now.state.nodes }
    {
        self.nodes
    }

    fn field(&self, label: u8, field: u8, node: i128, index: i128) -> i64
        ensures { result ≡ field_at self.now.state label field node index }
    {
        match self.labels.get(usize::from(label)) {
            Some(slot) => slot.board.read(field, node, index),
            None => 0,
        }
    }

    fn len(&self, label: u8) -> u32
        ensures { result ≡ length (soup_at self.now.state label) }
    {
        match self.labels.get(usize::from(label)) {
            Some(slot) => slot.messages.len(),
            None => 0,
        }
    }

    fn tag(&self, label: u8, id: u32) -> u8
        ensures { result ≡ tag_of (message_at self.now.state label id) }
    {
        match self.message(label, id) {
            Some(message) => message.tag,
            None => 0,
        }
    }

    fn part(&self, label: u8, id: u32, part: Part) -> i64
        ensures { result ≡ part_at self.now.state label id part }
    {
        match self.message(label, id) {
            Some(message) => part_in(id, message, part),
            None => 0,
        }
    }
}

// Makes room in each soup. Where it fails, some have got theirs.
fn reserve_each(labels: &mut [Slot], more: u32) -> Result<(), AllocError>
    requires { All (SlotCanGrow more) labels.old }
    ensures same { map statelet_of labels.new ≡ map statelet_of labels.old }
    ensures kept { (spare : ℕ) → All (HasSpare spare) labels.old → All (HasSpare spare) labels.new }
    ensures room { OnOk result (All (HasSpare more) labels.new) }
{
    for slot in labels.iter_mut() {
        slot.messages.reserve(more)?;
    }
    Ok(())
}

// A part of the message with this id.
fn part_in(id: u32, message: &Message, part: Part) -> i64
    ensures { result ≡ part_of id (Some message.now) part }
{
    match part {
        Part::Id => i64::from(id),
        Part::From => i64::from(message.from),
        Part::To => message.to,
        Part::Live => i64::from(message.live),
        Part::Arg(place) => match message.arguments().get(usize::from(place)) {
            Some(value) => *value,
            None => 0,
        },
    }
}

fn crosses<S: Send + Sync>(_value: &S) {}

// A state and its shape may cross threads, and threads may share them.
fn crosses_threads(world: &WorldState, shape: &Shape, message: &Message) {
    crosses(world);
    crosses(shape);
    crosses(message);
}
