//! What a file declares: protocols, worlds and procedures, by the texts of their names.

ghost use Rattle.std.specs.Prelude.{◌≡◌, ◌++◌, ◌∷◌, [], OnOk, if◌then◌else◌};
ghost use Rattle.dl_notation.specs.Environment.{TagNames, ProtocolNames, WorldNames, no_protocol};
ghost use Rattle.dl_notation.specs.Worlds.{no_world};

use crate::names::add_all;
use crate::text::Text;
use dl_term::Sort;
use indexmap::IndexSet;
use sqlite_items::Items;
use std::alloc::{AllocError, Global};
use std::marker::Model;

/// A tag: how many arguments its messages have, and whether they can be received.
#[derive(Drop)]
pub struct Tag {
    /// How many arguments its messages have.
    pub arguments: usize,
    /// Whether its messages can be received.
    pub is_received: bool,
}

impl Model for Tag {
    ghost use Rattle.dl_notation.specs.Environment.{TagNames};

    ghost Value = { TagNames };

    ghost view = { λ t. record { arguments = t.arguments; is_received = t.is_received } };
}

impl Tag {
    /// The same tag once more.
    pub fn copy(&self) -> Tag
        ensures { result ≡ self.now }
    {
        Tag {
            arguments: self.arguments,
            is_received: self.is_received,
        }
    }
}

/// A protocol: its fields, each with whether it is a row, its tags, and whether it has a coherence.
#[derive(Drop)]
pub struct Protocol<'a> {
    /// Each field, with whether it is a row.
    pub fields: Items<(Text<'a>, bool)>,
    /// Each tag.
    pub tags: Items<(Text<'a>, Tag)>,
    /// Whether it has a coherence.
    pub is_coherent: bool,
}

impl<'a> Model for Protocol<'a> {
    ghost use Rattle.dl_notation.specs.Environment.{ProtocolNames};

    ghost Value = { ProtocolNames };

    ghost view = { λ p. record { fields = p.fields; tags = p.tags; is_coherent = p.is_coherent } };
}

/// Adds fields behind those that are there. Its only error is want of memory.
fn add_fields<'a>(
    fields: &mut Items<(Text<'a>, bool)>,
    more: &[(Text<'a>, bool)],
) -> Result<(), AllocError>
    ensures { OnOk result (fields.new ≡ fields.old ++ more.now) }
{
    for field in more {
        fields.push((field.0.copy(), field.1))?;
    }
    Ok(())
}

/// Adds tags behind those that are there. Its only error is want of memory.
fn add_tags<'a>(
    tags: &mut Items<(Text<'a>, Tag)>,
    more: &[(Text<'a>, Tag)],
) -> Result<(), AllocError>
    ensures { OnOk result (tags.new ≡ tags.old ++ more.now) }
{
    for tag in more {
        tags.push((tag.0.copy(), tag.1.copy()))?;
    }
    Ok(())
}

impl<'a> Protocol<'a> {
    /// A protocol without fields and tags.
    pub fn empty(alloc: Global) -> Protocol<'a>
        ensures { result ≡ no_protocol }
    {
        Protocol {
            fields: Items::new(alloc),
            tags: Items::new(alloc),
            is_coherent: false,
        }
    }

    /// Makes an empty one the same as another. Its only error is want of memory.
    pub fn copy_from(&mut self, other: &Protocol<'a>) -> Result<(), AllocError>
        requires { self.old ≡ no_protocol }
        ensures { OnOk result (self.new ≡ other.now) }
    {
        add_fields(&mut self.fields, other.fields.as_slice())?;
        add_tags(&mut self.tags, other.tags.as_slice())?;
        self.is_coherent = other.is_coherent;
        Ok(())
    }

    /// Adds a field, or a row. Its only error is want of memory.
    pub fn add_field(&mut self, name: Text<'a>, is_row: bool) -> Result<(), AllocError>
        ensures { OnOk result (self.new ≡ record self.old { fields = self.old.fields ++ (name.entry, is_row) ∷ [] }) }
    {
        self.fields.push((name, is_row))
    }

    /// Adds a tag. Its only error is want of memory.
    pub fn add_tag(&mut self, name: Text<'a>, tag: Tag) -> Result<(), AllocError>
        ensures { OnOk result (self.new ≡ record self.old { tags = self.old.tags ++ (name.entry, tag) ∷ [] }) }
    {
        self.tags.push((name, tag))
    }
}

/// A world: the names of its labels and hooks.
#[derive(Drop)]
pub struct World<'a> {
    /// The names of its labels.
    pub labels: IndexSet<Text<'a>>,
    /// The names of its hooks.
    pub hooks: IndexSet<Text<'a>>,
}

impl<'a> Model for World<'a> {
    ghost use Rattle.dl_notation.specs.Environment.{WorldNames};

    ghost Value = { WorldNames };

    ghost view = { λ w. record { labels = w.labels.keys; hooks = w.hooks.keys } };
}

impl<'a> World<'a> {
    /// A world without labels and hooks.
    pub fn empty(alloc: Global) -> World<'a>
        ensures { result ≡ no_world }
    {
        World {
            labels: IndexSet::new(alloc),
            hooks: IndexSet::new(alloc),
        }
    }
}

/// A procedure: its world, its parameters with their sorts, its locals, and the words of the commands that its
/// points are.
#[derive(Drop)]
pub struct Procedure<'a> {
    /// The name of its world.
    pub world: Text<'a>,
    /// The names of its parameters.
    pub parameters: Items<Text<'a>>,
    /// The sorts of its parameters.
    pub sorts: Items<Sort>,
    /// The names of its locals.
    pub locals: Items<Text<'a>>,
    /// The words of the commands that its points are.
    pub points: Items<Text<'a>>,
}

impl<'a> Model for Procedure<'a> {
    ghost use Rattle.dl_notation.specs.Environment.{ProcedureNames};

    ghost Value = { ProcedureNames };

    ghost view = { λ p. record { world = p.world; parameters = p.parameters; sorts = p.sorts; locals = p.locals; points = p.points } };
}

/// What the proof of an obligation knows by it: variables, hypotheses, and of each name that it gives whether
/// it is a message.
#[derive(Drop)]
pub struct Given<'a> {
    /// The variables.
    pub variables: Items<Text<'a>>,
    /// The hypotheses.
    pub hypotheses: Items<Text<'a>>,
    /// Of each name that the proof gives, whether it is a message.
    pub named: Items<bool>,
}

impl<'a> Model for Given<'a> {
    ghost use Rattle.dl_notation.specs.Obligations.{Given as Names};

    ghost Value = { Names };

    ghost view = { λ g. record { variables = g.variables; hypotheses = g.hypotheses; named = g.named } };
}

/// Adds sorts behind those that are there. Its only error is want of memory.
pub fn add_each_sort(sorts: &mut Items<Sort>, more: &[Sort]) -> Result<(), AllocError>
    ensures { OnOk result (sorts.new ≡ sorts.old ++ more.now) }
{
    for sort in more {
        sorts.push(*sort)?;
    }
    Ok(())
}
