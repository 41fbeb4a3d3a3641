//! Copies of instances.

ghost use Rattle.std.specs.Prelude.{◌≡◌, IfOk};

use crate::protocol::{FieldDecl, Instances, Protocol, Tag, Transition, Update};
use dl_term::{Formula, Term, copy_formula, copy_term};
use sqlite_items::Items;
use std::alloc::{AllocError, Global};

impl Instances {
    /// Instances equal to these. The one refusal is want of memory.
    pub fn copy(&self, alloc: Global) -> Result<Instances, AllocError>
        ensures { IfOk result (λ copy. copy ≡ self.now) }
    {
        let protocols = copy_protocols(alloc, self.protocols.as_slice())?;
        let of = Items::from_slice(alloc, self.of.as_slice())?;
        Ok(Instances {
            nodes: self.nodes,
            protocols,
            of,
        })
    }
}

fn copy_protocols(alloc: Global, protocols: &[Protocol]) -> Result<Items<Protocol>, AllocError>
    ensures { IfOk result (λ copy. copy ≡ protocols.now) }
{
    let mut copy = Items::new(alloc);
    for protocol in protocols {
        copy.push(copy_protocol(alloc, protocol)?)?;
    }
    Ok(copy)
}

fn copy_protocol(alloc: Global, protocol: &Protocol) -> Result<Protocol, AllocError>
    ensures { IfOk result (λ copy. copy ≡ protocol.now) }
{
    let fields = copy_fields(alloc, protocol.fields.as_slice())?;
    let tags = copy_tags(alloc, protocol.tags.as_slice())?;
    let coherence = copy_coherence(alloc, &protocol.coherence)?;
    Ok(Protocol {
        sym: protocol.sym,
        fields,
        tags,
        coherence,
    })
}

fn copy_coherence(alloc: Global, coherence: &Option<Formula>) -> Result<Option<Formula>, AllocError>
    ensures { IfOk result (λ copy. copy ≡ coherence.now) }
{
    match coherence {
        Some(formula) => Ok(Some(copy_formula(alloc, formula)?)),
        None => Ok(None),
    }
}

fn copy_fields(alloc: Global, fields: &[FieldDecl]) -> Result<Items<FieldDecl>, AllocError>
    ensures { IfOk result (λ copy. copy ≡ fields.now) }
{
    let mut copy = Items::new(alloc);
    for field in fields {
        copy.push(copy_field(alloc, field)?)?;
    }
    Ok(copy)
}

fn copy_field(alloc: Global, field: &FieldDecl) -> Result<FieldDecl, AllocError>
    ensures { IfOk result (λ copy. copy ≡ field.now) }
{
    Ok(FieldDecl {
        sym: field.sym,
        row: field.row,
        sort: field.sort,
        first: copy_term(alloc, &field.first)?,
    })
}

fn copy_tags(alloc: Global, tags: &[Tag]) -> Result<Items<Tag>, AllocError>
    ensures { IfOk result (λ copy. copy ≡ tags.now) }
{
    let mut copy = Items::new(alloc);
    for tag in tags {
        copy.push(copy_tag(alloc, tag)?)?;
    }
    Ok(copy)
}

fn copy_tag(alloc: Global, tag: &Tag) -> Result<Tag, AllocError>
    ensures { IfOk result (λ copy. copy ≡ tag.now) }
{
    let args = Items::from_slice(alloc, tag.args.as_slice())?;
    let send = copy_transition(alloc, &tag.send)?;
    let receive = copy_receive(alloc, &tag.receive)?;
    Ok(Tag {
        sym: tag.sym,
        args,
        send,
        receive,
    })
}

fn copy_receive(
    alloc: Global,
    receive: &Option<Transition>,
) -> Result<Option<Transition>, AllocError>
    ensures { IfOk result (λ copy. copy ≡ receive.now) }
{
    match receive {
        Some(transition) => Ok(Some(copy_transition(alloc, transition)?)),
        None => Ok(None),
    }
}

fn copy_transition(alloc: Global, transition: &Transition) -> Result<Transition, AllocError>
    ensures { IfOk result (λ copy. copy ≡ transition.now) }
{
    let guard = copy_formula(alloc, &transition.guard)?;
    let updates = copy_updates(alloc, transition.updates.as_slice())?;
    Ok(Transition { guard, updates })
}

fn copy_updates(alloc: Global, updates: &[Update]) -> Result<Items<Update>, AllocError>
    ensures { IfOk result (λ copy. copy ≡ updates.now) }
{
    let mut copy = Items::new(alloc);
    for update in updates {
        copy.push(copy_update(alloc, update)?)?;
    }
    Ok(copy)
}

fn copy_update(alloc: Global, update: &Update) -> Result<Update, AllocError>
    ensures { IfOk result (λ copy. copy ≡ update.now) }
{
    let index = copy_index(alloc, &update.index)?;
    Ok(Update {
        field: update.field,
        index,
        value: copy_term(alloc, &update.value)?,
    })
}

fn copy_index(alloc: Global, index: &Option<Term>) -> Result<Option<Term>, AllocError>
    ensures { IfOk result (λ copy. copy ≡ index.now) }
{
    match index {
        Some(term) => Ok(Some(copy_term(alloc, term)?)),
        None => Ok(None),
    }
}
