//! A soup of two nodes with one label, whose tag has one argument. Its receive sets the receiver's field to 1.

ghost use Rattle.std.specs.Prelude.{◌≡◌, ◌<◌, ◌-◌, ◌∷◌, [], false, pos, IfOk, None};
ghost use Rattle.dl_term.specs.declared.syntax.Term.{Num};
ghost use Rattle.dl_term.specs.declared.syntax.Formula.{True};
ghost use Rattle.dl_model.specs.Examples.{mail};
ghost use Rattle.dl_model.specs.Lookup.{tag_at};
ghost use Rattle.dl_soup.specs.Given.{CallIsGiven};

use dl_model::{Args, Call, FieldDecl, Instances, Order, Protocol, Reply, Tag, Transition, Update};
use dl_soup::Soup;
use dl_state::{FieldShape, Shape};
use dl_term::{Formula, Sort, Term};
use sqlite_items::Items;
use std::alloc::{AllocError, Global};

/// Receives the one tag, or goes on.
pub const POLL: Call = Call::Poll { label: 0, tag: 0 };

/// Receives the one tag, or waits.
pub const AWAIT: Call = Call::Await { label: 0, tag: 0 };

/// Reads the one field.
pub const READ: Call = Call::Read {
    label: 0,
    field: 0,
    index: None,
};

const INT: Sort = Sort {
    low: i64::MIN,
    high: i64::MAX,
};

const BOOL: Sort = Sort { low: 0, high: 1 };

fn one<T: Drop>(alloc: Global, item: T) -> Result<Items<T>, AllocError>
    ensures { IfOk result (λ items. items ≡ item ∷ []) }
{
    let mut items = Items::new(alloc);
    items.push(item)?;
    Ok(items)
}

fn sets_to_one(alloc: Global) -> Result<Transition, AllocError>
    ensures { IfOk result (λ step. step ≡ record { guard = True; updates = record { field = 0; index = None; value = Num (pos 1) } ∷ [] }) }
{
    let update = Update {
        field: 0,
        index: None,
        value: Term::Num(1),
    };
    let updates = one(alloc, update)?;
    Ok(Transition {
        guard: Formula::True,
        updates,
    })
}

fn letter(alloc: Global) -> Result<Tag, AllocError>
    ensures { IfOk result (λ tag. tag ≡ tag_at (mail (pos 0)).inst 0 0) }
{
    let receive = sets_to_one(alloc)?;
    let args = Items::from_slice(alloc, &[(23, INT)])?;
    Ok(Tag {
        sym: 22,
        args,
        send: Transition {
            guard: Formula::True,
            updates: Items::new(alloc),
        },
        receive: Some(receive),
    })
}

fn file(alloc: Global) -> Result<Instances, AllocError>
    ensures { IfOk result (λ inst. inst ≡ (mail (pos 0)).inst) }
{
    let tags = one(alloc, letter(alloc)?)?;
    let got = FieldDecl {
        sym: 21,
        row: false,
        sort: BOOL,
        first: Term::Num(0),
    };
    let fields = one(alloc, got)?;
    let protocol = Protocol {
        sym: 20,
        fields,
        tags,
        coherence: None,
    };
    let protocols = one(alloc, protocol)?;
    let of = Items::from_slice(alloc, &[0])?;
    Ok(Instances {
        nodes: 2,
        protocols,
        of,
    })
}

fn shape(alloc: Global) -> Result<Shape, AllocError>
    ensures { IfOk result (λ shape. shape ≡ record { nodes = 2; labels = (record { row = false; first = pos 0 ∷ pos 0 ∷ [] } ∷ []) ∷ [] }) }
{
    let first = Items::from_slice(alloc, &[0, 0])?;
    let fields = one(alloc, FieldShape { row: false, first })?;
    let labels = one(alloc, fields)?;
    Ok(Shape { nodes: 2, labels })
}

/// The soup in its first state, with room for that many calls.
pub fn soup(alloc: Global, order: Order, room: u32) -> Result<Soup, AllocError>
    ensures inst { IfOk result (λ soup. soup.inst ≡ (mail (pos 0)).inst) }
    ensures room { IfOk result (λ soup. soup.spare ≡ room) }
{
    let shape = shape(alloc)?;
    let inst = file(alloc)?;
    Soup::make(alloc, inst, &shape, order, room)
}

/// The first node sends a number to the second one.
pub fn send(soup: &mut Soup, number: i64) -> Reply
    requires inst { soup.old.inst ≡ (mail (pos 0)).inst }
    requires room { 0 < soup.old.spare }
    ensures inst { soup.new.inst ≡ (mail (pos 0)).inst }
    ensures room { soup.new.spare ≡ soup.old.spare - 1 }
{
    let args = Args {
        count: 1,
        values: [number, 0, 0, 0, 0, 0, 0, 0],
    };
    soup.act(
        0,
        0,
        &Call::Send {
            label: 0,
            tag: 0,
            to: 1,
            args,
        },
    )
}

/// A node makes a call that sends nothing.
pub fn ask(soup: &mut Soup, node: u32, call: &Call) -> Reply
    requires inst { soup.old.inst ≡ (mail (pos 0)).inst }
    requires given { CallIsGiven (mail (pos 0)).inst node call.now }
    requires room { 0 < soup.old.spare }
    ensures inst { soup.new.inst ≡ (mail (pos 0)).inst }
    ensures room { soup.new.spare ≡ soup.old.spare - 1 }
{
    soup.act(node, 3, call)
}

/// The reply to a receive of this message, which the first node sent.
pub fn got(id: u32, number: i64) -> Reply {
    Reply::Got {
        id,
        from: 0,
        args: Args {
            count: 1,
            values: [number, 0, 0, 0, 0, 0, 0, 0],
        },
    }
}
