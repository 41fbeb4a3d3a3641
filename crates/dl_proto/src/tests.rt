//! Small files, with the results that the model's laws on them name.

ghost use Rattle.std.specs.Prelude.{◌≡◌, ◌<◌, ◌≤◌, ◌+◌, ◌∷◌, [], pos, true, length, IfOk};
ghost use Rattle.std.specs.List.{All};
ghost use Rattle.dl_term.specs.State.{soup_at};
ghost use Rattle.dl_term.specs.declared.syntax.Term.{Num, Field, Var};
ghost use Rattle.dl_term.specs.declared.syntax.Formula.{True};
ghost use Rattle.dl_term.specs.Measures.{EachIsNarrow};
ghost use Rattle.dl_model.specs.Examples.{mail, swapper, swappers};
ghost use Rattle.dl_model.specs.Lookup.{tag_at};
ghost use Rattle.dl_model.specs.Formed.{InstancesAreFormed};
ghost use Rattle.dl_model.specs.States.{first_state};
ghost use Rattle.dl_state.specs.Shapes.{shape_state, IsFilled};
ghost use Rattle.dl_proto.specs.Shaped.{IsShaped};
ghost use Rattle.dl_proto.specs.Given.{SendIsGiven};

use crate::{
    FieldDecl, Hook, Instances, Protocol, Tag, Transition, Update, apply_receive, apply_send,
    enabled, meets, receivable,
};
use dl_state::{FieldShape, Shape, WorldState};
use dl_term::{Formula, Lab, Part, Sort, Term, View};
use sqlite_items::{Boxed, Items};
use std::alloc::{AllocError, Global};
use std::test::Fail;

const INT: Sort = Sort {
    low: i64::MIN,
    high: i64::MAX,
};

const BOOL: Sort = Sort { low: 0, high: 1 };

const ME: u32 = 4;

const TO: u32 = 5;

fn one<T: Drop>(alloc: Global, item: T) -> Result<Items<T>, AllocError>
    ensures { IfOk result (λ items. items ≡ item ∷ []) }
{
    let mut items = Items::new(alloc);
    items.push(item)?;
    Ok(items)
}

// A field of a node.
#[tactic(auto, unfolding(dl_term::specs::Syntax::opened))]
fn field(alloc: Global, label: Lab, field: u8, node: u32) -> Result<Term, AllocError>
    ensures { IfOk result (λ term. term ≡ Field label field (Var node)) }
{
    let node = Boxed::new(alloc, Term::Var(node))?;
    Ok(Term::Field { label, field, node })
}

fn field_decl(sym: u32, row: bool, sort: Sort, first: i64) -> FieldDecl
    ensures { result ≡ record { sym = sym; row = row; sort = sort; first = Num first } }
{
    FieldDecl {
        sym,
        row,
        sort,
        first: Term::Num(first),
    }
}

// Two nodes, and one label.
fn file(alloc: Global, protocol: Protocol) -> Result<Instances, AllocError>
    ensures { IfOk result (λ inst. inst ≡ record { nodes = 2; protocols = protocol ∷ []; of = 0 ∷ [] }) }
{
    let of = Items::from_slice(alloc, &[0])?;
    let protocols = one(alloc, protocol)?;
    Ok(Instances {
        nodes: 2,
        protocols,
        of,
    })
}

// ---- a message with one argument, whose receive sets the receiver's field to 1

fn sets_to_one(alloc: Global) -> Result<Transition, AllocError>
    ensures { IfOk result (λ step. step ≡ record { guard = True; updates = record { field = 0; index = None; value = Num (pos 1) } ∷ [] }) }
{
    let update = Update {
        field: 0,
        index: None,
        value: Term::Num(1),
    };
    let updates = one(alloc, update)?;
    Ok(Transition {
        guard: Formula::True,
        updates,
    })
}

fn letter(alloc: Global) -> Result<Tag, AllocError>
    ensures { IfOk result (λ tag. tag ≡ tag_at (mail (pos 0)).inst 0 0) }
{
    let receive = sets_to_one(alloc)?;
    let args = Items::from_slice(alloc, &[(23, INT)])?;
    Ok(Tag {
        sym: 22,
        args,
        send: Transition {
            guard: Formula::True,
            updates: Items::new(alloc),
        },
        receive: Some(receive),
    })
}

fn mail_file(alloc: Global) -> Result<Instances, AllocError>
    ensures { IfOk result (λ inst. inst ≡ (mail (pos 0)).inst) }
{
    let tags = one(alloc, letter(alloc)?)?;
    let fields = one(alloc, field_decl(21, false, BOOL, 0))?;
    let protocol = Protocol {
        sym: 20,
        fields,
        tags,
        coherence: None,
    };
    file(alloc, protocol)
}

// A hook of the first label: the sender's field is 1.
#[tactic(auto, unfolding(dl_term::specs::Syntax::opened))]
fn cast(alloc: Global) -> Result<Hook, AllocError>
    ensures { IfOk result (λ hook. EachIsNarrow hook.formula) }
{
    let formula = Formula::Eq(field(alloc, Lab::At(0), 0, ME)?, Term::Num(1));
    Ok(Hook {
        sym: 27,
        core: 0,
        client: 0,
        tag: 0,
        args: Items::new(alloc),
        formula,
    })
}

// ---- a send exchanges two fields, and marks its addressee in a row

fn swaps(alloc: Global) -> Result<Items<Update>, AllocError>
    ensures { IfOk result (λ updates. updates ≡ (tag_at swappers 0 0).send.updates) }
{
    let mut updates = Items::new(alloc);
    updates.push(Update {
        field: 0,
        index: None,
        value: field(alloc, Lab::Own, 1, ME)?,
    })?;
    updates.push(Update {
        field: 1,
        index: None,
        value: field(alloc, Lab::Own, 0, ME)?,
    })?;
    updates.push(Update {
        field: 2,
        index: Some(Term::Var(TO)),
        value: Term::Num(1),
    })?;
    Ok(updates)
}

fn swap(alloc: Global) -> Result<Tag, AllocError>
    ensures { IfOk result (λ tag. tag ≡ tag_at swappers 0 0) }
{
    let updates = swaps(alloc)?;
    Ok(Tag {
        sym: 24,
        args: Items::new(alloc),
        send: Transition {
            guard: Formula::True,
            updates,
        },
        receive: None,
    })
}

fn swapped_fields(alloc: Global) -> Result<Items<FieldDecl>, AllocError>
    ensures { IfOk result (λ fields. fields ≡ swapper.fields) }
{
    let mut fields = Items::new(alloc);
    fields.push(field_decl(21, false, BOOL, 1))?;
    fields.push(field_decl(22, false, INT, 0))?;
    fields.push(field_decl(23, true, BOOL, 0))?;
    Ok(fields)
}

fn swappers_file(alloc: Global) -> Result<Instances, AllocError>
    ensures { IfOk result (λ inst. inst ≡ swappers) }
{
    let tags = one(alloc, swap(alloc)?)?;
    let fields = swapped_fields(alloc)?;
    let protocol = Protocol {
        sym: 20,
        fields,
        tags,
        coherence: None,
    };
    file(alloc, protocol)
}

// ---- states

fn field_shape(alloc: Global, row: bool, first: i64) -> Result<FieldShape, AllocError>
    ensures { IfOk result (λ shape. shape ≡ record { row = row; first = first ∷ first ∷ [] }) }
{
    let first = Items::from_slice(alloc, &[first, first])?;
    Ok(FieldShape { row, first })
}

fn swapped_shapes(alloc: Global) -> Result<Items<FieldShape>, AllocError>
    ensures filled { IfOk result (λ fields. All (IsFilled 2) fields) }
    ensures first { IfOk result (λ fields. shape_state (record { nodes = 2; labels = fields ∷ [] }) ≡ first_state swappers) }
{
    let mut fields = Items::new(alloc);
    fields.push(field_shape(alloc, false, 1)?)?;
    fields.push(field_shape(alloc, false, 0)?)?;
    fields.push(field_shape(alloc, true, 0)?)?;
    Ok(fields)
}

// A state with room for two messages.
fn world(
    alloc: Global,
    inst: &Instances,
    fields: Items<FieldShape>,
) -> Result<WorldState, AllocError>
    requires filled { All (IsFilled 2) fields }
    requires first { shape_state (record { nodes = 2; labels = fields ∷ [] }) ≡ first_state inst.now }
    ensures shaped { IfOk result (λ world. IsShaped inst.now world.state) }
    ensures soup { IfOk result (λ world. soup_at world.state 0 ≡ []) }
    ensures room { IfOk result (λ world. 2 ≤ world.spare) }
{
    let shape = Shape {
        nodes: 2,
        labels: one(alloc, fields)?,
    };
    let mut world = WorldState::init(alloc, &shape)?;
    world.reserve(2)?;
    Ok(world)
}

// Sends at the first label and tag.
fn send(inst: &Instances, state: &mut WorldState, from: u32, to: i64, args: &[i64]) -> u32
    requires formed { InstancesAreFormed inst.now }
    requires shaped { IsShaped inst.now state.old.state }
    requires given { SendIsGiven inst.now 0 0 from args.now }
    requires room { 0 < state.old.spare }
    ensures shaped { IsShaped inst.now state.new.state }
    ensures soup { length (soup_at state.new.state 0) ≡ length (soup_at state.old.state 0) + 1 }
    ensures room { state.new.spare + 1 ≡ state.old.spare }
{
    apply_send(inst, state, 0, 0, from, to, args)
}

#[test]
fn a_letter_is_received(rt: HostRuntime) -> Result<(), Fail> {
    let alloc = rt.alloc();
    let inst = mail_file(alloc)?;
    let hook = cast(alloc)?;
    let mut state = world(alloc, &inst, one(alloc, field_shape(alloc, false, 0)?)?)?;
    assert!(rt; enabled(&inst, &state, 0, 0, 0, 1, &[7]));
    let id = send(&inst, &mut state, 0, 1, &[7]);
    assert!(rt; receivable(&inst, &state, 0, id, 1));
    assert!(rt; !receivable(&inst, &state, 0, id, 0));
    assert!(rt; !meets(&hook, &state, 1, 0, &[]));
    assert!(rt; id < state.len(0));
    apply_receive(&inst, &mut state, 0, id, 1);
    assert_eq!(rt;
        (
            state.part(0, id, Part::Live),
            state.part(0, id, Part::Arg(0))
        ),
        (0, 7)
    );
    assert_eq!(rt; (state.field(0, 0, 0, 0), state.field(0, 0, 1, 0)), (0, 1));
    assert!(rt; !receivable(&inst, &state, 0, id, 1));
    assert!(rt; meets(&hook, &state, 1, 0, &[]));
    assert!(rt; !meets(&hook, &state, 0, 1, &[]));
    Ok(())
}

#[test]
fn updates_at_once(rt: HostRuntime) -> Result<(), Fail> {
    let alloc = rt.alloc();
    let inst = swappers_file(alloc)?.copy(alloc)?;
    let mut state = world(alloc, &inst, swapped_shapes(alloc)?)?;
    send(&inst, &mut state, 0, 1, &[]);
    assert_eq!(rt; (state.field(0, 0, 0, 0), state.field(0, 1, 0, 0)), (0, 1));
    assert_eq!(rt; (state.field(0, 2, 0, 0), state.field(0, 2, 0, 1)), (0, 1));
    assert!(rt; !enabled(&inst, &state, 0, 0, 0, 5, &[]));
    let second = send(&inst, &mut state, 0, 5, &[]);
    assert_eq!(rt; (second, state.len(0)), (1, 2));
    assert_eq!(rt; (state.field(0, 0, 0, 0), state.field(0, 1, 0, 0)), (1, 0));
    assert_eq!(rt; (state.field(0, 2, 0, 0), state.field(0, 2, 0, 1)), (0, 1));
    assert_eq!(rt; (state.field(0, 0, 1, 0), state.field(0, 1, 1, 0)), (1, 0));
    Ok(())
}
