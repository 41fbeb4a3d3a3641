//! The vote and the query: label 0 is the vote, label 1 the query, and the hook is on the query's sends.

ghost use Rattle.std.specs.Prelude.{◌≡◌, ◌<◌, ◌∷◌, [], false, true, pos, negsuc, None, IfOk, length};
ghost use Rattle.std.specs.List.{AllByRecursion as Each};
ghost use Rattle.dl_term.specs.declared.syntax.Term.{Num, Var};
ghost use Rattle.dl_model.specs.Formed.{InstancesAreFormed};

use crate::{Decls, InjectFault, World, can_inject, compose, frame_apart, shape};
use dl_model::{FieldDecl, Hook, Instances, Protocol};
use dl_state::WorldState;
use dl_term::{Formula, Lab, Sort, Term, View};
use sqlite_items::{Boxed, Items};
use std::alloc::{AllocError, Global};
use std::test::Fail;

const ME: u32 = 4;

fn one<T: Drop>(alloc: Global, item: T) -> Result<Items<T>, AllocError>
    ensures { IfOk result (λ items. items ≡ item ∷ []) }
{
    let mut items = Items::new(alloc);
    items.push(item)?;
    Ok(items)
}

// A field that has the node's number at first, and a row that has -3.
fn fields(alloc: Global) -> Result<Items<FieldDecl>, AllocError>
    ensures { IfOk result (λ fields. fields ≡ record { sym = 21; row = false; sort = record { low = pos 0; high = pos 1 }; first = Var 4 } ∷ record { sym = 22; row = true; sort = record { low = negsuc 4; high = pos 5 }; first = Num (negsuc 2) } ∷ []) }
{
    let mut fields = one(
        alloc,
        FieldDecl {
            sym: 21,
            row: false,
            sort: Sort { low: 0, high: 1 },
            first: Term::Var(ME),
        },
    )?;
    fields.push(FieldDecl {
        sym: 22,
        row: true,
        sort: Sort { low: -5, high: 5 },
        first: Term::Num(-3),
    })?;
    Ok(fields)
}

// Two nodes, and two labels with one protocol.
fn instances(alloc: Global) -> Result<Instances, AllocError>
    ensures { IfOk result (λ inst. inst ≡ record { nodes = 2; protocols = record { sym = 20; fields = record { sym = 21; row = false; sort = record { low = pos 0; high = pos 1 }; first = Var 4 } ∷ record { sym = 22; row = true; sort = record { low = negsuc 4; high = pos 5 }; first = Num (negsuc 2) } ∷ []; tags = []; coherence = None } ∷ []; of = 0 ∷ 0 ∷ [] }) }
{
    let protocol = Protocol {
        sym: 20,
        fields: fields(alloc)?,
        tags: Items::new(alloc),
        coherence: None,
    };
    let of = Items::from_slice(alloc, &[0, 0])?;
    Ok(Instances {
        nodes: 2,
        protocols: one(alloc, protocol)?,
        of,
    })
}

// The hook of the vote on the query's sends.
fn file(alloc: Global) -> Result<Decls, AllocError>
    ensures hooks { IfOk result (λ decls. length decls.hooks ≡ 1) }
    ensures inst { IfOk result (λ decls. InstancesAreFormed decls.inst) }
{
    let late = Hook {
        sym: 27,
        core: 0,
        client: 1,
        tag: 0,
        args: Items::new(alloc),
        formula: Formula::True,
    };
    let hooks = one(alloc, late)?;
    let inst = instances(alloc)?;
    let labels = Items::from_slice(alloc, &[25, 26])?;
    Ok(Decls {
        inst,
        labels,
        hooks,
        worlds: Items::new(alloc),
        invariants: Items::new(alloc),
        procs: Items::new(alloc),
        deploy: None,
    })
}

// A world with these labels, and with the hook or without it.
fn world(alloc: Global, labels: &[u8], hooked: bool) -> Result<World, AllocError>
    ensures { IfOk result (λ world. Each (λ hook. hook < 1) world.hooks) }
{
    let hooks = if hooked {
        Items::from_slice(alloc, &[0])?
    } else {
        Items::new(alloc)
    };
    let labels = Items::from_slice(alloc, labels)?;
    Ok(World {
        sym: 28,
        labels,
        hooks,
    })
}

// Whether a world of labels, with the hook or without it, can be injected into another one.
fn injected(
    alloc: Global,
    decls: &Decls,
    small: (&[u8], bool),
    large: (&[u8], bool),
) -> Result<Result<(), InjectFault>, AllocError>
    requires { length decls.now.hooks ≡ 1 }
{
    let small = world(alloc, small.0, small.1)?;
    let large = world(alloc, large.0, large.1)?;
    Ok(can_inject(decls, &small, &large))
}

#[test]
fn injections(rt: HostRuntime) -> Result<(), Fail> {
    let decls = file(rt.alloc())?;
    let vote = [0].as_slice();
    let query = [1].as_slice();
    let both = [0, 1].as_slice();
    let cases = [
        ((vote, false), (both, true), Ok(())),
        ((both, true), (both, true), Ok(())),
        (
            (query, false),
            (both, true),
            Err(InjectFault::NotCovered(0)),
        ),
        ((query, false), (both, false), Ok(())),
        ((both, false), (both, true), Err(InjectFault::NotCovered(0))),
        ((both, true), (both, false), Err(InjectFault::NotCovered(0))),
        ((vote, true), (both, true), Err(InjectFault::NotCovered(0))),
        ((both, true), (query, false), Err(InjectFault::NoLabel(0))),
        ((both, true), (vote, false), Err(InjectFault::NoLabel(1))),
    ];
    for (small, large, expected) in cases {
        assert_eq!(rt; injected(rt.alloc(), &decls, small, large)?, expected);
    }
    Ok(())
}

// The labels of the first world stand first.
#[test]
fn compositions(rt: HostRuntime) -> Result<(), Fail> {
    let alloc = rt.alloc();
    let first = world(alloc, &[2, 0], false)?;
    let second = world(alloc, &[1, 0, 3], true)?;
    let both = compose(alloc, &first, &second, 30)?;
    assert_eq!(rt; both.sym, 30);
    assert!(rt; both.labels.as_slice() == [2, 0, 1, 3].as_slice());
    assert!(rt; both.hooks.as_slice() == [0].as_slice());
    Ok(())
}

// A field of a node at a label.
fn read(alloc: Global, label: u8, node: Term) -> Result<Term, AllocError> {
    Ok(Term::Field {
        label: Lab::At(label),
        field: 0,
        node: Boxed::new(alloc, node)?,
    })
}

// A formula that reads label 0 in a read of label 1.
fn nested_reads(alloc: Global) -> Result<Formula, AllocError> {
    let inner = read(alloc, 0, Term::Var(ME))?;
    Ok(Formula::Eq(read(alloc, 1, inner)?, Term::Num(1)))
}

fn apart(alloc: Global, formula: &Formula, labels: &[u8]) -> Result<Result<(), u8>, AllocError> {
    let world = world(alloc, labels, false)?;
    Ok(frame_apart(formula, &world))
}

// The first label in preorder is answered, and a label of another world isn't.
#[test]
fn frames(rt: HostRuntime) -> Result<(), Fail> {
    let frame = nested_reads(rt.alloc())?;
    assert_eq!(rt; apart(rt.alloc(), &frame, &[0, 1])?, Err(1));
    assert_eq!(rt; apart(rt.alloc(), &frame, &[0])?, Err(0));
    assert_eq!(rt; apart(rt.alloc(), &frame, &[2])?, Ok(()));
    Ok(())
}

// The first state of the file.
fn first_state(alloc: Global) -> Result<WorldState, AllocError> {
    let decls = file(alloc)?;
    let shape = shape(alloc, &decls)?;
    WorldState::init(alloc, &shape)
}

#[test]
fn first_states(rt: HostRuntime) -> Result<(), Fail> {
    let state = first_state(rt.alloc())?;
    assert_eq!(rt; state.nodes(), 2);
    assert_eq!(rt; state.field(1, 0, 0, 0), 0);
    assert_eq!(rt; state.field(1, 0, 1, 0), 1);
    assert_eq!(rt; state.field(1, 1, 0, 1), -3);
    assert_eq!(rt; state.field(0, 1, 1, 1), -3);
    assert_eq!(rt; state.field(2, 1, 0, 0), 0);
    Ok(())
}
