//! A state of two nodes and one label, with a field and a row.

ghost use Rattle.std.specs.Prelude.{◌≡◌, ◌∷◌, [], pos, negsuc, true, false, IfOk};

use crate::{FieldShape, Message, Shape, WorldState};
use dl_term::{Part, View};
use sqlite_items::Items;
use std::alloc::{AllocError, Global};
use std::test::Fail;

// A field that is 5 at node 0 and -6 at node 1, and a row that is 1 and 2 at each index.
fn small(alloc: Global) -> Result<Shape, AllocError>
    ensures { IfOk result (λ shape. shape ≡ record { nodes = 2; labels = (record { row = false; first = pos 5 ∷ negsuc 5 ∷ [] } ∷ record { row = true; first = pos 1 ∷ pos 2 ∷ [] } ∷ []) ∷ [] }) }
{
    let mut fields = Items::new(alloc);
    fields.push(FieldShape {
        row: false,
        first: Items::from_slice(alloc, &[5, -6])?,
    })?;
    fields.push(FieldShape {
        row: true,
        first: Items::from_slice(alloc, &[1, 2])?,
    })?;
    let mut labels = Items::new(alloc);
    labels.push(fields)?;
    Ok(Shape { nodes: 2, labels })
}

#[test]
fn numbers_at_their_places(rt: HostRuntime) -> Result<(), Fail> {
    let shape = small(rt.alloc())?;
    let mut world = WorldState::init(rt.alloc(), &shape)?;
    world.set(0, 1, 0, 1, 7);
    world.set(0, 0, 1, 0, -8);
    let reads = [
        (0, 0, 0, 0, 5),
        (0, 0, 1, 0, -8),
        (0, 1, 0, 0, 1),
        (0, 1, 0, 1, 7),
        (0, 1, 1, 0, 2),
        (0, 1, 1, 1, 2),
        (0, 0, 0, 1, 0),
        (0, 1, 2, 0, 0),
        (0, 1, -1, 0, 0),
        (0, 2, 0, 0, 0),
        (1, 0, 0, 0, 0),
    ];
    for (label, field, node, index, expected) in reads {
        assert_eq!(rt; world.field(label, field, node, index), expected);
    }
    Ok(())
}

#[test]
fn messages_by_their_ids(rt: HostRuntime) -> Result<(), Fail> {
    let shape = small(rt.alloc())?;
    let mut world = WorldState::init(rt.alloc(), &shape)?;
    world.reserve(2)?;
    let first = world.append(0, Message::new(3, 1, 0, &[]));
    let second = world.append(0, Message::new(4, 0, -1, &[10, 20]));
    world.consume(0, 0);
    assert_eq!(rt; (first, second, world.len(0), world.len(1)), (0, 1, 2, 0));
    assert_eq!(rt;
        (world.tag(0, 0), world.tag(0, 1), world.tag(0, 2)),
        (3, 4, 0)
    );
    let parts = [
        (0, Part::Live, 0),
        (0, Part::From, 1),
        (1, Part::Live, 1),
        (1, Part::Id, 1),
        (1, Part::To, -1),
        (1, Part::Arg(1), 20),
        (1, Part::Arg(2), 0),
        (2, Part::Live, 0),
    ];
    for (id, part, expected) in parts {
        assert_eq!(rt; world.part(0, id, part), expected);
    }
    Ok(())
}
