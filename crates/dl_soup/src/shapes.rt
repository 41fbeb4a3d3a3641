//! Copies of shapes.

ghost use Rattle.std.specs.Prelude.{◌≡◌, IfOk};

use dl_state::{FieldShape, Shape};
use sqlite_items::Items;
use std::alloc::{AllocError, Global};

// A shape equal to this one.
pub(crate) fn copy_shape(alloc: Global, shape: &Shape) -> Result<Shape, AllocError>
    ensures { IfOk result (λ copy. copy ≡ shape.now) }
{
    let mut labels = Items::new(alloc);
    for fields in shape.labels.as_slice() {
        labels.push(copy_fields(alloc, fields.as_slice())?)?;
    }
    Ok(Shape {
        nodes: shape.nodes,
        labels,
    })
}

fn copy_fields(alloc: Global, fields: &[FieldShape]) -> Result<Items<FieldShape>, AllocError>
    ensures { IfOk result (λ copy. copy ≡ fields.now) }
{
    let mut copy = Items::new(alloc);
    for field in fields {
        let first = Items::from_slice(alloc, field.first.as_slice())?;
        copy.push(FieldShape {
            row: field.row,
            first,
        })?;
    }
    Ok(copy)
}
