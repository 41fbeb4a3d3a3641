//! The shape of the states of a file.

ghost use Rattle.std.specs.Prelude.{◌≡◌, ◌<◌, ℕ, pos, true, IfOk, map, Some};
ghost use Rattle.dl_term.specs.Measures.{IsNarrow};
ghost use Rattle.dl_model.specs.Formed.{InstancesAreFormed, FieldIsFormed, ProtocolIsFormed};
ghost use Rattle.dl_model.specs.Lookup.{protocol_in};
ghost use Rattle.dl_model.specs.Sorts.{in_sort};
ghost use Rattle.dl_model.specs.States.{first_state, first_value};
ghost use Rattle.dl_state.specs.Shapes.{shape_state, EachIsFilled};
ghost use Rattle.dl_world.specs.Shaped.{shape_of, label_shape, field_shape};

use crate::nowhere::Nowhere;
use dl_model::{Decls, FieldDecl, Instances};
use dl_state::{FieldShape, Shape};
use dl_term::{Env, Sort, value};
use sqlite_items::{Items, at};
use std::alloc::{AllocError, Global};

// The name of `me` in first values.
const ME: u32 = 4;

/// The shape of the states of a file: the declared nodes, labels, fields and first values. The state that
/// `WorldState::init` makes of it is the first one. The condition is that the instances are formed. The one refusal is
/// want of memory.
pub fn shape(alloc: Global, decls: &Decls) -> Result<Shape, AllocError>
    requires { InstancesAreFormed decls.now.inst }
    ensures shape { IfOk result (λ shape. shape ≡ shape_of decls.now.inst) }
    ensures filled { IfOk result EachIsFilled }
    ensures first { IfOk result (λ shape. shape_state shape ≡ first_state decls.now.inst) }
{
    shape_of_instances(alloc, &decls.inst)
}

fn shape_of_instances(alloc: Global, inst: &Instances) -> Result<Shape, AllocError>
    requires { InstancesAreFormed inst.now }
    ensures { IfOk result (λ shape. shape ≡ shape_of inst.now) }
{
    let mut labels = Items::new(alloc);
    for protocol in inst.of.as_slice() {
        labels.push(fields_of(alloc, inst, *protocol)?)?;
    }
    Ok(Shape {
        nodes: inst.nodes,
        labels,
    })
}

// The fields of a label with this protocol.
fn fields_of(alloc: Global, inst: &Instances, protocol: u8) -> Result<Items<FieldShape>, AllocError>
    requires { InstancesAreFormed inst.now }
    ensures { IfOk result (λ fields. fields ≡ label_shape inst.now protocol) }
{
    let mut shapes = Items::new(alloc);
    let Some(protocol) = at(inst.protocols.as_slice(), usize::from(protocol)) else {
        return Ok(shapes);
    };
    for field in protocol.fields.as_slice() {
        shapes.push(shape_of_field(alloc, inst.nodes, field)?)?;
    }
    Ok(shapes)
}

fn shape_of_field(alloc: Global, nodes: u32, field: &FieldDecl) -> Result<FieldShape, AllocError>
    requires { FieldIsFormed nodes field.now }
    ensures { IfOk result (λ shape. shape ≡ field_shape nodes field.now) }
{
    let mut first = Items::new(alloc);
    for node in 0..nodes {
        first.push(value_at(field, node))?;
    }
    Ok(FieldShape {
        row: field.row,
        first,
    })
}

// The first value at a node.
fn value_at(field: &FieldDecl, node: u32) -> i64
    requires narrow { IsNarrow field.now.first }
    requires sorted { in_sort field.now.sort (first_value field.now node) ≡ true }
    ensures { result ≡ first_value field.now node }
{
    let own = Env::Empty(0);
    let me = Env::Number(&own, ME, i64::from(node));
    narrowed(field.sort, value(&field.first, &me, &Nowhere))
}

// A number of a sort, which is one of 64 bits.
fn narrowed(sort: Sort, number: i128) -> i64
    requires { in_sort sort number ≡ true }
    ensures { result ≡ number }
{
    number as i64
}
