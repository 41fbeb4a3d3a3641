//! The world that two worlds make together.

ghost use Rattle.std.specs.Prelude.{◌≡◌, [], IfOk, OnOk};
ghost use Rattle.dl_world.specs.Composed.{composed_of, union, with_new};

use dl_model::World;
use indexmap::IndexSet;
use sqlite_items::Items;
use std::alloc::{AllocError, Global};

/// The world of two worlds, with this name: the labels of the first and then the new ones of the second, and the same
/// for hooks. The one refusal is want of memory.
pub fn compose(alloc: Global, a: &World, b: &World, sym: u32) -> Result<World, AllocError>
    ensures { IfOk result (λ world. world ≡ composed_of a.now b.now sym) }
{
    let labels = all_of(alloc, a.labels.as_slice(), b.labels.as_slice())?;
    let hooks = all_of(alloc, a.hooks.as_slice(), b.hooks.as_slice())?;
    Ok(World { sym, labels, hooks })
}

// Each position of the two lists once, where it stands first.
fn all_of(alloc: Global, first: &[u8], second: &[u8]) -> Result<Items<u8>, AllocError>
    ensures { IfOk result (λ items. items ≡ union first.now second.now) }
{
    let mut set = IndexSet::new(alloc);
    add_new(&mut set, first)?;
    add_new(&mut set, second)?;
    Items::from_slice(alloc, set.as_slice())
}

fn add_new(set: &mut IndexSet<u8>, positions: &[u8]) -> Result<(), AllocError>
    ensures { OnOk result (set.new.keys ≡ with_new set.old.keys positions.now) }
{
    for position in positions {
        if set.insert(*position).is_err() {
            return Err(AllocError);
        }
    }
    Ok(())
}
