//! What a soup begins with.

ghost use Rattle.std.specs.Prelude.{◌≡◌, [], IfOk};
ghost use Rattle.dl_state.specs.Shapes.{shape_state, EachIsFilled};
ghost use Rattle.dl_soup.specs.Replies.{seed_of};

use crate::entries::Entries;
use crate::pool::Pool;
use crate::shapes::copy_shape;
use dl_model::Order;
use dl_state::Shape;
use std::alloc::{AllocError, Global};

// All that takes memory.
#[derive(Drop)]
pub(crate) struct Start {
    pub(crate) shape: Shape,
    pub(crate) pool: Pool,
    pub(crate) history: Entries,
}

impl Start {
    // No messages and no entries, and room for that many of each.
    pub(crate) fn make(alloc: Global, shape: &Shape, room: u32) -> Result<Start, AllocError>
        requires { EachIsFilled shape.now }
        ensures { IfOk result (λ start. start ≡ record { shape = shape.now; pool = record { state = shape_state shape.now; spare = room }; history = record { entries = []; spare = room } }) }
    {
        let pool = Pool::make(alloc, shape, room)?;
        let history = Entries::make(alloc, room)?;
        let shape = copy_shape(alloc, shape)?;
        Ok(Start {
            shape,
            pool,
            history,
        })
    }
}

// Where the generator of an order begins.
pub(crate) fn seed_of(order: Order) -> u64
    ensures { result ≡ seed_of order }
{
    match order {
        Order::Oldest => 0,
        Order::Newest => 0,
        Order::Seed(seed) => seed,
    }
}
