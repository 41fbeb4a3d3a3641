//! The ends of a run's nodes, as its report names them.

ghost use Rattle.std.specs.Prelude.{◌≡◌, IfOk};
ghost use Rattle.std.specs.List.{list_all};
ghost use Rattle.dl_run.specs.Ends.{ending_of, endings_of, has_ended};

use dl_model::End;
use dl_nodes::Bare;
use std::alloc::{AllocError, Global};

/// How the program of a node ended.
fn ending_of(bare: &Bare) -> (u32, End, u32)
    ensures { result ≡ ending_of bare.now }
{
    let end = match bare.end {
        Some(end) => end,
        None => End::Waiting,
    };
    (bare.node, end, bare.units)
}

/// How the program of each node ended.
pub(crate) fn endings(alloc: Global, nodes: &[Bare]) -> Result<Vec<(u32, End, u32)>, AllocError>
    ensures { IfOk result (λ ends. ends.items ≡ endings_of nodes.now) }
{
    let mut ends = Vec::new(alloc);
    for bare in nodes {
        ends.push(ending_of(bare))?;
    }
    Ok(ends)
}

/// Whether the program of a node returned.
fn has_ended(ending: &(u32, End, u32)) -> bool
    ensures { result ≡ has_ended ending.now }
{
    match ending.1 {
        End::Ended(_) => true,
        End::Stopped => false,
        End::Spent => false,
        End::Waiting => false,
    }
}

/// Whether each program returned.
pub(crate) fn all_ended(ends: &[(u32, End, u32)]) -> bool
    ensures { result ≡ list_all has_ended ends.now }
{
    ends.iter().all(|end| has_ended(end))
}
