//! What the meaning of a tree is, on a small file. Each law is the contract of a function that does nothing.

ghost use Rattle.dl_means.specs.Means.{Means};
ghost use Rattle.dl_means.specs.Examples.{written, file};

/// A tree means a file with a sort, a protocol whose parts stand in another order, a composed world, an invariant and a
/// proof.
pub fn meaning_computes()
    ensures { Means written file }
{}
