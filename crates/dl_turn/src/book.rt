//! What a value under the lock stands for.
ghost use Rattle.std.specs.Prelude.{◌≡◌, ℕ, List, length};

/// A value that can lie under a [`Turn`](crate::Turn). It stands for a list of entries, each with
/// the number of the seat whose turn made it, and for a ground.
///
/// A turn adds one entry at the end of the list and changes nothing else of it. The ground is plain
/// data that no turn changes, as the shape of a table or the room that it was given.
pub trait Book {
    /// What an entry says, its seat's number aside.
    type Item;

    /// The part of the meaning that stays the same from `make` to `close`.
    type Ground;

    /// The entries in the order of the turns, each with its seat's number.
    ghost entries: { Self → List (ℕ × Self.Item) };

    ghost ground: { Self → Self.Ground };

    /// The number of entries.
    fn count(&self) -> u64
        ensures { result ≡ length (entries self.now) };
}
