//! What a seat knows at the table, the rule that the table keeps, and the names of the steps.
use crate::book::Book;
use atomic_table::{Join, Play, Split, TableRule};
use std::collections::LinkedList;
use std::snapshot::Snapshot;

/// What a seat knows. No value of it is made: it is ghost state, which exists in proofs alone.
pub struct View<I, G> {
    /// It is the maker's view, which deals the seats.
    pub is_maker: bool,
    /// It is the view of a seat that no other seat has taken in.
    pub is_live: bool,
    /// The seat has drawn a turn that has not ended.
    pub is_waiting: bool,
    /// The seat has the value.
    pub is_inside: bool,
    pub number: u32,
    /// The turn that was drawn, counted from 0 without bound, where the seat is waiting.
    pub turn: u64,
    /// The list as the seat saw it last.
    pub seen: LinkedList<(u32, I)>,
    /// The value's ground, or `None` in a view that is spent.
    pub ground: Option<G>,
    /// The numbers for which the maker has still to deal a seat.
    pub to_deal: LinkedList<u32>,
    /// The seats that this one took in: the number of each, what it had seen, and its ground.
    pub joined: LinkedList<(u32, LinkedList<(u32, I)>, Option<G>)>,
}

/// What a lock is made about: the value that it was given, and the numbers of its seats.
#[derive(Drop)]
pub struct Plan<T> {
    pub value: Snapshot<T>,
    pub numbers: Snapshot<Vec<u32>>,
}

/// The rule that holds between any two steps.
pub struct TicketOrder;

impl<T: Book> TableRule<Option<T>, View<T::Item, T::Ground>, Plan<T>> for TicketOrder {
    ghost use Rattle.dl_turn.specs.Views.{maker};
    ghost use Rattle.dl_turn.specs.Rule.{Ordered};

    ghost holds = { λ plan. Ordered T.entries T.ground plan.numbers.value.items (T.ground plan.value.value) };

    ghost first = { λ plan. maker plan.numbers.value.items (T.ground plan.value.value) };
}

/// The maker deals a seat.
pub struct SplitSeat;

impl<I, G> Split<View<I, G>> for SplitSeat {
    ghost use Rattle.dl_turn.specs.Views.{gave, seated};

    ghost left = { gave };

    ghost right = { seated };
}

/// A seat draws a turn.
pub struct DrawTurn;

impl<T: Book> Play<Option<T>, View<T::Item, T::Ground>> for DrawTurn {
    ghost use Rattle.dl_turn.specs.Views.{drew};

    ghost then = { λ _. drew };
}

/// A seat looks which turn is served, and takes the value out where it is its own.
pub struct Look;

impl<T: Book> Play<Option<T>, View<T::Item, T::Ground>> for Look {
    ghost use Rattle.dl_turn.specs.Views.{looked};

    ghost then = { λ _. looked T.entries T.ground };
}

/// A seat puts the value back and ends its turn.
pub struct Advance;

impl<T: Book> Play<Option<T>, View<T::Item, T::Ground>> for Advance {
    ghost use Rattle.dl_turn.specs.Views.{advanced};

    ghost then = { λ _. advanced T.entries T.ground };
}

/// A seat takes in another at the end.
pub struct JoinSeat;

impl<I, G> Join<View<I, G>> for JoinSeat {
    ghost use Rattle.dl_turn.specs.Views.{took, spent};

    ghost both = { took };

    ghost spent = { spent };
}
