//! How a lock is made, and how it is closed.
ghost use Rattle.std.specs.Prelude.{◌≡◌, ◌≢◌, ◌<◌, ◌≤◌, ◌++◌, ◌∷◌, [], true, false, None, Some, IfOk, IfErr, All, Contains, length, map, nat_eq, vec_len, vec_capacity};
ghost use Rattle.std.specs.List.{IsDistinct};
ghost use Rattle.dl_turn.specs.Lists.{StartsWith, entries_of};
ghost use Rattle.dl_turn.specs.Views.{head, gave, seated};
ghost use Rattle.dl_turn.specs.Rule.{AllBack, Closed};
ghost use Rattle.dl_turn.specs.Seats.{number_of, seen_by, own_of, numbers_of, made_with, KnowsGround, IsOf, IsOut, IsNew, AreAll};
ghost use Rattle.dl_turn.specs.Dealt.{claim, AreOut, AreNew, Deals, IsSameView};

use crate::book::Book;
use crate::lock::{Seat, TicketTable, Token, Turn};
use crate::view::{JoinSeat, Plan, SplitSeat};
use atomic_table::{Refused, Table};
use std::alloc::{AllocError, Global};
use std::snapshot::Snapshot;

// A seat for the next number.
fn split<T: Book>(table: &TicketTable<T>, maker: &mut Token<T>, number: u32) -> Seat<T>
    requires words { table.now.shared.table_id.words ≡ 2 }
    requires maker { (maker.old.table_id ≡ table.now.shared.table_id) × (maker.old.me.0.is_maker ≡ true) }
    requires left { (maker.old.me.0.to_deal ≢ []) × (head maker.old.me.0.to_deal ≡ number) }
    ensures token { result.token.table_id ≡ table.now.shared.table_id }
    ensures view { (result.token.me ≡ (seated maker.old.me.0, [])) × (result.number ≡ number) }
    ensures maker { (maker.new.table_id ≡ maker.old.table_id) × (maker.new.id ≡ maker.old.id) × (maker.new.me ≡ (gave maker.old.me.0, maker.old.me.1)) }
{
    Seat {
        token: table.shared.split_seat::<SplitSeat>(maker),
        number,
    }
}

// A seat for each of the numbers, in their order.
fn deal<T: Book>(
    table: &TicketTable<T>,
    maker: &mut Token<T>,
    seats: &mut Vec<Seat<T>>,
    numbers: &[u32],
)
    requires words { table.now.shared.table_id.words ≡ 2 }
    requires maker { Deals maker.old table.now.shared.table_id maker.old.me.0.ground numbers.now }
    requires room { (seats.old.items ≡ []) × (length numbers.now ≤ vec_capacity seats.old) }
    ensures seats { AreNew table.now.shared.table_id maker.old.me.0.ground seats.new.items }
    ensures numbers { map number_of seats.new.items ≡ numbers.now }
{
    for number in numbers {
        seats.push_reserved(split(table, maker, *number));
    }
}

// The last seat takes in the others. What it keeps of each stands in the order of the seats.
fn gather<T: Book>(table: &TicketTable<T>, last: &mut Token<T>, mut seats: Vec<Seat<T>>)
    requires words { table.now.shared.table_id.words ≡ 2 }
    requires last { (last.old.table_id ≡ table.now.shared.table_id) × (last.old.me.0.is_live ≡ true) }
    requires seats { AreOut table.now.shared.table_id seats.items }
    ensures last { (last.new.table_id ≡ last.old.table_id) × IsSameView last.old.me.0 last.new.me.0 }
    ensures joined { last.new.me.0.joined ≡ map claim seats.items ++ last.old.me.0.joined }
{
    while let Some(seat) = seats.pop() {
        let Seat { token, number: _ } = seat;
        table.shared.join_seat::<JoinSeat>(last, token);
    }
    seats.destroy_empty();
}

// The value of a table, where the last seat has all numbers back.
fn finish<T: Book>(table: TicketTable<T>, last: Token<T>) -> T
    requires sized { (table.shared.table_id.words ≡ 2) × (table.shared.table_id.slots ≡ 1) }
    requires last { (last.table_id ≡ table.shared.table_id) × (last.me.0.is_live ≡ true) × (last.me.0.is_waiting ≡ false) }
    requires back { AllBack table.shared.key.numbers.value.items last.me.0 }
    ensures { Closed T.entries T.ground table.shared.key.numbers.value.items (T.ground table.shared.key.value.value) last.me.0 result }
{
    let mut closed = table.close_with(last);
    let value = closed.take(0).unwrap();
    closed.free();
    value
}

// The value that comes back where the table was refused.
fn value_of<T>(mut slots: Vec<Option<T>>) -> T
    requires { (value : T) × (slots.items ≡ Some value ∷ []) }
    ensures { slots.items ≡ Some result ∷ [] }
{
    let value = slots.pop().unwrap().unwrap();
    slots.destroy_empty();
    value
}

// A copy of the numbers.
fn copied(alloc: Global, numbers: &[u32]) -> Result<Vec<u32>, AllocError>
    ensures { IfOk result (λ v. v.items ≡ numbers.now) }
{
    let mut copy = Vec::with_capacity(alloc, numbers.len())?;
    copy.extend_from_slice(numbers)?;
    Ok(copy)
}

// A table with the value in its slot, and the maker's token, which has all numbers to deal.
fn lay<T: Book>(
    alloc: Global,
    value: T,
    numbers: &[u32],
) -> Result<(TicketTable<T>, Token<T>), (T, AllocError)>
    requires few { length numbers.now ≤ 16 }
    requires distinct { IsDistinct nat_eq numbers.now }
    requires empty { T.entries value ≡ [] }
    ensures ok { IfOk result (λ r. (r.0.shared.table_id.words ≡ 2) × (r.0.shared.table_id.slots ≡ 1) × Deals r.1 r.0.shared.table_id (Some (T.ground value)) numbers.now × (r.0.shared.key.numbers.value.items ≡ numbers.now) × (r.0.shared.key.value.value ≡ value)) }
    ensures err { IfErr result (λ e. e.0 ≡ value) }
{
    let Ok(copy) = copied(alloc, numbers) else {
        return Err((value, AllocError));
    };
    let Ok(mut slots) = Vec::with_capacity(alloc, 1) else {
        return Err((value, AllocError));
    };
    let plan = Plan {
        value: Snapshot::of(&value),
        numbers: Snapshot::of(&copy),
    };
    slots.push_reserved(Some(value));
    match Table::new(alloc, &[0, 0], slots, &plan) {
        Ok(made) => Ok(made),
        Err(Refused { slots }) => Err((value_of(slots), AllocError)),
    }
}

impl<T: Book> Turn<T> {
    /// A lock round a value with an empty list, and a seat for each of 1 to 16 distinct numbers, in
    /// their order.
    ///
    /// Each seat is out, has seen nothing, so has no entry of its own, and knows the ground of the
    /// value (`new`). The lock keeps its numbers and the value that it was made with in mind
    /// (`lock`), for what [`close`](Turn::close) says.
    ///
    /// # Errors
    ///
    /// Hands the value back, unchanged, where memory runs out, and for no other cause.
    pub fn make(
        alloc: Global,
        value: T,
        numbers: &[u32],
    ) -> Result<(Turn<T>, Vec<Seat<T>>), (T, AllocError)>
        requires some { 0 < length numbers.now }
        requires few { length numbers.now ≤ 16 }
        requires distinct { IsDistinct nat_eq numbers.now }
        requires empty { T.entries value ≡ [] }
        ensures seats { IfOk result (λ r. map number_of r.1.items ≡ numbers.now) }
        ensures new { IfOk result (λ r. All (λ seat. IsNew r.0 (T.ground value) seat) r.1.items) }
        ensures lock { IfOk result (λ r. (numbers_of r.0 ≡ numbers.now) × (made_with r.0 ≡ value)) }
        ensures err { IfErr result (λ e. e.0 ≡ value) }
    {
        let Ok(mut seats) = Vec::with_capacity(alloc, numbers.len()) else {
            return Err((value, AllocError));
        };
        match lay(alloc, value, numbers) {
            Ok((table, mut maker)) => {
                deal(&table, &mut maker, &mut seats, numbers);
                Ok((Turn { table }, seats))
            }
            Err(back) => {
                seats.destroy_empty();
                Err(back)
            }
        }
    }

    /// Ends the lock and gives the value back. All seats of the lock are given, in any order, and
    /// none is inside.
    ///
    /// The list begins with all that each seat had seen (`begins`), its entries of each seat are
    /// just that seat's own, each once and in order (`own`), and it has no entry of another number
    /// (`others`). The ground is the one that the seats know, which is that of the value that the
    /// lock was made with.
    ///
    /// This call waits for nobody and takes no memory.
    pub fn close(self, mut seats: Vec<Seat<T>>) -> T
        requires seats { All (λ seat. IsOf self seat × IsOut seat) seats.items }
        requires all { AreAll self seats.items }
        ensures begins { All (λ seat. StartsWith (T.entries result) (seen_by seat)) seats.items }
        ensures own { All (λ seat. entries_of (number_of seat) (T.entries result) ≡ own_of seat) seats.items }
        ensures others { All (λ entry. Contains (numbers_of self) entry.0) (T.entries result) }
        ensures known { All (λ seat. KnowsGround seat (T.ground result)) seats.items }
        ensures ground { T.ground result ≡ T.ground (made_with self) }
    {
        let Turn { table } = self;
        let Some(seat) = seats.pop() else {
            unreachable!()
        };
        let Seat {
            token: mut last,
            number: _,
        } = seat;
        gather(&table, &mut last, seats);
        finish(table, last)
    }
}
