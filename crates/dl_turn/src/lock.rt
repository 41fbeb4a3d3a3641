//! The types of the lock. They stand apart, since a struct with a ghost field imports each `ghost use` of its file.
ghost use Rattle.std.specs.Prelude.{◌≡◌, ◌<◌, length};

use crate::book::Book;
use crate::view::{Plan, TicketOrder, View};
use atomic_table::Table;
use std::alloc::Global;

/// The right of one thread to step at the table, with what the thread knows. It takes no bytes.
pub type Token<T> = atomic_table::Seat<Option<T>, View<<T as Book>::Item, <T as Book>::Ground>>;

/// Two words and one slot. Word 0 counts the turns that have ended and word 1 those that were drawn, both modulo 2^64.
/// The slot has the value, or `None` while a seat is inside.
pub type TicketTable<T> = Table<
    Option<T>,
    View<<T as Book>::Item, <T as Book>::Ground>,
    Plan<T>,
    TicketOrder,
    Global,
>;

/// A ticket lock round a value whose list only grows.
///
/// Threads share it by reference where the value is `Send`. It has no `Drop`: it ends in
/// [`close`](Turn::close), which gives the value back.
pub struct Turn<T: Book> {
    pub(crate) table: TicketTable<T>,
    ghost some: { 0 < length table.shared.key.numbers.value.items },
    ghost sized: { (table.shared.table_id.words ≡ 2) × (table.shared.table_id.slots ≡ 1) },
}

/// A thread's place at one lock, with a number of its own.
///
/// It may move to another thread and isn't shared. One that is dropped leaves the lock in use for
/// the others, and then it can't be closed; one that is dropped inside keeps all others waiting.
#[derive(Drop)]
pub struct Seat<T: Book> {
    pub(crate) token: Token<T>,
    pub(crate) number: u32,
}

/// The value, while its seat is inside. It has no `Drop`, so it can end in [`leave`](Turn::leave) alone.
pub struct Held<T> {
    pub(crate) value: T,
}

fn shares<S: Sync>(_shared: &S) {}

fn sends<S: Send>(_sent: &S) {}

// Where the value may cross threads, threads may share the lock, and a seat and what it holds may cross too.
fn crosses_threads<T: Book + Send>(lock: &Turn<T>, seat: &Seat<T>, held: &Held<T>) {
    shares(lock);
    sends(lock);
    sends(seat);
    sends(held);
}
