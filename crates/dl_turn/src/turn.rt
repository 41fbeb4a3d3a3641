//! The lock and its seats.
ghost use Rattle.std.specs.Prelude.{◌≡◌, ◌≢◌, ◌++◌, ◌∷◌, [], true, false, None, Some, ◌^◌, ◌%◌};
ghost use Rattle.dl_turn.specs.Lists.{StartsWith, GrownByOthers, AddsOne, entries_of};
ghost use Rattle.dl_turn.specs.Views.{drew, entered, looked, advanced};
ghost use Rattle.dl_turn.specs.Held.{value_in};
ghost use Rattle.dl_turn.specs.Seats.{number_of, seen_by, own_of, KnowsGround, IsOf, IsOut, IsInside, IsSameSeat};

use crate::book::Book;
use crate::lock::{Held, Seat, Token, Turn};
use crate::view::{Advance, DrawTurn, Look};
use std::sync::Wait;
use std::thread::yield_now;

// The word that counts the turns that have ended: the turn of this number is served.
const SERVING: usize = 0;

// The word that counts the turns that were drawn.
const TICKET: usize = 1;

// The slot of the value.
const VALUE: usize = 0;

impl<T: Book> Turn<T> {
    // Draws the next turn, and answers it modulo 2^64.
    fn draw(&self, token: &mut Token<T>) -> u64
        requires token { token.old.table_id ≡ self.now.table.shared.table_id }
        requires out { (token.old.me.0.is_live ≡ true) × (token.old.me.0.is_waiting ≡ false) }
        ensures token { (token.new.table_id ≡ token.old.table_id) × (token.new.id ≡ token.old.id) }
        ensures drew { drew token.old.me result token.new.me }
    {
        self.table.shared.fetch_add::<DrawTurn>(token, TICKET, 1)
    }

    // Answers the turn that is served, modulo 2^64. Where it is the seat's, the seat gets the slot with the value.
    fn look(&self, token: &mut Token<T>) -> u64
        requires token { token.old.table_id ≡ self.now.table.shared.table_id }
        requires waiting { (token.old.me.0.is_live ≡ true) × (token.old.me.0.is_waiting ≡ true) × (token.old.me.0.is_inside ≡ false) × (token.old.me.1 ≡ []) }
        ensures token { (token.new.table_id ≡ token.old.table_id) × (token.new.id ≡ token.old.id) }
        ensures looked { looked T.entries T.ground token.old.me result token.new.me }
    {
        self.table.shared.load::<Look>(token, SERVING)
    }

    // Takes the value out of the slot that the seat has.
    fn take_out(&self, token: &mut Token<T>) -> Held<T>
        requires token { token.old.table_id ≡ self.now.table.shared.table_id }
        requires holds { (value : T) × (token.old.me.1 ≡ (0, Some value) ∷ []) }
        ensures token { (token.new.table_id ≡ token.old.table_id) × (token.new.id ≡ token.old.id) }
        ensures value { token.old.me.1 ≡ (0, Some result.value) ∷ [] }
        ensures empty { token.new.me ≡ (token.old.me.0, (0, None) ∷ []) }
    {
        Held {
            value: self.table.shared.exchange(token, VALUE, None).unwrap(),
        }
    }

    // Looks until the turn that was drawn is served, and takes the value out. Between two looks other threads may run.
    fn wait<R: Wait>(&self, rt: &R, token: &mut Token<T>, turn: u64) -> Held<T>
        requires token { token.old.table_id ≡ self.now.table.shared.table_id }
        requires waiting { (token.old.me.0.is_live ≡ true) × (token.old.me.0.is_waiting ≡ true) × (token.old.me.0.is_inside ≡ false) × (token.old.me.1 ≡ []) }
        requires turn { token.old.me.0.turn % 2 ^ 64 ≡ turn }
        ensures token { (token.new.table_id ≡ token.old.table_id) × (token.new.id ≡ token.old.id) }
        ensures view { token.new.me ≡ (entered token.old.me.0 (T.entries result.value), (0, None) ∷ []) }
        ensures grown { GrownByOthers token.old.me.0.number token.old.me.0.seen (T.entries result.value) }
        ensures ground { token.old.me.0.ground ≡ Some (T.ground result.value) }
    {
        'looks: for _ in rt.forever() {
            if self.look(token) == turn {
                return self.take_out(token);
            }
            yield_now();
        }
        unreachable!()
    }

    /// Waits until it is the seat's turn, and hands out the value.
    ///
    /// The list begins with all that the seat had seen (`begins`), its entries of this seat are just
    /// the seat's own (`own`), and the ground is the one that the seat knows. From here to its
    /// [`leave`](Turn::leave) the seat is inside, and no other is.
    ///
    /// This call may wait, for ever if the seat that is inside never leaves. It takes no memory.
    pub fn enter<R: Wait>(&self, rt: &R, seat: &mut Seat<T>) -> Held<T>
        requires of { IsOf self.now seat.old }
        requires out { IsOut seat.old }
        ensures seat { IsSameSeat seat.old seat.new }
        ensures inside { IsInside seat.new }
        ensures seen { seen_by seat.new ≡ T.entries (value_in result) }
        ensures begins { StartsWith (T.entries (value_in result)) (seen_by seat.old) }
        ensures own { entries_of (number_of seat.old) (T.entries (value_in result)) ≡ own_of seat.old }
        ensures ground { KnowsGround seat.old (T.ground (value_in result)) }
    {
        let turn = self.draw(&mut seat.token);
        self.wait(rt, &mut seat.token, turn)
    }

    // Puts the value into the slot that the seat has.
    fn put_back(&self, token: &mut Token<T>, held: Held<T>)
        requires token { token.old.table_id ≡ self.now.table.shared.table_id }
        requires empty { token.old.me.1 ≡ (0, None) ∷ [] }
        ensures token { (token.new.table_id ≡ token.old.table_id) × (token.new.id ≡ token.old.id) }
        ensures holds { token.new.me ≡ (token.old.me.0, (0, Some held.value) ∷ []) }
    {
        let Held { value } = held;
        match self.table.shared.exchange(token, VALUE, Some(value)) {
            None => {}
            Some(_) => unreachable!(),
        }
    }

    // Gives the slot back, and lets the next turn be served. From here on the entry counts.
    fn advance(&self, token: &mut Token<T>)
        requires token { token.old.table_id ≡ self.now.table.shared.table_id }
        requires inside { token.old.me.0.is_inside ≡ true }
        requires holds { (value : T) × (item : T.Item) × (token.old.me.1 ≡ (0, Some value) ∷ []) × (T.entries value ≡ token.old.me.0.seen ++ (token.old.me.0.number, item) ∷ []) × (token.old.me.0.ground ≡ Some (T.ground value)) }
        ensures token { (token.new.table_id ≡ token.old.table_id) × (token.new.id ≡ token.old.id) }
        ensures advanced { advanced T.entries T.ground token.old.me 0 token.new.me }
    {
        self.table.shared.fetch_add::<Advance>(token, SERVING, 1);
    }

    /// Puts the value back and ends the turn.
    ///
    /// Its list has to be the one that was entered with one more entry, of this seat's number, at
    /// its end (`entry`), and its ground unchanged. The seat has then seen that list.
    ///
    /// This call waits for nobody and takes no memory.
    pub fn leave(&self, seat: &mut Seat<T>, held: Held<T>)
        requires of { IsOf self.now seat.old }
        requires inside { IsInside seat.old }
        requires ground { KnowsGround seat.old (T.ground (value_in held)) }
        requires entry { (item : T.Item) × (T.entries (value_in held) ≡ seen_by seat.old ++ (number_of seat.old, item) ∷ []) }
        ensures seat { IsSameSeat seat.old seat.new }
        ensures out { IsOut seat.new }
        ensures seen { seen_by seat.new ≡ T.entries (value_in held) }
    {
        self.put_back(&mut seat.token, held);
        self.advance(&mut seat.token);
    }

    /// Takes one whole turn: enters, hands the value and the seat's number to `act`, and leaves with
    /// what `act` makes of the value.
    ///
    /// `act` adds one entry of this number at the end of the list and keeps the ground (`adds`). What
    /// the seat had seen is a prefix of what it has seen now (`begins`), which is the list of what `act`
    /// answered (`acted`), and its own entries are those that it had and that one (`own`).
    ///
    /// This call may wait, as [`enter`](Turn::enter) may. It takes no memory of its own.
    pub fn take_turn<R: Wait, F: FnOnce(u32, T) -> T>(&self, rt: &R, seat: &mut Seat<T>, act: F)
        requires of { IsOf self.now seat.old }
        requires out { IsOut seat.old }
        requires may { (value : T) → F.pre act (number_of seat.old) value }
        requires adds { (value : T) (new : T) → F.post act (number_of seat.old) value new → AddsOne T.entries T.ground (number_of seat.old) value new }
        ensures seat { IsSameSeat seat.old seat.new }
        ensures out { IsOut seat.new }
        ensures begins { StartsWith (seen_by seat.new) (seen_by seat.old) }
        ensures own { (item : T.Item) × (own_of seat.new ≡ own_of seat.old ++ (number_of seat.old, item) ∷ []) }
        ensures acted { (value : T) × (new : T) × F.post act (number_of seat.old) value new × (seen_by seat.new ≡ T.entries new) }
    {
        let number = seat.number();
        let Held { value } = self.enter(rt, seat);
        let value = act(number, value);
        self.leave(seat, Held { value });
    }
}

impl<T: Book> Seat<T> {
    /// The number that `make` was given for this seat.
    pub fn number(&self) -> u32
        ensures { result ≡ number_of self.now }
    {
        self.number
    }
}
