//! Threads that append to one list, each by its own seat.
ghost use Rattle.std.specs.Prelude.{◌≡◌, ℕ, ◌<◌, ◌≤◌, ◌+◌, ◌++◌, ◌∷◌, [], All, IfOk, length, map, nat_eq, slice_index_or, vec_len, vec_capacity};
ghost use Rattle.std.specs.List.{IsDistinct};
ghost use Rattle.dl_turn.specs.Seats.{number_of, own_of, IsOf, IsOut, IsSameSeat};

use super::*;
use std::alloc::{AllocError, Global};
use std::process::Abort;
use std::sync::Wait;
use std::test::Fail;
use std::thread;
use std::thread::Threads;

// The entries in the order of the turns. The ground is the room.
#[derive(Drop)]
struct Log {
    entries: Vec<(u32, u32)>,
}

impl Book for Log {
    type Item = u32;

    type Ground = u64;

    ghost entries = { λ log. log.entries.items };

    ghost ground = { λ log. vec_capacity log.entries };

    fn count(&self) -> u64 {
        self.entries.len() as u64
    }
}

impl Log {
    fn with_room(alloc: Global, room: usize) -> Result<Log, AllocError>
        ensures { IfOk result (λ log. log.entries.items ≡ []) }
    {
        Ok(Log {
            entries: Vec::with_capacity(alloc, room)?,
        })
    }

    fn add<R: Abort>(&mut self, rt: &R, number: u32, item: u32)
        ensures entries { self.new.entries.items ≡ self.old.entries.items ++ (number, item) ∷ [] }
        ensures room { vec_capacity self.new.entries ≡ vec_capacity self.old.entries }
    {
        assert!(rt;
            self.entries.len() < self.entries.capacity(),
            "the log is full"
        );
        self.entries.push_reserved((number, item));
    }
}

// One turn.
fn append<R: Wait + Abort>(rt: &R, lock: &Turn<Log>, seat: &mut Seat<Log>, item: u32)
    requires of { IsOf lock.now seat.old }
    requires out { IsOut seat.old }
    ensures seat { IsSameSeat seat.old seat.new }
    ensures out { IsOut seat.new }
    ensures own { own_of seat.new ≡ own_of seat.old ++ (number_of seat.old, item) ∷ [] }
{
    let number = seat.number();
    let mut held = lock.enter(rt, seat);
    held.value().add(rt, number, item);
    lock.leave(seat, held);
}

// The same in one call.
fn append_at_once<R: Wait + Abort>(rt: &R, lock: &Turn<Log>, seat: &mut Seat<Log>, item: u32)
    requires of { IsOf lock.now seat.old }
    requires out { IsOut seat.old }
    ensures seat { IsSameSeat seat.old seat.new }
    ensures out { IsOut seat.new }
    ensures own { length (own_of seat.new) ≡ length (own_of seat.old) + 1 }
{
    lock.take_turn(rt, seat, |number, mut log| {
        log.add(rt, number, item);
        log
    });
}

// Turns with the items 0, 1, 2 and so on, by both ways of taking one.
fn append_many<R: Wait + Abort>(rt: &R, lock: &Turn<Log>, seat: &mut Seat<Log>, count: u32)
    requires of { IsOf lock.now seat.old }
    requires out { IsOut seat.old }
    ensures seat { IsSameSeat seat.old seat.new }
    ensures out { IsOut seat.new }
    ensures own { length (own_of seat.new) ≡ length (own_of seat.old) + count }
{
    for item in 0..count {
        if item % 2 == 0 {
            append(rt, lock, seat, item);
        } else {
            append_at_once(rt, lock, seat, item);
        }
    }
}

// Each seat takes its turns, in a thread of its own.
fn start_threads<R: Threads + Wait + Abort + Sync>(
    rt: &R,
    lock: &Turn<Log>,
    seats: &mut [Seat<Log>],
    count: u32,
)
    requires { All (λ s. IsOf lock.now s × IsOut s) seats.old }
    ensures { (k : ℕ) (d : _) → k < length seats.old → IsSameSeat (slice_index_or seats.old k d) (slice_index_or seats.new k d) × IsOut (slice_index_or seats.new k d) }
{
    let threads = seats.len().max(1);
    thread::for_each_mut(
        rt,
        seats,
        threads,
        &|_, seat| append_many(rt, lock, seat, count),
    );
}

// The same, as a caller needs it that closes the lock.
fn append_in_threads<R: Threads + Wait + Abort + Sync>(
    rt: &R,
    lock: &Turn<Log>,
    seats: &mut [Seat<Log>],
    count: u32,
)
    requires { All (λ s. IsOf lock.now s × IsOut s) seats.old }
    ensures seats { All (λ s. IsOf lock.now s × IsOut s) seats.new }
    ensures numbers { map number_of seats.new ≡ map number_of seats.old }
{
    start_threads(rt, lock, seats, count);
}

// The items of one number, in the order of the list.
fn items_of(alloc: Global, log: &Log, number: u32) -> Result<Vec<u32>, AllocError> {
    let mut items = Vec::new(alloc);
    for entry in &log.entries {
        if entry.0 == number {
            items.push(entry.1)?;
        }
    }
    Ok(items)
}

// All entries that the threads appended are in the list, those of each seat in its order, and no others.
fn check_turns<R: Threads + Wait + Abort + Sync>(
    rt: &R,
    alloc: Global,
    numbers: &[u32],
    count: u32,
) -> Result<(), Fail>
    requires some { 0 < length numbers.now }
    requires few { length numbers.now ≤ 16 }
    requires distinct { IsDistinct nat_eq numbers.now }
{
    let log = Log::with_room(alloc, 4000)?;
    let Ok((lock, mut seats)) = Turn::make(alloc, log, numbers) else {
        return Err(Fail::from(AllocError));
    };
    append_in_threads(rt, &lock, seats.as_mut_slice(), count);
    let log = lock.close(seats);
    assert_eq!(rt; log.count(), numbers.len() as u64 * u64::from(count));
    for number in numbers {
        let items = items_of(alloc, &log, *number)?;
        assert_eq!(rt; items.len(), count as usize, "items of {number}");
        for (place, item) in items.iter().enumerate() {
            assert_eq!(rt; *item as usize, place, "items of {number}");
        }
    }
    Ok(())
}

#[test]
fn each_seat_has_its_turns(rt: HostRuntime) -> Result<(), Fail> {
    let alloc = rt.alloc();
    check_turns(&rt, alloc, &[5], 1000)?;
    check_turns(&rt, alloc, &[7, 9], 1000)?;
    check_turns(&rt, alloc, &[3, 1, 0, 4294967295], 1000)?;
    check_turns(
        &rt,
        alloc,
        &[0, 1, 2, 3, 4, 5, 6, 7, 8, 9, 10, 11, 12, 13, 14, 15],
        100,
    )
}
