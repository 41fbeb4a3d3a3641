//! Sources and sinks in memory, which fail and cut short by a script.

ghost use Rattle.std.specs.Prelude.{◌≡◌, ◌-◌, ◌≤◌, ◌<◌, ◌↔◌, ◌⊎◌, min, [], length, take, Some, IsTrue, IsErr, IfOk, MatchResult, Contains};
ghost use Rattle.std.specs.Io.{ReadsAtMost, WritesAtMost};
ghost use Rattle.std.specs.Io.KnownBytes.{ReadConsumes, WriteAppends};
ghost use Rattle.dl_io.specs.Causes.{HasCause, HasWriteCause};
ghost use Rattle.dl_io.specs.Script.{piece_of, after_read, after_failed_read, after_write, after_failed_write};

use crate::streams::{Failed, Sink, Source};
use sqlite_items::Items;
use std::alloc::{AllocError, Global};
use std::marker::Model;

/// Whether the call of this number, from 0, is one that fails.
fn fails_at(fails: &[u32], call: u64) -> bool
    ensures { IsTrue result ↔ Contains fails.now call }
{
    fails.iter().any(|k| u64::from(*k) == call)
}

/// How many bytes the call of this number, from 0, gives or takes, of the most that could be.
fn piece_of(pieces: &[u32], call: u64, most: usize) -> usize
    ensures value { result ≡ piece_of pieces.now call most }
    ensures bound { result ≤ most }
    ensures some { 0 < most → 0 < result }
{
    match pieces.get(call as usize) {
        Some(piece) if *piece > 0 => most.min(*piece as usize),
        _ => most,
    }
}

/// A source of bytes in memory, which tells its bytes. It fails and cuts short by a script, and its
/// count of faults is the number of its failed reads.
#[derive(Debug, Drop)]
pub struct MemSource {
    bytes: Items<u8>,
    pieces: Items<u32>,
    fails: Items<u32>,
    at: usize,
    calls: u64,
    failed: u64,
}

impl Model for MemSource {
    ghost use Rattle.std.specs.Prelude.{drop, length, ◌≤◌};
    ghost use Rattle.dl_io.specs.Script.{SourceScript};

    ghost Value = { SourceScript };

    ghost view = { λ s. record { bytes = drop s.at s.bytes; pieces = s.pieces; fails = s.fails; calls = s.calls; failed = s.failed } };

    ghost invariant = { λ s. s.at ≤ length s.bytes };
}

impl MemSource {
    /// A source of these bytes. Read number k, from 0, fails exactly where k is in `fails`. Otherwise
    /// it gives as many bytes as the buffer, the bytes that are left and, where that entry exists and
    /// isn't 0, `pieces[k]` allow. It takes no memory.
    pub fn make(bytes: Vec<u8>, pieces: Vec<u32>, fails: Vec<u32>) -> MemSource
        ensures { result ≡ record { bytes = bytes.items; pieces = pieces.items; fails = fails.items; calls = 0; failed = 0 } }
    {
        MemSource {
            bytes: Items::from_vec(bytes),
            pieces: Items::from_vec(pieces),
            fails: Items::from_vec(fails),
            at: 0,
            calls: 0,
            failed: 0,
        }
    }
}

/// Copies so many bytes into the front of `buf`.
fn copy_front(buf: &mut [u8], bytes: &[u8], count: usize)
    requires room { count ≤ length buf.old }
    requires bytes { count ≤ length bytes.now }
    ensures { take count buf.new ≡ take count bytes.now }
{
    buf[..count].copy_from_slice(&bytes[..count]);
}

impl Source for MemSource {
    ghost left = { λ s. Some s.bytes };

    ghost faults = { λ s. s.failed };

    fn read(&mut self, buf: &mut [u8]) -> Result<usize, Failed>
        ensures bound { ReadsAtMost result buf.new }
        ensures bytes { ReadConsumes (Some self.old.bytes) (Some self.new.bytes) result buf.new }
        ensures cause { HasCause self.old.failed self.new.failed result }
        ensures fails { IsErr result ↔ Contains self.old.fails self.old.calls }
        ensures count { IfOk result (λ n. n ≡ piece_of self.old.pieces self.old.calls (min (length buf.old) (length self.old.bytes))) }
        ensures given { IfOk result (λ n. take n buf.new ≡ take n self.old.bytes) }
        ensures after { MatchResult result (λ n. self.new ≡ after_read self.old n) (λ _. self.new ≡ after_failed_read self.old) }
    {
        let call = self.calls;
        self.calls = self.calls.saturating_add(1);
        if fails_at(self.fails.as_slice(), call) {
            self.failed = self.failed.saturating_add(1);
            return Err(Failed);
        }
        let (_, left) = self.bytes.as_slice().split_at(self.at);
        let count = piece_of(self.pieces.as_slice(), call, buf.len().min(left.len()));
        copy_front(buf, left, count);
        self.at += count;
        Ok(count)
    }
}

/// A sink with room for bytes in memory, which tells what was written. It fails and cuts short by a
/// script, and its count of faults is the number of its failed writes.
#[derive(Debug, Drop)]
pub struct MemSink {
    bytes: Vec<u8>,
    room: usize,
    pieces: Items<u32>,
    fails: Items<u32>,
    calls: u64,
    failed: u64,
}

impl Model for MemSink {
    ghost use Rattle.std.specs.Prelude.{length, vec_capacity, ◌≤◌};
    ghost use Rattle.dl_io.specs.Script.{SinkScript};

    ghost Value = { SinkScript };

    ghost view = { λ s. record { bytes = s.bytes.items; room = s.room; pieces = s.pieces; fails = s.fails; calls = s.calls; failed = s.failed } };

    ghost invariant = { λ s. (length s.bytes.items ≤ s.room) × (s.room ≤ vec_capacity s.bytes) };
}

impl MemSink {
    /// A sink with room for `room` bytes, which it takes here, so that a write takes no memory. Write
    /// number k, from 0, fails exactly where k is in `fails`, or where there are bytes to write and
    /// the room is full. Otherwise it takes as many bytes as there are, the room that is left and,
    /// where that entry exists and isn't 0, `pieces[k]` allow. Want of memory is its only error.
    pub fn make(
        alloc: Global,
        room: u32,
        pieces: Vec<u32>,
        fails: Vec<u32>,
    ) -> Result<MemSink, AllocError>
        ensures { IfOk result (λ sink. sink ≡ record { bytes = []; room = room; pieces = pieces.items; fails = fails.items; calls = 0; failed = 0 }) }
    {
        Ok(MemSink {
            bytes: Vec::with_capacity(alloc, room as usize)?,
            room: room as usize,
            pieces: Items::from_vec(pieces),
            fails: Items::from_vec(fails),
            calls: 0,
            failed: 0,
        })
    }

    /// The bytes that were written.
    pub fn written(&self) -> &[u8]
        ensures { result.now ≡ self.now.bytes }
    {
        self.bytes.as_slice()
    }
}

impl Sink for MemSink {
    ghost written = { λ s. Some s.bytes };

    ghost faults = { λ s. s.failed };

    fn write(&mut self, bytes: &[u8]) -> Result<usize, Failed>
        ensures bound { WritesAtMost result bytes.now }
        ensures bytes { WriteAppends (Some self.old.bytes) (Some self.new.bytes) result bytes.now }
        ensures cause { HasWriteCause self.old.failed self.new.failed result bytes.now }
        ensures fails { IsErr result ↔ (Contains self.old.fails self.old.calls ⊎ ((0 < length bytes.now) × (length self.old.bytes ≡ self.old.room))) }
        ensures count { IfOk result (λ n. n ≡ piece_of self.old.pieces self.old.calls (min (length bytes.now) (self.old.room - length self.old.bytes))) }
        ensures after { MatchResult result (λ n. self.new ≡ after_write self.old bytes.now n) (λ _. self.new ≡ after_failed_write self.old) }
    {
        let call = self.calls;
        self.calls = self.calls.saturating_add(1);
        let full = !bytes.is_empty() && self.bytes.len() == self.room;
        if full || fails_at(self.fails.as_slice(), call) {
            self.failed = self.failed.saturating_add(1);
            return Err(Failed);
        }
        let count = piece_of(
            self.pieces.as_slice(),
            call,
            bytes.len().min(self.room - self.bytes.len()),
        );
        let (front, _) = bytes.split_at(count);
        self.bytes.extend_from_slice(front).unwrap();
        Ok(count)
    }
}
