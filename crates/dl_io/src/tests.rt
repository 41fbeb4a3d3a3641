//! Sources that fail and come in pieces, sinks that are full, and the library's readers and writers.

use crate::gate::{Gate, NoGate};
use crate::mem::{MemSink, MemSource};
use crate::std_streams::{StdSink, StdSource};
use crate::whole::{ReadAllFault, read_all, write_all};
use std::alloc::{AllocError, Global};
use std::test::Fail;

const TEXT: &[u8] = b"accepted nodes 1";

/// A source of the text, which gives one piece and then all, where this read fails.
fn source(alloc: Global, piece: u32, fails: u32) -> Result<MemSource, AllocError> {
    let text = Vec::from_slice(alloc, TEXT)?;
    let pieces = vec![in alloc; piece]?;
    let fails = vec![in alloc; fails]?;
    Ok(MemSource::make(text, pieces, fails))
}

/// Why the text isn't read whole, where anything but the text counts as want of memory.
fn read(alloc: Global, piece: u32, fails: u32, limit: u32) -> Result<(), ReadAllFault> {
    let mut source = source(alloc, piece, fails).map_err(|_| ReadAllFault::Memory)?;
    same(&read_all(alloc, &mut source, limit)?)
}

fn read_by_the_library(alloc: Global) -> Result<(), ReadAllFault> {
    same(&read_all(alloc, &mut StdSource::make(TEXT), 16)?)
}

fn same(bytes: &[u8]) -> Result<(), ReadAllFault> {
    if bytes == TEXT {
        Ok(())
    } else {
        Err(ReadAllFault::Memory)
    }
}

fn sink(alloc: Global, piece: u32, fails: u32, room: u32) -> Result<MemSink, AllocError> {
    let pieces = vec![in alloc; piece]?;
    let fails = vec![in alloc; fails]?;
    MemSink::make(alloc, room, pieces, fails)
}

/// Whether so much of the text is written, and whether that is all of it, where this write fails.
fn written(alloc: Global, piece: u32, fails: u32, room: u32) -> Result<(bool, usize), AllocError> {
    let mut sink = sink(alloc, piece, fails, room)?;
    let all = write_all(&mut sink, TEXT).is_ok();
    let written = sink.written();
    Ok((
        all,
        if TEXT.starts_with(written) {
            written.len()
        } else {
            0
        },
    ))
}

fn is_written_by_the_library(alloc: Global) -> bool {
    write_all(&mut StdSink::make(Vec::new(alloc)), TEXT).is_ok()
}

#[test]
fn reads_whole_inputs(rt: HostRuntime) {
    assert_eq!(rt; read(rt.alloc(), 1, 9, 16), Ok(()));
    assert_eq!(rt; read(rt.alloc(), 3, 9, 15), Err(ReadAllFault::TooLong));
    assert_eq!(rt; read(rt.alloc(), 10, 1, 16), Err(ReadAllFault::Fault));
    assert_eq!(rt; read_by_the_library(rt.alloc()), Ok(()));
}

#[test]
fn writes_what_there_is_room_for(rt: HostRuntime) -> Result<(), Fail> {
    NoGate.meet(0);
    assert_eq!(rt; written(rt.alloc(), 2, 9, 16)?, (true, 16));
    assert_eq!(rt; written(rt.alloc(), 2, 9, 5)?, (false, 5));
    assert_eq!(rt; written(rt.alloc(), 2, 1, 16)?, (false, 2));
    assert!(rt; is_written_by_the_library(rt.alloc()));
    Ok(())
}
