//! What each command does.

ghost use Rattle.std.specs.Prelude.{◌≡◌, ◌≤◌, ◌<◌, ◌↔◌, None, Some, IfOk, IfErr, length};
ghost use Rattle.dl_io.specs.Causes.{HasExactCause};
ghost use Rattle.dl_tree.specs.Layout.{layout};
ghost use Rattle.dl_top.specs.Budgets.{HasBudget};
ghost use Rattle.dl_top.specs.Words.{command_of, served as served_of};
ghost use Rattle.dl_top.specs.Endings.{Answers, HasWriteFaultCause, Writes, WritesLine, IsAfterText, IsTextOf, IsFaultOf, IsRefusalOf};

use crate::lines::{READ_FAULT, TOO_LONG, USAGE, refusal_line};
use crate::output::{Output, output_of};
use crate::request::Command;
use crate::status::Status;
use crate::word::Word;
use crate::words::served;
use dl_file::Fault;
use dl_io::{ReadAllFault, Sink, Source, read_all, write_all};
use dl_tree::{TreeFault, read_tree};
use std::alloc::Global;

/// The most bytes of a text.
const MAX_TEXT: u32 = 1_048_576;

/// Does what the words ask for. `check`, `show` and `run --serial` read the text that the source gives
/// to its end and check it. Where it has no fault `check` writes the line of its counts, `show` writes
/// the text in its one layout, and `run --serial` runs the programs of its file and writes their report;
/// else each writes the line of its first fault. The answer is the status that the program ends with.
/// Words that name no command are answered with the usage line, and nothing is read; so are those of a
/// run on threads, which is not served here.
pub fn plain<S: Source, K: Sink>(
    alloc: Global,
    words: &[Word],
    source: &mut S,
    sink: &mut K,
) -> Status
    // The words alone tell whether the status is 2, and then nothing is read.
    ensures usage { (result ≡ Status.Usage) ↔ (served_of (command_of words.now) ≡ None) }
    ensures unread { result ≡ Status.Usage → source.new ≡ source.old }
    // The text is what the source gave. It was read to its end where it is answered, and 7 comes exactly where it is too long. What was
    // written is what belongs to the command and the status: the acceptance of the text, which then means a file that keeps its
    // coherences and invariants in every run; the report of this file's serial run, with 0 exactly where each program returned and
    // else with 6; or the text's first fault. A text that was read whole is refused exactly where it has a fault, and one without a
    // fault is accepted where no count rose and there is memory.
    ensures answer { Answers (served_of (command_of words.now)) 1048576 (S.left source.old) (S.left source.new) (S.faults source.old) (S.faults source.new) (K.written sink.old) (K.written sink.new) (K.faults sink.old) (K.faults sink.new) result }
    // 3 comes only where the source's count rose, and where it became greater the status is 3.
    ensures read_fault { HasExactCause (S.faults source.old) (S.faults source.new) (result ≡ Status.ReadFault) }
    // 4 comes only where the sink's count rose.
    ensures write_fault { HasWriteFaultCause (K.faults sink.old) (K.faults sink.new) result }
{
    match served(words) {
        Some(command) => read_text(alloc, command, source, sink),
        None => {
            write_line(sink, USAGE.as_bytes());
            Status::Usage
        }
    }
}

/// Reads a text, and does with it what the command asks for.
fn read_text<S: Source, K: Sink>(
    alloc: Global,
    command: Command,
    source: &mut S,
    sink: &mut K,
) -> Status
    requires { HasBudget command }
    ensures known { result ≡ Status.Usage → ⊥ }
    ensures answer { Answers (Some command) 1048576 (S.left source.old) (S.left source.new) (S.faults source.old) (S.faults source.new) (K.written sink.old) (K.written sink.new) (K.faults sink.old) (K.faults sink.new) result }
    ensures read_fault { HasExactCause (S.faults source.old) (S.faults source.new) (result ≡ Status.ReadFault) }
    ensures write_fault { HasWriteFaultCause (K.faults sink.old) (K.faults sink.new) result }
{
    match read_all(alloc, source, MAX_TEXT) {
        Ok(text) => answer_text(alloc, command, text.as_slice(), sink),
        Err(ReadAllFault::Fault) => {
            write_line(sink, READ_FAULT.as_bytes());
            Status::ReadFault
        }
        Err(ReadAllFault::TooLong) => {
            write_line(sink, TOO_LONG.as_bytes());
            Status::TooLong
        }
        Err(ReadAllFault::Memory) => Status::NoMemory,
    }
}

/// Checks a text, and writes what it is answered.
fn answer_text<K: Sink>(alloc: Global, command: Command, text: &[u8], sink: &mut K) -> Status
    requires budget { HasBudget command }
    requires short { length text.now < 4294967295 }
    ensures status { IsAfterText result }
    ensures write_fault { HasWriteFaultCause (K.faults sink.old) (K.faults sink.new) result }
    ensures written { Writes (Some command) text.now (K.faults sink.old) (K.faults sink.new) (K.written sink.old) (K.written sink.new) result }
{
    match text_of(alloc, command, text) {
        Ok(output) => write_output(command, text, sink, &output),
        Err(Fault::At { rule, place, what }) => {
            let line = refusal_line(alloc, rule, place, &what);
            drop(what);
            match line {
                Ok(line) => write_refusal(command, text, sink, line.as_slice()),
                Err(_) => Status::NoMemory,
            }
        }
        Err(Fault::Memory) => Status::NoMemory,
    }
}

/// Writes a line that goes with a status of its own.
fn write_line<K: Sink>(sink: &mut K, line: &[u8])
    ensures line { WritesLine (K.faults sink.old) (K.faults sink.new) (K.written sink.old) (K.written sink.new) line.now }
    ensures later { K.faults sink.old ≤ K.faults sink.new }
{
    match write_all(sink, line) {
        Ok(()) => {}
        Err(_) => {}
    }
}

/// Writes the line of a refused text.
fn write_refusal<K: Sink>(command: Command, text: &[u8], sink: &mut K, line: &[u8]) -> Status
    requires { IsRefusalOf text.now line.now }
    ensures status { IsAfterText result }
    ensures write_fault { HasWriteFaultCause (K.faults sink.old) (K.faults sink.new) result }
    ensures written { Writes (Some command) text.now (K.faults sink.old) (K.faults sink.new) (K.written sink.old) (K.written sink.new) result }
{
    write_line(sink, line);
    Status::Refused
}

/// Writes the text of a command.
fn write_output<K: Sink>(command: Command, text: &[u8], sink: &mut K, output: &Output) -> Status
    requires { IsTextOf (Some command) text.now output.now.text.items output.now.ended }
    ensures status { IsAfterText result }
    ensures write_fault { HasWriteFaultCause (K.faults sink.old) (K.faults sink.new) result }
    ensures written { Writes (Some command) text.now (K.faults sink.old) (K.faults sink.new) (K.written sink.old) (K.written sink.new) result }
{
    match write_all(sink, output.text.as_slice()) {
        Ok(()) => {
            if output.ended {
                Status::Done
            } else {
                Status::Unended
            }
        }
        Err(_) => Status::WriteFault,
    }
}

/// What the command writes of a text, or the text's first fault.
fn text_of(alloc: Global, command: Command, text: &[u8]) -> Result<Output, Fault>
    requires budget { HasBudget command }
    requires short { length text.now < 4294967295 }
    ensures output { IfOk result (λ output. IsTextOf (Some command) text.now output.text.items output.ended) }
    ensures refused { IfErr result (IsFaultOf text.now) }
{
    match read_tree(alloc, text) {
        Ok(tree) => output_of(alloc, command, tree),
        Err(TreeFault::At { rule, place }) => Err(Fault::At {
            rule,
            place,
            what: None,
        }),
        Err(TreeFault::Memory) => Err(Fault::Memory),
    }
}
