//! What the program answers to texts, words, sources and sinks.

use crate::programs::{
    ASKING, ASKING_ROWS, CALLING, CALLING_ROWS, COMMIT, COMMIT_ROWS, LETTER, LETTER_ROWS, LETTERS,
    LETTERS_ROWS,
};
use crate::rows::{COUNTER, COUNTER_ROWS, MAIL, MAIL_ROWS, QUERY, QUERY_ROWS, Row};
use crate::runs::RUNS;
use dl_io::{MemSink, MemSource};
use dl_top::{Status, Word, plain};
use std::alloc::{AllocError, Global};
use std::test::Fail;

/// The line of a text that stands here, or the one that is put in its place.
fn line_at<'a>(changes: &[(usize, &'a str)], number: usize, line: &'a str) -> &'a str {
    match changes.iter().find(|change| change.0 == number) {
        Some((_, new)) => new,
        None => line,
    }
}

/// A text with other lines in place of some of its own.
fn changed(
    alloc: Global,
    base: &'static str,
    changes: &[(usize, &'static str)],
) -> Result<String, AllocError> {
    let mut text = String::new(alloc);
    let mut number: usize = 0;
    for line in base.lines() {
        number = number.saturating_add(1);
        text.push_str(line_at(changes, number, line))?;
        text.push_str("\n")?;
    }
    Ok(text)
}

/// How a source and a sink in memory behave.
#[derive(Drop)]
struct Devices {
    /// The most bytes of the first read, or 0 for no bound.
    first_piece: u32,
    /// The number of the read that fails.
    failing_read: u32,
    /// The bytes that the sink has room for.
    room: u32,
}

/// Devices that never fail in these tests.
const SOUND: Devices = Devices {
    first_piece: 0,
    failing_read: 1000,
    room: 1000,
};

/// The words of a command line.
fn words_of(alloc: Global, texts: &[&str]) -> Result<Vec<Word>, AllocError> {
    let mut words = Vec::new(alloc);
    for text in texts {
        words.push(Word::make(String::from_str(alloc, text)?))?;
    }
    Ok(words)
}

/// What the program answers to words and a text, and what it writes.
fn answered(
    alloc: Global,
    devices: &Devices,
    texts: &[&str],
    text: &[u8],
) -> Result<(Status, Vec<u8>), AllocError> {
    let words = words_of(alloc, texts)?;
    let mut source = MemSource::make(
        Vec::from_slice(alloc, text)?,
        vec![in alloc; devices.first_piece]?,
        vec![in alloc; devices.failing_read]?,
    );
    let mut sink = MemSink::make(alloc, devices.room, Vec::new(alloc), Vec::new(alloc))?;
    let status = plain(alloc, words.as_slice(), &mut source, &mut sink);
    let written = Vec::from_slice(alloc, sink.written())?;
    Ok((status, written))
}

/// What `check` answers to a text, and what it writes.
fn checked(alloc: Global, text: &[u8]) -> Result<(Status, Vec<u8>), AllocError> {
    answered(alloc, &SOUND, &["check"], text)
}

/// What `check` answers to a row of a text.
fn answered_row(
    alloc: Global,
    base: &'static str,
    row: &Row,
) -> Result<(Status, Vec<u8>), AllocError> {
    let text = changed(alloc, base, row.changes)?;
    checked(alloc, text.as_bytes())
}

#[test]
fn counters(rt: HostRuntime) -> Result<(), Fail> {
    for row in &COUNTER_ROWS {
        let (status, line) = answered_row(rt.alloc(), COUNTER, row)?;
        assert_eq!(rt; line.as_slice(), row.line.as_bytes());
        assert_eq!(rt; status, row.status);
    }
    Ok(())
}

#[test]
fn mails(rt: HostRuntime) -> Result<(), Fail> {
    for row in &MAIL_ROWS {
        let (status, line) = answered_row(rt.alloc(), MAIL, row)?;
        assert_eq!(rt; line.as_slice(), row.line.as_bytes());
        assert_eq!(rt; status, row.status);
    }
    Ok(())
}

#[test]
fn queries(rt: HostRuntime) -> Result<(), Fail> {
    for row in &QUERY_ROWS {
        let (status, line) = answered_row(rt.alloc(), QUERY, row)?;
        assert_eq!(rt; line.as_slice(), row.line.as_bytes());
        assert_eq!(rt; status, row.status);
    }
    Ok(())
}

#[test]
fn letters(rt: HostRuntime) -> Result<(), Fail> {
    for row in &LETTER_ROWS {
        let (status, line) = answered_row(rt.alloc(), LETTER, row)?;
        assert_eq!(rt; line.as_slice(), row.line.as_bytes());
        assert_eq!(rt; status, row.status);
    }
    Ok(())
}

#[test]
fn letters_of_two(rt: HostRuntime) -> Result<(), Fail> {
    for row in &LETTERS_ROWS {
        let (status, line) = answered_row(rt.alloc(), LETTERS, row)?;
        assert_eq!(rt; line.as_slice(), row.line.as_bytes());
        assert_eq!(rt; status, row.status);
    }
    Ok(())
}

#[test]
fn asks(rt: HostRuntime) -> Result<(), Fail> {
    for row in &ASKING_ROWS {
        let (status, line) = answered_row(rt.alloc(), ASKING, row)?;
        assert_eq!(rt; line.as_slice(), row.line.as_bytes());
        assert_eq!(rt; status, row.status);
    }
    Ok(())
}

#[test]
fn calls(rt: HostRuntime) -> Result<(), Fail> {
    for row in &CALLING_ROWS {
        let (status, line) = answered_row(rt.alloc(), CALLING, row)?;
        assert_eq!(rt; line.as_slice(), row.line.as_bytes());
        assert_eq!(rt; status, row.status);
    }
    Ok(())
}

#[test]
fn commits(rt: HostRuntime) -> Result<(), Fail> {
    for row in &COMMIT_ROWS {
        let (status, line) = answered_row(rt.alloc(), COMMIT, row)?;
        assert_eq!(rt; line.as_slice(), row.line.as_bytes());
        assert_eq!(rt; status, row.status);
    }
    Ok(())
}

/// The counter in its one layout.
const LAID_OUT: &str = "(disel 1
  (nodes a)
  (protocol count (field n int 0) (tag inc () (send true (set n (+ (get self n me) 1)))))
  (label c count)
  (world w (labels c) (hooks))
  (invariant pos w (all x (<= 0 (get c n x))))
  (deploy w)
  (proof (step pos c inc send) (names s d) (open k (inst pos k hk (inst pos s hs (decide (= k s) q (reduce q goal (linear (add (1 (goal)) (1 (use hs))))) (reduce q goal (linear (add (1 (goal)) (1 (use hk))))))))))
)
";

#[test]
fn layouts(rt: HostRuntime) -> Result<(), Fail> {
    let (status, written) = answered(rt.alloc(), &SOUND, &["show"], COUNTER.as_bytes())?;
    assert_eq!(rt; written.as_slice(), LAID_OUT.as_bytes());
    assert_eq!(rt; status, Status::Done);
    Ok(())
}

/// The text with a client and a server in its one layout.
const LETTER_LAID_OUT: &str = "(disel 1
  (nodes a b)
  (protocol mail (field got bool 0) (tag req ((v int)) (send true) (receive true (set got 1))))
  (label r mail)
  (world w (labels r) (hooks))
  (invariant seen w (each m r req (implies (= (live m) 0) (= (get r got (to m)) 1))))
  (proc client w ((v int)) (locals) (pre true) (post true) (body (send true r req b v)) (return 0))
  (proc server w () (locals f u) (pre true) (post (= (get r got me) 1)) (body (await true r req f (u))) (return u))
  (deploy w (a client 7) (b server))
  (proof (step seen r req send) (names s d x1) (split (by seen) (intro z (linear (use z) (use z)))))
  (proof (step seen r req receive) (names n k) (open j (intro z (decide (= (to j) n) q (reduce q goal (linear (goal) (goal))) (reduce q goal (decide (= (id j) (id k)) e (parts mine mt ml (have (= (to j) n) y (rewrite e goal (by mt)) (apply q bad (by y) (close)))) (reduce e z (inst seen j s1 (apply s1 s2 (by z) (by s2))))))))))
)
";

#[test]
fn layouts_of_programs(rt: HostRuntime) -> Result<(), Fail> {
    let devices = Devices {
        first_piece: 0,
        failing_read: 1000,
        room: 2000,
    };
    let (status, written) = answered(rt.alloc(), &devices, &["show"], LETTER.as_bytes())?;
    assert_eq!(rt; written.as_slice(), LETTER_LAID_OUT.as_bytes());
    assert_eq!(rt; status, Status::Done);
    Ok(())
}

#[test]
fn no_layout_of_a_refused_text(rt: HostRuntime) -> Result<(), Fail> {
    let (status, written) = answered(rt.alloc(), &SOUND, &["show"], b"(disel 1)".as_slice())?;
    assert_eq!(rt; written.as_slice(), b"refused 10 BadForm 1:1\n".as_slice());
    assert_eq!(rt; status, Status::Refused);
    Ok(())
}

/// Whole texts, and the lines that refuse them.
const TEXTS: [(&[u8], &str); 9] = [
    (b"", "refused 3 Unclosed 1:1\n"),
    (b"; x\n", "refused 3 Unclosed 2:1\n"),
    (b"(disel 1))", "refused 4 Stray 1:10\n"),
    (b"(disel 1)", "refused 10 BadForm 1:1\n"),
    (b"((disel 1))", "refused 10 BadForm 1:1\n"),
    (b"\x80", "refused 1 BadByte 1:1\n"),
    (b"(a (b)", "refused 3 Unclosed 1:7\n"),
    (b"(a -0)", "refused 2 BadToken 1:4\n"),
    (
        b"(disel 1 (nodes a) (world w (labels) (hooks)) (deploy w) (deploy w))",
        "refused 10 BadForm 1:58\n",
    ),
];

#[test]
fn texts(rt: HostRuntime) -> Result<(), Fail> {
    for (text, line) in &TEXTS {
        let (status, written) = checked(rt.alloc(), text)?;
        assert_eq!(rt; written.as_slice(), line.as_bytes());
        assert_eq!(rt; status, Status::Refused);
    }
    Ok(())
}

/// So many of the same byte behind a first one.
fn long(alloc: Global, first: u8, byte: u8, count: usize) -> Result<Vec<u8>, AllocError> {
    let mut text = vec![in alloc; byte; count]?;
    text.insert(0, first)?;
    Ok(text)
}

#[test]
fn deep_lists(rt: HostRuntime) -> Result<(), Fail> {
    let text = long(rt.alloc(), b'(', b'(', 200)?;
    let (status, written) = checked(rt.alloc(), text.as_slice())?;
    assert_eq!(rt; written.as_slice(), b"refused 5 Deep 1:201\n".as_slice());
    assert_eq!(rt; status, Status::Refused);
    Ok(())
}

#[test]
fn longest_texts(rt: HostRuntime) -> Result<(), Fail> {
    let text = long(rt.alloc(), b';', b'x', 1_048_575)?;
    let (status, written) = checked(rt.alloc(), text.as_slice())?;
    assert_eq!(rt;
        written.as_slice(),
        b"refused 3 Unclosed 1:1048577\n".as_slice()
    );
    assert_eq!(rt; status, Status::Refused);
    Ok(())
}

#[test]
fn too_long_texts(rt: HostRuntime) -> Result<(), Fail> {
    let text = long(rt.alloc(), b';', b'x', 1_048_576)?;
    let (status, written) = checked(rt.alloc(), text.as_slice())?;
    assert_eq!(rt;
        written.as_slice(),
        b"refused text longer than 1048576\n".as_slice()
    );
    assert_eq!(rt; status, Status::TooLong);
    Ok(())
}

/// A read of the counter's field in a sum of 1,024 of them, nested ten deep.
fn summed(alloc: Global, read: &str) -> Result<String, AllocError> {
    let mut sum = String::from_str(alloc, read)?;
    for _ in 0..10 {
        sum = format!(in alloc; "(+ {sum} {sum})")?;
    }
    Ok(sum)
}

/// The counter whose update and invariant are sums of 1,024 reads.
fn counter_of_sums(alloc: Global) -> Result<String, AllocError> {
    let update = summed(alloc, "(get self n me)")?;
    let read = summed(alloc, "(get c n x)")?;
    format!(in alloc;
        "(disel 1
  (nodes a)
  (protocol count
    (field n int 0)
    (tag inc () (send true (set n {update}))))
  (label c count)
  (world w (labels c) (hooks))
  (invariant pos w (all x (<= 0 {read})))
  (deploy w)
  (proof (init pos) (names) (open k (linear (goal))))
)
"
    )
}

#[test]
fn too_large_obligations(rt: HostRuntime) -> Result<(), Fail> {
    let text = counter_of_sums(rt.alloc())?;
    let (status, written) = checked(rt.alloc(), text.as_bytes())?;
    assert_eq!(rt;
        written.as_slice(),
        b"refused 33 Limit 8:3 (step pos c inc send)\n".as_slice()
    );
    assert_eq!(rt; status, Status::Refused);
    Ok(())
}

#[test]
fn failing_sources(rt: HostRuntime) -> Result<(), Fail> {
    let devices = Devices {
        first_piece: 10,
        failing_read: 1,
        room: 1000,
    };
    let (status, written) = answered(rt.alloc(), &devices, &["check"], COUNTER.as_bytes())?;
    assert_eq!(rt; written.as_slice(), b"fault read\n".as_slice());
    assert_eq!(rt; status, Status::ReadFault);
    Ok(())
}

#[test]
fn failing_sinks(rt: HostRuntime) -> Result<(), Fail> {
    let devices = Devices {
        first_piece: 0,
        failing_read: 1000,
        room: 5,
    };
    let (status, written) = answered(rt.alloc(), &devices, &["check"], COUNTER.as_bytes())?;
    assert_eq!(rt; written.as_slice(), b"accep".as_slice());
    assert_eq!(rt; status, Status::WriteFault);
    Ok(())
}

#[test]
fn runs(rt: HostRuntime) -> Result<(), Fail> {
    for run in &RUNS {
        let text = changed(rt.alloc(), run.base, run.changes)?;
        let (status, written) = answered(rt.alloc(), &SOUND, run.words, text.as_bytes())?;
        assert_eq!(rt; written.as_slice(), run.report.as_bytes());
        assert_eq!(rt; status, run.status);
    }
    Ok(())
}

/// Lists of words that name no command, or a run on threads.
const OTHER_WORDS: [&[&str]; 20] = [
    &[],
    &["check", "x"],
    &["Check"],
    &["show", "--serial"],
    &["run"],
    &["run", "serial"],
    &["run", "--serial", "x"],
    &["run", "--budget", "0"],
    &["run", "--budget", "0", "--serial"],
    &["run", "--serial", "--budget", "100001"],
    &["run", "--serial", "--budget", "01"],
    &["run", "--serial", "--budget", "+1"],
    &["run", "--serial", "--budget"],
    &["run", "--serial", "--serial"],
    &["run", "--order", "oldest", "--serial", "--order", "oldest"],
    &["run", "--order", "seed:01"],
    &["run", "--serial", "--order", "seed:01"],
    &["run", "--serial", "--order", "seed:"],
    &["run", "--serial", "--order", "seed:18446744073709551616"],
    &["run", "--serial", "--order", "first"],
];

const USAGE: &str =
    "usage: disel check | show | run [--serial] [--budget B] [--order oldest|newest|seed:S] | gen K [--sum]\n";

#[test]
fn other_words(rt: HostRuntime) -> Result<(), Fail> {
    // The first read would fail.
    let devices = Devices {
        first_piece: 0,
        failing_read: 0,
        room: 1000,
    };
    for texts in &OTHER_WORDS {
        let (status, written) = answered(rt.alloc(), &devices, texts, b"".as_slice())?;
        assert_eq!(rt; written.as_slice(), USAGE.as_bytes());
        assert_eq!(rt; status, Status::Usage);
    }
    Ok(())
}
