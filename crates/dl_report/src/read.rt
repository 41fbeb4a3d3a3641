//! A report, read.

ghost use Rattle.std.specs.Prelude.{◌≡◌, ◌+◌, ◌<◌, ◌≤◌, ◌^◌, suc, length, IfOk, IfErr, MatchOption};
ghost use Rattle.dl_model.specs.Formed.{IsFormed};
ghost use Rattle.dl_report.specs.declared.types.Report.{Report};
ghost use Rattle.dl_report.specs.Fitting.{NamesAreKnown};
ghost use Rattle.dl_report.specs.Ready.{IsReady};
ghost use Rattle.dl_report.specs.Taken.{HasNoEntry, HasNoEnding, HasNoHead, TakesEntry, TakesEnding, TakesHead, TakesEntries, TakesEndings, IsStop};
ghost use Rattle.dl_report.specs.Wrong.{IsReport, IsReadAs, IsFault};

use crate::line::{ending_in, entry_in, head_in};
use crate::types::{Report, ReportFault};
use crate::words::cut;
use dl_model::{Decls, End, Entry, Order};
use dl_tree::Name;
use sqlite_items::Items;
use std::alloc::{AllocError, Global};

/// The first line, and what stands behind it.
fn take_head(text: &[u8]) -> Option<(u32, Order, &[u8])>
    ensures { MatchOption result (HasNoHead text.now) (λ found. TakesHead text.now found.0 found.1 found.2.now) }
{
    let Some((line, rest)) = cut(text, b'\n') else {
        return None;
    };
    match head_in(line) {
        Some((budget, order)) => Some((budget, order, rest)),
        None => None,
    }
}

/// The entry of this number whose line begins the text, and what stands behind it.
fn take_entry<'a>(
    names: &[Name],
    decls: &Decls,
    number: u64,
    text: &'a [u8],
) -> Option<(Entry, &'a [u8])>
    requires { IsReady names.now decls.now }
    ensures { MatchOption result (HasNoEntry names.now decls.now number text.now) (λ found. TakesEntry names.now decls.now number text.now found.0 found.1.now) }
{
    let Some((line, rest)) = cut(text, b'\n') else {
        return None;
    };
    match entry_in(names, decls, number, line) {
        Some(entry) => Some((entry, rest)),
        None => None,
    }
}

/// The end whose line begins the text, and what stands behind it.
fn take_ending<'a>(
    names: &[Name],
    decls: &Decls,
    text: &'a [u8],
) -> Option<((u32, End, u32), &'a [u8])>
    requires { IsReady names.now decls.now }
    ensures { MatchOption result (HasNoEnding names.now decls.now text.now) (λ found. TakesEnding names.now decls.now text.now found.0 found.1.now) }
{
    let Some((line, rest)) = cut(text, b'\n') else {
        return None;
    };
    match ending_in(names, decls, line) {
        Some(ending) => Some((ending, rest)),
        None => None,
    }
}

/// The entries at the front of a text, and what stands behind their lines.
fn take_entries<'a>(
    alloc: Global,
    names: &[Name],
    decls: &Decls,
    text: &'a [u8],
) -> Result<(Items<Entry>, &'a [u8]), AllocError>
    requires short { length text.now + 1 < 2 ^ 32 }
    requires ready { IsReady names.now decls.now }
    ensures { IfOk result (λ found. TakesEntries names.now decls.now text.now found.0 found.1.now) }
{
    let mut entries = Items::new(alloc);
    let mut rest = text;
    let mut number = 1;
    while let Some((entry, behind)) = take_entry(names, decls, number, rest) {
        entries.push(entry)?;
        rest = behind;
        number += 1;
    }
    Ok((entries, rest))
}

/// The ends at the front of a text, and what stands behind their lines.
fn take_endings<'a>(
    alloc: Global,
    names: &[Name],
    decls: &Decls,
    text: &'a [u8],
) -> Result<(Items<(u32, End, u32)>, &'a [u8]), AllocError>
    requires { IsReady names.now decls.now }
    ensures { IfOk result (λ found. TakesEndings names.now decls.now text.now found.0 found.1.now) }
{
    let mut ends = Items::new(alloc);
    let mut rest = text;
    while let Some((end, behind)) = take_ending(names, decls, rest) {
        ends.push(end)?;
        rest = behind;
    }
    Ok((ends, rest))
}

/// The number of the line behind the first line and these entries and ends.
fn next_line(entries: usize, ends: usize) -> u32
    requires { (entries + ends) + 2 < 2 ^ 32 }
    ensures { result ≡ (entries + ends) + 2 }
{
    (entries + ends + 2) as u32
}

/// The report that a text is, or the line at which the reader stops.
fn read(alloc: Global, names: &[Name], decls: &Decls, text: &[u8]) -> Result<Report, ReportFault>
    requires short { length text.now + 1 < 2 ^ 32 }
    requires ready { IsReady names.now decls.now }
    ensures report { IfOk result (λ report. IsReport names.now decls.now text.now report) }
    ensures stop { IfErr result (λ fault. IsStop names.now decls.now text.now fault) }
{
    let Some((budget, order, behind)) = take_head(text) else {
        return Err(ReportFault::Line(1));
    };
    let acted = take_entries(alloc, names, decls, behind)?;
    let ended = take_endings(alloc, names, decls, acted.1)?;
    if ended.1.is_empty() {
        return Ok(Report {
            budget,
            order,
            entries: acted.0,
            ends: ended.0,
        });
    }
    Err(ReportFault::Line(next_line(acted.0.len(), ended.0.len())))
}

/// The report that a text is.
///
/// `Line` comes exactly where the text is no report, with the first line such that no report begins with the lines
/// up to it, from 1; or with the number of lines and one more where lines are missing. A line has its LF.
pub fn read_report(
    alloc: Global,
    names: &[Name],
    decls: &Decls,
    text: &[u8],
) -> Result<Report, ReportFault>
    requires short { length text.now + 1 < 2 ^ 32 }
    requires formed { IsFormed decls.now }
    requires names { NamesAreKnown names.now decls.now }
    ensures report { IfOk result (λ report. IsReport names.now decls.now text.now report) }
    ensures fault { IfErr result (λ fault. IsFault names.now decls.now text.now fault) }
    // What a report was written of is read again, unless memory is wanting.
    ensures only { (report : Report) → IsReport names.now decls.now text.now report → IsReadAs report result }
{
    read(alloc, names, decls, text)
}
