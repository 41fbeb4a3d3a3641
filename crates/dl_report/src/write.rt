//! A report, written.

ghost use Rattle.std.specs.Prelude.{◌≡◌, ◌<◌, ◌++◌, ◌∷◌, [], pos, codes, decimal, map, slice_get, IfOk, OnOk, MatchOption};
ghost use Rattle.std.specs.Fmt.{signed_decimal};
ghost use Rattle.std.specs.List.{concat};
ghost use Rattle.dl_model.specs.Lookup.{protocol_at};
ghost use Rattle.dl_model.specs.Machine.{listed};
ghost use Rattle.dl_report.specs.Kept.{AreKept};
ghost use Rattle.dl_report.specs.Layout.{name_of, node_word, label_word, tag_word, field_word, addressee_word, index_words, call_words, reply_words, entry_words, end_words, ending_words, order_word, head_words, line_of, entry_lines, end_lines, report_of};
ghost use Rattle.dl_report.specs.Small.{IsNoNode};
ghost use Rattle.dl_report.specs.Spaced.{spaced};

use crate::append::{byte, digits, dotted, integer, natural, text, word};
use crate::front::{Fronts, entry_front};
use crate::lead::{Lead, Leads};
use crate::named::{FIRST_NAME, fields_of, tags_of, text_at};
use dl_model::{Args, Call, Decls, End, Entry, Order, Reply};
use dl_tree::Name;
use std::alloc::{AllocError, Global};

/// Appends a blank and the name of a node.
#[inline(always)]
pub(crate) fn node(out: &mut Vec<u8>, names: &[Name], node: u32) -> Result<(), AllocError>
    ensures { OnOk result (out.new.items ≡ out.old.items ++ spaced (node_word names.now node ∷ [])) }
{
    word(out, text_at(names, FIRST_NAME + node as usize))
}

/// The text of a label.
#[inline(always)]
fn label<'a>(names: &'a [Name], decls: &Decls, label: u8) -> &'a str
    ensures { result.now ≡ label_word names.now decls.now label }
{
    match decls.labels.get(usize::from(label)) {
        Some(sym) => text_at(names, *sym as usize),
        None => "",
    }
}

/// The text of a label's tag.
#[inline(always)]
fn tag_name<'a>(names: &'a [Name], decls: &Decls, label: u8, tag: u8) -> &'a str
    ensures { result.now ≡ name_of names.now (λ t. t.sym) (slice_get (protocol_at decls.now.inst label).tags tag) }
{
    match tags_of(&decls.inst, label).get(usize::from(tag)) {
        Some(tag) => text_at(names, tag.sym as usize),
        None => "",
    }
}

/// The text of a label's field.
fn field_name<'a>(names: &'a [Name], decls: &Decls, label: u8, field: u8) -> &'a str
    ensures { result.now ≡ name_of names.now (λ f. f.sym) (slice_get (protocol_at decls.now.inst label).fields field) }
{
    match fields_of(&decls.inst, label).get(usize::from(field)) {
        Some(field) => text_at(names, field.sym as usize),
        None => "",
    }
}

/// Appends a blank, a label and a tag of its protocol.
#[inline(always)]
pub(crate) fn tag(
    out: &mut Vec<u8>,
    names: &[Name],
    decls: &Decls,
    at: u8,
    tag: u8,
) -> Result<(), AllocError>
    ensures { OnOk result (out.new.items ≡ out.old.items ++ spaced (tag_word names.now decls.now at tag ∷ [])) }
{
    let front = label(names, decls, at);
    let back = tag_name(names, decls, at, tag);
    dotted(out, front, back)
}

/// Appends a blank, a label and a field of its protocol.
fn field(
    out: &mut Vec<u8>,
    names: &[Name],
    decls: &Decls,
    at: u8,
    field: u8,
) -> Result<(), AllocError>
    ensures { OnOk result (out.new.items ≡ out.old.items ++ spaced (field_word names.now decls.now at field ∷ [])) }
{
    let front = label(names, decls, at);
    let back = field_name(names, decls, at, field);
    dotted(out, front, back)
}

/// The node that a number is.
#[inline(always)]
fn node_at(nodes: u32, number: &i64) -> Option<u32>
    ensures { MatchOption result (IsNoNode nodes number.now) (λ n. (number.now ≡ pos n) × (n < nodes)) }
{
    if 0 <= *number && *number < i64::from(nodes) {
        Some(*number as u32)
    } else {
        None
    }
}

/// Appends a blank and an addressee.
#[inline(always)]
pub(crate) fn addressee(
    out: &mut Vec<u8>,
    names: &[Name],
    decls: &Decls,
    to: &i64,
) -> Result<(), AllocError>
    ensures { OnOk result (out.new.items ≡ out.old.items ++ spaced (addressee_word names.now decls.now to.now ∷ [])) }
{
    match node_at(decls.inst.nodes, to) {
        Some(at) => node(out, names, at),
        None => integer(out, to),
    }
}

/// Appends numbers, each with a blank before it.
fn integers(out: &mut Vec<u8>, values: &[i64]) -> Result<(), AllocError>
    ensures { OnOk result (out.new.items ≡ out.old.items ++ spaced (map signed_decimal values.now)) }
{
    let mut rest = values;
    while let Some((value, more)) = rest.split_first() {
        integer(out, value)?;
        rest = more;
    }
    Ok(())
}

/// The arguments that count.
#[inline(always)]
fn values(args: &Args) -> &[i64]
    ensures { result.now ≡ listed args.now }
{
    let values = args.values.as_slice();
    let count = usize::from(args.count);
    if count < values.len() {
        &values[..count]
    } else {
        values
    }
}

/// Appends arguments.
#[inline(always)]
fn arguments(out: &mut Vec<u8>, args: &Args) -> Result<(), AllocError>
    ensures { OnOk result (out.new.items ≡ out.old.items ++ spaced (map signed_decimal (listed args.now))) }
{
    if args.count == 0 {
        return Ok(());
    }
    integers(out, values(args))
}

/// Appends the index of a read, where it has one.
fn place(out: &mut Vec<u8>, index: &Option<i64>) -> Result<(), AllocError>
    ensures { OnOk result (out.new.items ≡ out.old.items ++ spaced (index_words index.now)) }
{
    match index {
        Some(index) => integer(out, index),
        None => Ok(()),
    }
}

/// Appends a send.
#[inline(always)]
fn send(
    out: &mut Vec<u8>,
    names: &[Name],
    decls: &Decls,
    label: u8,
    at: u8,
    to: &i64,
    values: &Args,
) -> Result<(), AllocError>
    ensures { OnOk result (out.new.items ≡ out.old.items ++ spaced (codes "send" ∷ tag_word names.now decls.now label at ∷ addressee_word names.now decls.now to.now ∷ map signed_decimal (listed values.now))) }
{
    text(out, b" send")?;
    tag(out, names, decls, label, at)?;
    addressee(out, names, decls, to)?;
    arguments(out, values)
}

/// Appends a text, a blank, a label and a tag of its protocol.
#[inline(always)]
pub(crate) fn tagged(
    out: &mut Vec<u8>,
    names: &[Name],
    decls: &Decls,
    front: &[u8],
    label: u8,
    at: u8,
) -> Result<(), AllocError>
    ensures { OnOk result (out.new.items ≡ out.old.items ++ (front.now ++ spaced (tag_word names.now decls.now label at ∷ []))) }
{
    text(out, front)?;
    tag(out, names, decls, label, at)
}

/// Appends a read.
fn read(
    out: &mut Vec<u8>,
    names: &[Name],
    decls: &Decls,
    label: u8,
    at: u8,
    index: &Option<i64>,
) -> Result<(), AllocError>
    ensures { OnOk result (out.new.items ≡ out.old.items ++ spaced (codes "read" ∷ field_word names.now decls.now label at ∷ index_words index.now)) }
{
    word(out, "read")?;
    field(out, names, decls, label, at)?;
    place(out, index)
}

/// Appends a call.
#[inline(always)]
fn call(out: &mut Vec<u8>, names: &[Name], decls: &Decls, call: &Call) -> Result<(), AllocError>
    ensures { OnOk result (out.new.items ≡ out.old.items ++ spaced (call_words names.now decls.now call.now)) }
{
    match call {
        Call::Send {
            label,
            tag,
            to,
            args,
        } => send(out, names, decls, *label, *tag, to, args),
        Call::Poll { label, tag } => tagged(out, names, decls, b" poll", *label, *tag),
        Call::Await { label, tag } => tagged(out, names, decls, b" await", *label, *tag),
        Call::Read {
            label,
            field,
            index,
        } => read(out, names, decls, *label, *field, index),
    }
}

/// Appends a message.
#[inline(always)]
fn got(
    out: &mut Vec<u8>,
    names: &[Name],
    ids: &mut Lead,
    id: u32,
    from: u32,
    values: &Args,
) -> Result<(), AllocError>
    ensures { OnOk result (out.new.items ≡ out.old.items ++ spaced (decimal id ∷ codes "from" ∷ node_word names.now from ∷ map signed_decimal (listed values.now))) }
{
    ids.append_word(out, id as u64)?;
    text(out, b" from")?;
    node(out, names, from)?;
    arguments(out, values)
}

/// Appends a reply.
#[inline(always)]
fn reply(out: &mut Vec<u8>, names: &[Name], ids: &mut Lead, reply: &Reply) -> Result<(), AllocError>
    ensures { OnOk result (out.new.items ≡ out.old.items ++ spaced (reply_words names.now reply.now)) }
{
    match reply {
        Reply::Sent(id) => ids.append_word(out, *id as u64),
        Reply::Got { id, from, args } => got(out, names, ids, *id, *from, args),
        Reply::Miss => text(out, b" miss"),
        Reply::Value(value) => integer(out, value),
    }
}

/// Appends the front of a line: the node, its ticks, its call and the arrow.
pub(crate) fn plain_front(
    out: &mut Vec<u8>,
    names: &[Name],
    decls: &Decls,
    entry: &Entry,
) -> Result<(), AllocError>
    ensures { OnOk result (out.new.items ≡ out.old.items ++ spaced (node_word names.now entry.now.node ∷ decimal entry.now.ticks ∷ (call_words names.now decls.now entry.now.call ++ (codes "->" ∷ [])))) }
{
    node(out, names, entry.node)?;
    natural(out, entry.ticks as u64)?;
    call(out, names, decls, &entry.call)?;
    text(out, b" ->")
}

/// Appends what stands behind the number of an entry.
#[inline(always)]
fn behind_number(
    out: &mut Vec<u8>,
    names: &[Name],
    decls: &Decls,
    ids: &mut Lead,
    fronts: &mut Fronts,
    entry: &Entry,
) -> Result<(), AllocError>
    requires { AreKept names.now decls.now fronts.old }
    ensures { OnOk result ((out.new.items ≡ out.old.items ++ spaced (node_word names.now entry.now.node ∷ decimal entry.now.ticks ∷ (call_words names.now decls.now entry.now.call ++ (codes "->" ∷ reply_words names.now entry.now.reply)))) × AreKept names.now decls.now fronts.new) }
{
    entry_front(out, names, decls, fronts, entry)?;
    reply(out, names, ids, &entry.reply)
}

/// Appends the line of an entry.
fn entry_line(
    out: &mut Vec<u8>,
    names: &[Name],
    decls: &Decls,
    leads: &mut Leads,
    fronts: &mut Fronts,
    number: u64,
    entry: &Entry,
) -> Result<(), AllocError>
    requires { AreKept names.now decls.now fronts.old }
    ensures { OnOk result ((out.new.items ≡ out.old.items ++ line_of (entry_words names.now decls.now number entry.now)) × AreKept names.now decls.now fronts.new) }
{
    leads.numbers.append(out, number)?;
    behind_number(out, names, decls, &mut leads.ids, fronts, entry)?;
    byte(out, b'\n')
}

/// Appends how a program ended.
fn state(out: &mut Vec<u8>, end: &End) -> Result<(), AllocError>
    ensures { OnOk result (out.new.items ≡ out.old.items ++ spaced (end_words end.now)) }
{
    match end {
        End::Ended(value) => ended(out, value),
        End::Stopped => word(out, "stopped"),
        End::Spent => word(out, "spent"),
        End::Waiting => word(out, "waiting"),
    }
}

/// Appends that a program ended with a value.
fn ended(out: &mut Vec<u8>, value: &i64) -> Result<(), AllocError>
    ensures { OnOk result (out.new.items ≡ out.old.items ++ spaced (codes "ended" ∷ signed_decimal value.now ∷ [])) }
{
    word(out, "ended")?;
    integer(out, value)
}

/// Appends what stands behind the first word of an end.
fn behind_end(out: &mut Vec<u8>, names: &[Name], ending: &(u32, End, u32)) -> Result<(), AllocError>
    ensures { OnOk result (out.new.items ≡ out.old.items ++ spaced (node_word names.now ending.now.0 ∷ (end_words ending.now.1 ++ (codes "units" ∷ decimal ending.now.2 ∷ [])))) }
{
    node(out, names, ending.0)?;
    state(out, &ending.1)?;
    word(out, "units")?;
    natural(out, ending.2 as u64)
}

/// Appends the line of an end.
fn ending_line(
    out: &mut Vec<u8>,
    names: &[Name],
    ending: &(u32, End, u32),
) -> Result<(), AllocError>
    ensures { OnOk result (out.new.items ≡ out.old.items ++ line_of (ending_words names.now ending.now)) }
{
    text(out, b"end")?;
    behind_end(out, names, ending)?;
    byte(out, b'\n')
}

/// Appends a blank and the word of an order.
fn order(out: &mut Vec<u8>, order: Order) -> Result<(), AllocError>
    ensures { OnOk result (out.new.items ≡ out.old.items ++ spaced (order_word order ∷ [])) }
{
    match order {
        Order::Oldest => word(out, "oldest"),
        Order::Newest => word(out, "newest"),
        Order::Seed(seed) => by_seed(out, seed),
    }
}

/// Appends a blank and the order by a seed.
fn by_seed(out: &mut Vec<u8>, seed: u64) -> Result<(), AllocError>
    ensures { OnOk result (out.new.items ≡ out.old.items ++ spaced ((codes "seed:" ++ decimal seed) ∷ [])) }
{
    word(out, "seed:")?;
    digits(out, seed)
}

/// Appends what stands behind the first word of a report.
fn behind_run(out: &mut Vec<u8>, budget: u32, way: Order) -> Result<(), AllocError>
    ensures { OnOk result (out.new.items ≡ out.old.items ++ spaced (codes "budget" ∷ decimal budget ∷ codes "order" ∷ order_word way ∷ [])) }
{
    word(out, "budget")?;
    natural(out, budget as u64)?;
    word(out, "order")?;
    order(out, way)
}

/// Appends the first line.
fn head_line(out: &mut Vec<u8>, budget: u32, order: Order) -> Result<(), AllocError>
    ensures { OnOk result (out.new.items ≡ out.old.items ++ line_of (head_words budget order)) }
{
    text(out, b"run")?;
    behind_run(out, budget, order)?;
    byte(out, b'\n')
}

/// Appends the lines of entries, which are numbered from 1 on.
fn all_entries(
    alloc: Global,
    out: &mut Vec<u8>,
    names: &[Name],
    decls: &Decls,
    entries: &[Entry],
) -> Result<(), AllocError>
    ensures { OnOk result (out.new.items ≡ out.old.items ++ concat (entry_lines names.now decls.now 1 entries.now)) }
{
    let mut rest = entries;
    let mut number = 0;
    let mut leads = Leads {
        numbers: Lead::new(),
        ids: Lead::new(),
    };
    let mut fronts = Fronts::new(alloc);
    while let Some((first, more)) = rest.split_first() {
        number += 1;
        entry_line(out, names, decls, &mut leads, &mut fronts, number, first)?;
        rest = more;
    }
    Ok(())
}

/// Appends the lines of ends.
fn endings(out: &mut Vec<u8>, names: &[Name], ends: &[(u32, End, u32)]) -> Result<(), AllocError>
    ensures { OnOk result (out.new.items ≡ out.old.items ++ concat (end_lines names.now ends.now)) }
{
    let mut rest = ends;
    while let Some((first, more)) = rest.split_first() {
        ending_line(out, names, first)?;
        rest = more;
    }
    Ok(())
}

/// The report of these entries and ends, which is also written where a number names nothing. Its only error is want
/// of memory.
pub fn report(
    alloc: Global,
    names: &[Name],
    decls: &Decls,
    budget: u32,
    order: Order,
    entries: &[Entry],
    ends: &[(u32, End, u32)],
) -> Result<Vec<u8>, AllocError>
    ensures { IfOk result (λ text. text.items ≡ report_of names.now decls.now budget order entries.now ends.now) }
{
    let mut out = Vec::new(alloc);
    head_line(&mut out, budget, order)?;
    all_entries(alloc, &mut out, names, decls, entries)?;
    endings(&mut out, names, ends)?;
    Ok(out)
}
