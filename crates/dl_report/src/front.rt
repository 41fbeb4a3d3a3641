//! The fronts of lines, from the node to the arrow, kept from line to line.
//!
//! A program in a loop makes the same calls again and again, so most fronts were written a few lines above.

ghost use Rattle.std.specs.Prelude.{◌≡◌, ◌++◌, ◌∷◌, [], List, codes, decimal, true, IfSome, OnOk, IsTrue};
ghost use Rattle.dl_model.specs.declared.file.Decls.{Decls as AllDecls};
ghost use Rattle.dl_report.specs.Kept.{said_words, front_words, IsKept, AreKept};
ghost use Rattle.dl_report.specs.Layout.{Text, node_word, call_words};
ghost use Rattle.dl_report.specs.Spaced.{spaced};

use crate::append::{natural, text};
use crate::write::{addressee, node, plain_front, tagged};
use dl_model::{Call, Decls, Entry};
use dl_tree::Name;
use std::alloc::{AllocError, Global};

/// What a front says: the node, its ticks, and an await or a send without arguments.
#[derive(Clone, Copy)]
pub(crate) struct Said {
    node: u32,
    ticks: u32,
    waits: bool,
    label: u8,
    tag: u8,
    to: i64,
}

/// A front whose text is kept, once it is known.
#[derive(Drop)]
pub(crate) struct Front {
    known: bool,
    said: Said,
    text: Vec<u8>,
}

/// The last fronts of sends and of awaits, by nodes with even and odd numbers.
#[derive(Drop)]
pub(crate) struct Fronts {
    even_sends: Front,
    odd_sends: Front,
    even_waits: Front,
    odd_waits: Front,
}

impl Front {
    /// One that isn't known yet.
    fn new(alloc: Global) -> Front
        ensures { (names : List Text) (decls : AllDecls) → IsKept names decls result }
    {
        Front {
            known: false,
            said: Said {
                node: 0,
                ticks: 0,
                waits: false,
                label: 0,
                tag: 0,
                to: 0,
            },
            text: Vec::new(alloc),
        }
    }
}

impl Fronts {
    /// None is known yet.
    pub(crate) fn new(alloc: Global) -> Fronts
        ensures { (names : List Text) (decls : AllDecls) → AreKept names decls result }
    {
        Fronts {
            even_sends: Front::new(alloc),
            odd_sends: Front::new(alloc),
            even_waits: Front::new(alloc),
            odd_waits: Front::new(alloc),
        }
    }
}

/// What the front of an entry says, where it is a send without arguments or an await.
#[inline(always)]
fn front_said(entry: &Entry) -> Option<Said>
    ensures { IfSome result (λ said. (names : List Text) (decls : AllDecls) → front_words names decls said ≡ node_word names entry.now.node ∷ decimal entry.now.ticks ∷ (call_words names decls entry.now.call ++ (codes "->" ∷ []))) }
{
    let node = entry.node;
    let ticks = entry.ticks;
    match &entry.call {
        Call::Send {
            label,
            tag,
            to,
            args,
        } => {
            if args.count != 0 {
                return None;
            }
            Some(Said {
                node,
                ticks,
                waits: false,
                label: *label,
                tag: *tag,
                to: *to,
            })
        }
        Call::Await { label, tag } => Some(Said {
            node,
            ticks,
            waits: true,
            label: *label,
            tag: *tag,
            to: 0,
        }),
        Call::Poll { label: _, tag: _ } => None,
        Call::Read {
            label: _,
            field: _,
            index: _,
        } => None,
    }
}

/// Whether this is what a kept front says.
#[inline(always)]
#[tactic(auto, using(crate::proofs::Kept::same_said))]
fn is_said(front: &Front, said: &Said) -> bool
    ensures { IsTrue result → (front.now.known ≡ true) × (front.now.said ≡ said.now) }
{
    front.known
        && front.said.node == said.node
        && front.said.ticks == said.ticks
        && front.said.waits == said.waits
        && front.said.label == said.label
        && front.said.tag == said.tag
        && front.said.to == said.to
}

/// Appends the call of a front, and the arrow.
fn act(out: &mut Vec<u8>, names: &[Name], decls: &Decls, said: &Said) -> Result<(), AllocError>
    ensures { OnOk result (out.new.items ≡ out.old.items ++ spaced (said_words names.now decls.now said.now)) }
{
    if said.waits {
        tagged(out, names, decls, b" await", said.label, said.tag)?;
        return text(out, b" ->");
    }
    tagged(out, names, decls, b" send", said.label, said.tag)?;
    addressee(out, names, decls, &said.to)?;
    text(out, b" ->")
}

/// Appends a front that is not kept.
fn fresh(out: &mut Vec<u8>, names: &[Name], decls: &Decls, said: &Said) -> Result<(), AllocError>
    ensures { OnOk result (out.new.items ≡ out.old.items ++ spaced (front_words names.now decls.now said.now)) }
{
    node(out, names, said.node)?;
    natural(out, said.ticks as u64)?;
    act(out, names, decls, said)
}

/// Keeps a front.
fn keep(front: &mut Front, said: &Said, piece: &[u8]) -> Result<(), AllocError>
    ensures { OnOk result ((front.new.said ≡ said.now) × (front.new.text.items ≡ piece.now)) }
{
    front.known = true;
    front.said = *said;
    front.text.clear();
    text(&mut front.text, piece)
}

/// Appends a front, which is kept from now on.
#[inline(never)]
fn renew(
    out: &mut Vec<u8>,
    names: &[Name],
    decls: &Decls,
    front: &mut Front,
    said: Said,
) -> Result<(), AllocError>
    ensures { OnOk result ((out.new.items ≡ out.old.items ++ spaced (front_words names.now decls.now said)) × IsKept names.now decls.now front.new) }
{
    let start = out.len();
    fresh(out, names, decls, &said)?;
    keep(front, &said, &out[start..])
}

/// Appends a front, by its text where that is kept.
#[inline(always)]
fn append(
    out: &mut Vec<u8>,
    names: &[Name],
    decls: &Decls,
    front: &mut Front,
    said: &Said,
) -> Result<(), AllocError>
    requires { IsKept names.now decls.now front.old }
    ensures { OnOk result ((out.new.items ≡ out.old.items ++ spaced (front_words names.now decls.now said.now)) × IsKept names.now decls.now front.new) }
{
    if is_said(front, said) {
        return text(out, front.text.as_slice());
    }
    renew(out, names, decls, front, *said)
}

/// Appends a front, by one of the four that are kept.
#[inline(always)]
fn by_kept(
    out: &mut Vec<u8>,
    names: &[Name],
    decls: &Decls,
    fronts: &mut Fronts,
    said: &Said,
) -> Result<(), AllocError>
    requires { AreKept names.now decls.now fronts.old }
    ensures { OnOk result ((out.new.items ≡ out.old.items ++ spaced (front_words names.now decls.now said.now)) × AreKept names.now decls.now fronts.new) }
{
    match (said.waits, said.node % 2 == 0) {
        (false, true) => append(out, names, decls, &mut fronts.even_sends, said),
        (false, false) => append(out, names, decls, &mut fronts.odd_sends, said),
        (true, true) => append(out, names, decls, &mut fronts.even_waits, said),
        (true, false) => append(out, names, decls, &mut fronts.odd_waits, said),
    }
}

/// Appends the front of an entry's line.
#[inline(always)]
pub(crate) fn entry_front(
    out: &mut Vec<u8>,
    names: &[Name],
    decls: &Decls,
    fronts: &mut Fronts,
    entry: &Entry,
) -> Result<(), AllocError>
    requires { AreKept names.now decls.now fronts.old }
    ensures { OnOk result ((out.new.items ≡ out.old.items ++ spaced (node_word names.now entry.now.node ∷ decimal entry.now.ticks ∷ (call_words names.now decls.now entry.now.call ++ (codes "->" ∷ [])))) × AreKept names.now decls.now fronts.new) }
{
    match front_said(entry) {
        Some(said) => by_kept(out, names, decls, fronts, &said),
        None => plain_front(out, names, decls, entry),
    }
}
