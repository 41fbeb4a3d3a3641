//! The layout of a tree.

ghost use Rattle.std.specs.Prelude.{◌≡◌, true, ◌++◌, ◌&&◌, ◌<◌, length, IfOk, OnOk};
ghost use Rattle.std.specs.Bool.{OnTrue};
ghost use Rattle.std.specs.Fmt.{signed_decimal};
ghost use Rattle.dl_tree.specs.Layout.{one_line, layout, is_head, is_version, SpellsAgain};
ghost use Rattle.dl_tree.specs.Lines.{line_of, space_before, item_lines_of, file_of, is_file_of, list_of};

use crate::tree::Tree;
use std::alloc::{AllocError, Global};

/// Writes a number in decimal.
fn number(alloc: Global, out: &mut Vec<u8>, value: i64) -> Result<(), AllocError>
    ensures { OnOk result (out.new.items ≡ out.old.items ++ signed_decimal value) }
{
    let text = format!(in alloc; "{value}")?;
    out.extend_from_slice(text.as_str().as_bytes())
}

/// Writes a tree on one line.
#[cycle(writer)]
fn line(alloc: Global, out: &mut Vec<u8>, tree: &Tree) -> Result<(), AllocError>
    ensures { OnOk result (out.new.items ≡ out.old.items ++ one_line tree.now) }
{
    match tree {
        Tree::Num { value, .. } => number(alloc, out, *value),
        Tree::Sym { name, .. } => out.extend_from_slice(name.as_str().as_bytes()),
        Tree::List { items, .. } => {
            out.push(b'(')?;
            parts(alloc, out, items.as_slice())?;
            out.push(b')')?;
            Ok(())
        }
    }
}

/// Writes a space before each part but the first.
fn space(out: &mut Vec<u8>, first: bool) -> Result<(), AllocError>
    ensures { OnOk result (out.new.items ≡ out.old.items ++ space_before first) }
{
    if first {
        return Ok(());
    }
    out.push(b' ')?;
    Ok(())
}

/// Writes parts with a space between two of them.
#[cycle(writer)]
fn parts(alloc: Global, out: &mut Vec<u8>, items: &[Tree]) -> Result<(), AllocError>
    ensures { OnOk result (out.new.items ≡ out.old.items ++ line_of true items.now) }
{
    let mut first = true;
    for item in items {
        space(out, first)?;
        line(alloc, out, item)?;
        first = false;
    }
    Ok(())
}

/// Whether a tree is the word that begins a file.
fn is_head(tree: &Tree) -> bool
    ensures { result ≡ is_head tree.now }
{
    match tree {
        Tree::Sym { name, .. } => name.as_str() == "disel",
        _ => false,
    }
}

/// Whether a tree is a version of the notation.
fn is_version(tree: &Tree) -> bool
    ensures { result ≡ is_version tree.now }
{
    match tree {
        Tree::Num { value, .. } => *value == 1,
        _ => false,
    }
}

/// Writes items, each on a line of its own.
fn item_lines(alloc: Global, out: &mut Vec<u8>, items: &[Tree]) -> Result<(), AllocError>
    ensures { OnOk result (out.new.items ≡ out.old.items ++ item_lines_of items.now) }
{
    for item in items {
        out.extend_from_slice(b"  ")?;
        line(alloc, out, item)?;
        out.push(b'\n')?;
    }
    Ok(())
}

/// Writes a file of this head and version with these items.
fn file(
    alloc: Global,
    out: &mut Vec<u8>,
    head: &Tree,
    version: &Tree,
    items: &[Tree],
) -> Result<(), AllocError>
    ensures { OnOk result (out.new.items ≡ out.old.items ++ file_of head.now version.now items.now) }
{
    out.push(b'(')?;
    line(alloc, out, head)?;
    out.push(b' ')?;
    line(alloc, out, version)?;
    out.push(b'\n')?;
    item_lines(alloc, out, items)?;
    out.extend_from_slice(b")\n")
}

/// Whether a list of these parts is laid out as a file.
fn is_file(items: &[Tree]) -> bool
    ensures value { result ≡ is_file_of items.now }
    ensures parts { OnTrue result (2 < length items.now) }
{
    items.len() > 2 && is_head(&items[0]) && is_version(&items[1])
}

/// Writes a whole list of these parts.
fn list(alloc: Global, out: &mut Vec<u8>, items: &[Tree]) -> Result<(), AllocError>
    ensures { OnOk result (out.new.items ≡ out.old.items ++ list_of items.now) }
{
    if is_file(items) {
        return file(alloc, out, &items[0], &items[1], &items[2..]);
    }
    out.push(b'(')?;
    parts(alloc, out, items)?;
    out.push(b')')?;
    Ok(())
}

/// Writes a whole tree.
fn whole(alloc: Global, out: &mut Vec<u8>, tree: &Tree) -> Result<(), AllocError>
    ensures { OnOk result (out.new.items ≡ out.old.items ++ layout tree.now) }
{
    match tree {
        Tree::List { items, .. } => list(alloc, out, items.as_slice()),
        _ => line(alloc, out, tree),
    }
}

/// The one layout of the tree.
fn write(alloc: Global, tree: &Tree) -> Result<Vec<u8>, AllocError>
    ensures { IfOk result (λ text. text.items ≡ layout tree.now) }
{
    let mut out = Vec::new(alloc);
    whole(alloc, &mut out, tree)?;
    Ok(out)
}

/// The one layout of the tree: a file's, with each item on a line of its own, where the tree is a
/// list of `disel`, a version and further parts, and otherwise one line without LF, with one space
/// between parts. Want of memory is its only error.
pub fn write_tree(alloc: Global, tree: &Tree) -> Result<Vec<u8>, AllocError>
    ensures layout { IfOk result (λ text. text.items ≡ layout tree.now) }
    // Where some text spells the tree, the layout spells it too, places aside.
    ensures spells { IfOk result (λ text. SpellsAgain text.items tree.now) }
{
    write(alloc, tree)
}
