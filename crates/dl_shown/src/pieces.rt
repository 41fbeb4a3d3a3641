//! The smallest parts of a tree without places.

ghost use Rattle.std.specs.Prelude.{◌≡◌, ◌≤◌, ◌∷◌, ◌++◌, [], map, length, pos, IfOk, OnOk};
ghost use Rattle.dl_forms.specs.Show.{symbol, number};
ghost use Rattle.dl_shown.specs.Shown.{listed, name_of, range_of, argument_of};

use dl_forms::Names;
use dl_term::Sort;
use dl_tree::{Name, Place, Tree};
use sqlite_items::Items;
use std::alloc::{AllocError, Global};

const NO_PLACE: Place = Place { line: 0, col: 0 };

/// A symbol of this text. Its only error is want of memory.
pub fn symbol(alloc: Global, text: &str) -> Result<Tree, AllocError>
    requires { length text.now ≤ 64 }
    ensures { IfOk result (λ tree. tree ≡ symbol text.now) }
{
    Ok(Tree::Sym {
        name: Name::new(alloc, text)?,
        place: NO_PLACE,
    })
}

/// A number.
pub fn number(value: i64) -> Tree
    ensures { result ≡ number value }
{
    Tree::Num {
        value,
        place: NO_PLACE,
    }
}

/// The number of something that is counted.
pub(crate) fn count(value: u32) -> Tree
    ensures { result ≡ number (pos value) }
{
    number(i64::from(value))
}

/// A symbol without text for a number that names nothing.
pub(crate) fn nothing(alloc: Global) -> Result<Tree, AllocError>
    ensures { IfOk result (λ tree. tree ≡ symbol []) }
{
    symbol(alloc, "")
}

pub(crate) fn name(alloc: Global, names: &Names, sym: u32) -> Result<Tree, AllocError>
    ensures { IfOk result (λ tree. tree ≡ name_of names.now sym) }
{
    match names.text(sym) {
        Some(text) => Ok(Tree::Sym {
            name: text.copy(alloc)?,
            place: NO_PLACE,
        }),
        None => nothing(alloc),
    }
}

/// The parts of a form, of which the word alone stands there. Its only error is want of memory.
pub fn begin(alloc: Global, word: &str) -> Result<Items<Tree>, AllocError>
    requires { length word.now ≤ 64 }
    ensures { IfOk result (λ parts. parts ≡ symbol word.now ∷ []) }
{
    let mut parts = Items::new(alloc);
    parts.push(symbol(alloc, word)?)?;
    Ok(parts)
}

/// The list of these parts.
pub fn list(parts: Items<Tree>) -> Tree
    ensures { result ≡ listed parts }
{
    Tree::List {
        items: parts,
        place: NO_PLACE,
    }
}

/// Adds names behind the parts that are there.
pub(crate) fn add_names(
    alloc: Global,
    names: &Names,
    syms: &[u32],
    parts: &mut Items<Tree>,
) -> Result<(), AllocError>
    ensures { OnOk result (parts.new ≡ parts.old ++ map (name_of names.now) syms.now) }
{
    for sym in syms {
        parts.push(name(alloc, names, *sym)?)?;
    }
    Ok(())
}

/// A list of names.
pub(crate) fn name_list(alloc: Global, names: &Names, syms: &[u32]) -> Result<Tree, AllocError>
    ensures { IfOk result (λ tree. tree ≡ listed (map (name_of names.now) syms.now)) }
{
    let mut parts = Items::new(alloc);
    add_names(alloc, names, syms, &mut parts)?;
    Ok(list(parts))
}

/// A sort in a sort's position. Its only error is want of memory.
pub fn range(alloc: Global, sort: Sort) -> Result<Tree, AllocError>
    ensures { IfOk result (λ tree. tree ≡ range_of sort) }
{
    let mut parts = begin(alloc, "range")?;
    parts.push(number(sort.low))?;
    parts.push(number(sort.high))?;
    Ok(list(parts))
}

/// A name with its sort.
fn argument(alloc: Global, names: &Names, argument: &(u32, Sort)) -> Result<Tree, AllocError>
    ensures { IfOk result (λ tree. tree ≡ argument_of names.now argument.now) }
{
    let (sym, sort) = *argument;
    let mut parts = Items::new(alloc);
    parts.push(name(alloc, names, sym)?)?;
    parts.push(range(alloc, sort)?)?;
    Ok(list(parts))
}

/// The list of names with their sorts.
pub(crate) fn arguments(
    alloc: Global,
    names: &Names,
    args: &[(u32, Sort)],
) -> Result<Tree, AllocError>
    ensures { IfOk result (λ tree. tree ≡ listed (map (argument_of names.now) args.now)) }
{
    let mut parts = Items::new(alloc);
    for arg in args {
        parts.push(argument(alloc, names, arg)?)?;
    }
    Ok(list(parts))
}
