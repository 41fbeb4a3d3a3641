//! Lists of texts.

ghost use Rattle.std.specs.Prelude.{◌≡◌, ◌++◌, ◌∷◌, [], ◌||◌, OnOk};
ghost use Rattle.std.specs.Option.{option_copied};
ghost use Rattle.dl_forms.specs.Context.{is_among, look_up};
ghost use Rattle.dl_forms.specs.Judge.{text_of};
ghost use Rattle.dl_forms.specs.Table.{reserved};
ghost use Rattle.dl_notation.specs.Behind.{with_text};

use crate::text::Text;
use dl_tree::Tree;
use indexmap::IndexSet;
use sqlite_items::Items;
use std::alloc::{AllocError, Global};
use std::mem;

/// The text of a symbol, or no text.
pub fn text_of<'a>(tree: &'a Tree) -> Text<'a>
    ensures { result ≡ text_of tree.now }
{
    match tree {
        Tree::Sym { name, .. } => Text::new(name.as_str()),
        Tree::Num { .. } => Text::new(""),
        Tree::List { .. } => Text::new(""),
    }
}

/// Whether the text is one of these.
pub fn is_among<'a>(text: &Text<'a>, texts: &[Text<'a>]) -> bool
    ensures { result ≡ is_among text.now texts.now }
{
    for other in texts {
        if text == other {
            return true;
        }
    }
    false
}

/// What stands beside the first equal text.
pub fn look_up<'x, 'a, V>(text: &Text<'a>, entries: &'x [(Text<'a>, V)]) -> Option<&'x V>
    ensures { option_copied result ≡ look_up text.now entries.now }
{
    for entry in entries {
        if *text == entry.0 {
            return Some(&entry.1);
        }
    }
    None
}

/// Whether the text is one that no file declares.
#[tactic(auto, unfolding(dl_forms::specs::Table::reserved))]
pub fn is_reserved(text: &Text) -> bool
    ensures { result ≡ is_among text.now reserved }
{
    text.is(b"int")
        || text.is(b"bool")
        || text.is(b"node")
        || text.is(b"self")
        || text.is(b"me")
        || text.is(b"to")
        || text.is(b"from")
        || text.is(b"result")
        || text.is(b"goal")
        || text.is(b"pre")
        || text.is(b"guard")
        || text.is(b"fits")
        || text.is(b"hooks")
        || text.is(b"mine")
        || text.is(b"other")
        || text.is(b"test")
        || text.is(b"post")
        || text.is(b"frame")
}

/// Adds texts behind those that are there. Its only error is want of memory.
pub fn add_all<'a>(texts: &mut Items<Text<'a>>, more: &[Text<'a>]) -> Result<(), AllocError>
    ensures { OnOk result (texts.new ≡ texts.old ++ more.now) }
{
    for text in more {
        texts.push(text.copy())?;
    }
    Ok(())
}

/// Takes all texts away.
pub fn clear<'a>(alloc: Global, texts: &mut Items<Text<'a>>)
    ensures { texts.new ≡ [] }
{
    let mut old = Items::new(alloc);
    mem::swap(texts, &mut old);
    drop(old);
}

/// Adds a text, where it isn't there already. Its only error is want of memory.
pub fn add<'a>(texts: &mut IndexSet<Text<'a>>, text: Text<'a>) -> Result<(), AllocError>
    ensures { OnOk result (texts.new.keys ≡ with_text texts.old.keys text.entry) }
{
    match texts.insert(text) {
        Ok(_) => Ok(()),
        Err(_) => Err(AllocError),
    }
}

/// Adds a text that isn't there. Its only error is want of memory, which it also answers for a text that is
/// there.
pub fn add_new<'a>(texts: &mut IndexSet<Text<'a>>, text: Text<'a>) -> Result<(), AllocError>
    ensures { OnOk result (texts.new.keys ≡ texts.old.keys ++ text.entry ∷ []) }
{
    match texts.insert(text) {
        Ok(is_new) => { if is_new { Ok(()) } else { Err(AllocError) } }
        Err(_) => Err(AllocError),
    }
}
