//! The reader of trees.

ghost use Rattle.std.specs.Prelude.{◌≡◌, ◌+◌, ◌<◌, ◌≤◌, ◌∷◌, length, true, IfOk, IfErr, MatchBool};
ghost use Rattle.dl_tree.specs.declared.tree.Place.{Place};
ghost use Rattle.dl_tree.specs.declared.tree.Tree.{Tree};
ghost use Rattle.dl_tree.specs.Text.{begins_run, tokens_of, end_of};
ghost use Rattle.dl_tree.specs.Lexeme.{token_of, IsLexeme, IsPart};
ghost use Rattle.dl_tree.specs.Word.{is_symbol};
ghost use Rattle.dl_tree.specs.Faults.{first_fault, fault_of, IsFault, Reads};
ghost use Rattle.dl_tree.specs.Spelling.{Spells};
ghost use Rattle.dl_tree.specs.Parts.{ReadsPart, ReadsItems, IsFirst, IsLeaf, IsFirstAtWord, IsOutside, IsOneList};
ghost use Rattle.dl_tree.specs.declared.reader.TreeFault.TheVariants.{Memory};

use crate::cursor::{Cursor, Lexeme, bad_byte};
use crate::tree::{Name, Place, Tree};
use crate::word::{Reading, is_good, reading_of};
use sqlite_items::Items;
use std::alloc::{AllocError, Global};

/// Why no tree is read.
///
/// Rule 1 is a byte outside comments that may not stand there, 2 a token that is no parenthesis,
/// number or symbol, 3 the end of a text whose one list isn't closed, 4 a token outside the one list,
/// 5 a `(` inside 200 open lists, 6 a number outside `i64`.
#[derive(Clone, Copy, Debug, Drop, PartialEq, Eq)]
pub enum TreeFault {
    /// The text's first fault. That is the first byte of rule 1, or else the earliest place of the
    /// other rules, and at one place the smallest of them.
    At {
        /// The rule, from 1 to 6.
        rule: u8,
        /// Where it is broken.
        place: Place,
    },
    /// There was no memory for the tree.
    Memory,
}

impl From<AllocError> for TreeFault {
    ghost from_gives = { λ _ e. e ≡ Memory };

    fn from(_e: AllocError) -> TreeFault {
        TreeFault::Memory
    }
}

/// How many lists may stand inside one another.
const MAX_DEPTH: u32 = 200;

/// The name that a symbol is.
fn name_of(alloc: Global, symbol: &[u8]) -> Result<Name, AllocError>
    requires { is_symbol symbol.now ≡ true }
    ensures { IfOk result (λ name. name ≡ symbol.now) }
{
    match str::from_utf8(symbol) {
        Ok(text) => Name::new(alloc, text),
        Err(_) => unreachable!(),
    }
}

/// The number or the symbol that a word inside a list is.
fn leaf(alloc: Global, word: &[u8], place: Place) -> Result<Tree, TreeFault>
    requires { begins_run word.now ≡ true }
    ensures leaf { IfOk result (λ tree. IsLeaf word.now place tree) }
    ensures fault { IfErr result (λ fault. IsFirstAtWord word.now place fault) }
{
    match reading_of(word) {
        Reading::Number(value) => Ok(Tree::Num { value, place }),
        Reading::TooBig => Err(TreeFault::At { rule: 6, place }),
        Reading::Symbol => Ok(Tree::Sym {
            name: name_of(alloc, word)?,
            place,
        }),
        Reading::Other => Err(TreeFault::At { rule: 2, place }),
    }
}

fn is_close(lexeme: &Lexeme<'_>) -> bool
    ensures { MatchBool result (lexeme.now ≡ Lexeme.Close) (IsPart lexeme.now) }
{
    matches!(lexeme, Lexeme::Close)
}

/// The part of a list that begins with this token, inside so many open lists.
#[cycle(reader)]
fn part(
    alloc: Global,
    cursor: &mut Cursor<'_>,
    depth: u32,
    lexeme: Lexeme<'_>,
    place: Place,
) -> Result<Tree, TreeFault>
    requires begins { IsPart lexeme × IsLexeme lexeme }
    requires inside { 0 < depth }
    requires shallow { depth ≤ 200 }
    ensures part { IfOk result (λ tree. ReadsPart depth (token_of lexeme.entry place ∷ tokens_of cursor.old) (tokens_of cursor.new) tree) }
    ensures fault { IfErr result (λ fault. IsFirst depth (token_of lexeme.entry place ∷ tokens_of cursor.old) (end_of cursor.old) fault) }
    ensures end { IfOk result (λ _. end_of cursor.new ≡ end_of cursor.old) }
    ensures no_longer { IfOk result (λ _. length cursor.new.bytes ≤ length cursor.old.bytes) }
{
    match lexeme {
        Lexeme::Word(word) => leaf(alloc, word, place),
        Lexeme::Open if depth < MAX_DEPTH => {
            let items = items(alloc, cursor, depth + 1)?;
            Ok(Tree::List { items, place })
        }
        Lexeme::Open => Err(TreeFault::At { rule: 5, place }),
        Lexeme::Close => unreachable!(),
    }
}

/// The parts of an open list, up to its `)`.
#[cycle(reader)]
fn items(alloc: Global, cursor: &mut Cursor<'_>, depth: u32) -> Result<Items<Tree>, TreeFault>
    requires inside { 0 < depth }
    requires shallow { depth ≤ 200 }
    ensures items { IfOk result (λ items. ReadsItems depth (tokens_of cursor.old) (tokens_of cursor.new) items) }
    ensures fault { IfErr result (λ fault. IsFirst depth (tokens_of cursor.old) (end_of cursor.old) fault) }
    ensures end { IfOk result (λ _. end_of cursor.new ≡ end_of cursor.old) }
    ensures no_longer { IfOk result (λ _. length cursor.new.bytes ≤ length cursor.old.bytes) }
{
    let mut items = Items::new(alloc);
    while let Some((lexeme, place)) = cursor.next() {
        if is_close(&lexeme) {
            return Ok(items);
        }
        let part = part(alloc, cursor, depth, lexeme, place)?;
        items.push(part)?;
    }
    Err(TreeFault::At {
        rule: 3,
        place: cursor.place(),
    })
}

/// The fault of a token outside the one list.
fn outside(lexeme: Lexeme<'_>, place: Place) -> TreeFault
    requires { IsLexeme lexeme }
    ensures { IsOutside lexeme.entry place result }
{
    match lexeme {
        Lexeme::Word(word) => {
            if is_good(word) {
                TreeFault::At { rule: 4, place }
            } else {
                TreeFault::At { rule: 2, place }
            }
        }
        _ => TreeFault::At { rule: 4, place },
    }
}

/// The one list that the tokens spell.
fn one_list(alloc: Global, cursor: &mut Cursor<'_>) -> Result<Tree, TreeFault>
    ensures tree { IfOk result (λ tree. IsOneList (tokens_of cursor.old) tree) }
    ensures fault { IfErr result (λ fault. IsFault (first_fault true 0 (tokens_of cursor.old) (end_of cursor.old)) fault) }
{
    let Some((lexeme, place)) = cursor.next() else {
        return Err(TreeFault::At {
            rule: 3,
            place: cursor.place(),
        });
    };
    match lexeme {
        Lexeme::Open => {
            let items = items(alloc, cursor, 1)?;
            match cursor.next() {
                None => Ok(Tree::List { items, place }),
                Some((lexeme, place)) => Err(outside(lexeme, place)),
            }
        }
        other => Err(outside(other, place)),
    }
}

/// The tree that the text spells, or the text's first fault.
fn read(alloc: Global, bytes: &[u8]) -> Result<Tree, TreeFault>
    requires { length bytes.now < 4294967295 }
    ensures tree { IfOk result (Spells bytes.now) }
    ensures fault { IfErr result (IsFault (fault_of bytes.now)) }
{
    if let Some(place) = bad_byte(bytes) {
        return Err(TreeFault::At { rule: 1, place });
    }
    one_list(alloc, &mut Cursor::new(bytes))
}

/// The tree that the text spells, each part with the place of its first byte. No more than 200
/// lists are read inside one another, and a text that spells a tree spells only that one.
///
/// `TreeFault::At` comes exactly where the text spells no tree, and is the text's first fault.
pub fn read_tree(alloc: Global, bytes: &[u8]) -> Result<Tree, TreeFault>
    requires { length bytes.now < 4294967295 }
    // What is read is spelled so.
    ensures tree { IfOk result (Spells bytes.now) }
    // A refusal is the first fault.
    ensures fault { IfErr result (IsFault (fault_of bytes.now)) }
    // Where some tree is spelled, it is that one, unless memory runs out.
    ensures only { (tree : Tree) → Spells bytes.now tree → Reads tree result }
{
    read(alloc, bytes)
}
