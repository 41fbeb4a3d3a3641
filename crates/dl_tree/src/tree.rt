//! A tree of numbers, symbols and lists, each with its place in a text.

ghost use Rattle.std.specs.Prelude.{◌≡◌, ◌≤◌, ◌↔◌, length, IsTrue, IfOk};
ghost use Rattle.std.specs.Cmp.{partial_equiv_from_equiv};
ghost use Rattle.std.specs.Cmp.Rules.{hashing};
ghost use Rattle.std.specs.Hash as fed;
ghost use Rattle.std.specs.Str.{bytes_eq};
ghost use Rattle.std.proofs.Common.{rules};
ghost use Rattle.std.proofs.lemmas.Cmp.{nat_list_eq_equiv};

use sqlite_items::Items;
use std::alloc::{AllocError, Global};
use std::hash::{Hash, Hasher};
use std::marker::Model;

/// Where a byte of a text stands.
#[derive(Clone, Copy, Debug, Drop, PartialEq, Eq)]
pub struct Place {
    /// One more than the LF bytes before it.
    pub line: u32,
    /// One more than the bytes since the last LF.
    pub col: u32,
}

/// The text of a symbol, of at most 64 bytes. Contracts see it as the list of its bytes.
#[derive(Debug, Drop)]
pub struct Name {
    text: String,
}

impl Model for Name {
    ghost use Rattle.std.specs.Prelude.{List, ℕ, length, ◌≤◌, string_bytes};

    ghost Value = { List ℕ };

    ghost view = { λ n. string_bytes n.text };

    ghost invariant = { λ n. length (string_bytes n.text) ≤ 64 };
}

impl Name {
    /// The name of this text. Its only error is want of memory.
    pub fn new(alloc: Global, text: &str) -> Result<Name, AllocError>
        requires { length text.now ≤ 64 }
        ensures { IfOk result (λ name. name ≡ text.now) }
    {
        Ok(Name {
            text: String::from_str(alloc, text)?,
        })
    }

    /// A name equal to this one. Its only error is want of memory.
    pub fn copy(&self, alloc: Global) -> Result<Name, AllocError>
        ensures { IfOk result (λ copy. copy ≡ self.now) }
    {
        Name::new(alloc, self.text.as_str())
    }

    /// The name's text.
    pub fn as_str(&self) -> &str
        ensures text { result.now ≡ self.now }
        ensures short { length result.now ≤ 64 }
    {
        self.text.as_str()
    }
}

impl PartialEq for Name {
    ghost eq = { bytes_eq };

    ghost laws = { partial_equiv_from_equiv nat_list_eq_equiv };

    /// Whether two names have the same bytes.
    fn eq(&self, other: &Name) -> bool
        ensures value { result ≡ bytes_eq self.now other.now }
        ensures same { IsTrue result ↔ (self.now ≡ other.now) }
    {
        self.text == other.text
    }
}

impl Eq for Name {
    ghost laws = { nat_list_eq_equiv };
}

impl Hash for Name {
    ghost hash_input = { λ name. fed.str name };

    ghost respects_eq = { Prim.search (hashing, rules) };

    /// Feeds the name's text.
    fn hash<H: Hasher>(&self, state: &mut H) {
        self.as_str().hash(state);
    }
}

/// What a text spells: a number, a symbol, or a list of such trees.
#[derive(Debug, Drop)]
pub enum Tree {
    /// A whole number.
    Num {
        /// The number.
        value: i64,
        /// The place of its first byte.
        place: Place,
    },
    /// A symbol.
    Sym {
        /// Its text.
        name: Name,
        /// The place of its first byte.
        place: Place,
    },
    /// A list.
    List {
        /// The parts, in their order.
        items: Items<Tree>,
        /// The place of its `(`.
        place: Place,
    },
}

impl Tree {
    ghost use Rattle.dl_tree.specs.TreePlace.{place_of};

    /// The place of the tree's first byte.
    pub fn place(&self) -> Place
        ensures { result ≡ place_of self.now }
    {
        match self {
            Tree::Num { place, .. } => *place,
            Tree::Sym { place, .. } => *place,
            Tree::List { place, .. } => *place,
        }
    }
}
