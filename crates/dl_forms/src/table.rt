//! The names of a file and their numbers.

ghost use Rattle.std.specs.Prelude.{◌≡◌, ◌+◌, ◌<◌, ◌≤◌, ◌^◌, All, false, map, Some, IfOk, IfSome, OnOk, OnErr, length, slice_get, position};
ghost use Rattle.std.specs.List.{list_any, IsDistinct};
ghost use Rattle.std.specs.Str.{bytes_eq};
ghost use Rattle.std.specs.Option.{option_copied};
ghost use Rattle.dl_forms.specs.Scope.{text_at};
ghost use Rattle.dl_forms.specs.Table.{Extends, first_names, no_names, with_name, numbered, with_sort, with_mark, is_marked};

use crate::scope::{Marks, SortDecl};
use dl_tree::Name;
use indexmap::IndexSet;
use sqlite_items::Items;
use std::alloc::{AllocError, Global};
use std::marker::Model;

/// The words that no file declares, in the order of their numbers.
const RESERVED: [&str; 18] = [
    "int", "bool", "node", "self", "me", "to", "from", "result", "goal", "pre", "guard", "fits",
    "hooks", "mine", "other", "test", "post", "frame",
];

/// How many names have a number at most.
const MOST_NAMES: usize = 4_294_967_295;

/// The names of a file, the sorts that it declares, and what was noted of each name.
///
/// The reserved words have the numbers 0 to 17. Each other name has the next number when it is
/// numbered for the first time.
#[derive(Drop)]
pub struct Names {
    texts: IndexSet<Name>,
    sorts: Items<SortDecl>,
    marks: Items<Marks>,
}

impl Model for Names {
    ghost use Rattle.std.specs.Prelude.{◌≡◌, ◌<◌, ◌^◌, length};
    ghost use Rattle.std.specs.List.{IsDistinct};
    ghost use Rattle.std.specs.Str.{bytes_eq};
    ghost use Rattle.dl_forms.specs.Table.{NameTable};

    ghost Value = { NameTable };

    ghost view = { λ n. record { texts = n.texts.keys; sorts = n.sorts; marks = n.marks } };

    ghost invariant = { λ n. (length n.marks ≡ length n.texts.keys) × IsDistinct bytes_eq n.texts.keys × (length n.texts.keys < 2 ^ 32) };
}

impl Names {
    /// The reserved words alone, with no sort and no mark. Its only error is want of memory.
    #[tactic(auto, unfolding(crate::specs::Table::reserved))]
    pub fn make(alloc: Global) -> Result<Names, AllocError>
        ensures { IfOk result (λ names. names ≡ first_names) }
    {
        let mut names = Names::empty(alloc);
        names.number_all(alloc, &RESERVED)?;
        Ok(names)
    }

    /// Numbers words, one after another.
    fn number_all(&mut self, alloc: Global, words: &[&str]) -> Result<(), AllocError>
        requires { All (λ word. length word.now ≤ 64) words.now }
        ensures { OnOk result (self.new ≡ numbered self.old (map (λ word. word.now) words.now)) }
    {
        for word in words {
            let name = Name::new(alloc, word)?;
            self.number(alloc, &name)?;
        }
        Ok(())
    }

    fn empty(alloc: Global) -> Names
        ensures { result ≡ no_names }
    {
        Names {
            texts: IndexSet::new(alloc),
            sorts: Items::new(alloc),
            marks: Items::new(alloc),
        }
    }

    /// The number of a name, which is the next one for a new name. Its only error is want of memory,
    /// and then nothing has changed. The table has room for 2^32 - 1 names.
    #[tactic(auto, using(crate::proofs::TableLemmas::growing))]
    pub fn number(&mut self, alloc: Global, name: &Name) -> Result<u32, AllocError>
        ensures names { OnOk result (self.new ≡ with_name self.old name.now) }
        ensures number { IfOk result (λ sym. slice_get self.new.texts sym ≡ Some name.now) }
        ensures err { OnErr result (self.new ≡ self.old) }
        ensures kept { Extends self.old self.new }
    {
        if let Some(at) = self.texts.get_index_of(name) {
            return Ok(at as u32);
        }
        if self.texts.len() >= MOST_NAMES {
            return Err(AllocError);
        }
        self.add(alloc, name)
    }

    /// Gives the next number to a name that has none.
    fn add(&mut self, alloc: Global, name: &Name) -> Result<u32, AllocError>
        requires room { length self.old.texts + 1 < 2 ^ 32 }
        requires new { list_any (bytes_eq name.now) self.old.texts ≡ false }
        ensures names { OnOk result (self.new ≡ with_name self.old name.now) }
        ensures number { IfOk result (λ sym. slice_get self.new.texts sym ≡ Some name.now) }
        ensures err { OnErr result (self.new ≡ self.old) }
    {
        let text = name.copy(alloc)?;
        self.marks.push(Marks {
            quantified: false,
            other: false,
        })?;
        match self.texts.insert_full(text) {
            Ok((at, _)) => Ok(at as u32),
            Err(_) => {
                let _ = self.marks.pop();
                Err(AllocError)
            }
        }
    }

    /// The text of a name, or `None` for a number that was not given out.
    pub fn text(&self, sym: u32) -> Option<&Name>
        ensures { option_copied result ≡ slice_get self.now.texts sym }
    {
        self.texts.get_index(sym as usize)
    }

    /// The number of a name, where it has one.
    pub fn known(&self, name: &Name) -> Option<u32>
        ensures first { result ≡ position (bytes_eq name.now) self.now.texts }
        ensures text { IfSome result (λ sym. text_at self.now sym ≡ name.now) }
        ensures within { IfSome result (λ sym. sym < length self.now.texts) }
        ensures distinct { IsDistinct bytes_eq self.now.texts }
        ensures aligned { length self.now.marks ≡ length self.now.texts }
    {
        match self.texts.get_index_of(name) {
            Some(at) => Some(at as u32),
            None => None,
        }
    }

    /// Adds a declared sort. Its only error is want of memory, and then nothing has changed.
    pub fn declare(&mut self, sort: SortDecl) -> Result<(), AllocError>
        ensures sorts { OnOk result (self.new ≡ with_sort self.old sort) }
        ensures err { OnErr result (self.new ≡ self.old) }
    {
        self.sorts.push(sort)
    }

    /// The declared sorts, in their order.
    pub fn sorts(&self) -> &[SortDecl]
        ensures { result.now ≡ self.now.sorts }
    {
        self.sorts.as_slice()
    }

    /// Notes that a quantifier has bound the name, or, where `quantified` is false, that another
    /// variable has had it. A number that was not given out has no mark.
    pub fn mark(&mut self, sym: u32, quantified: bool)
        ensures { self.new ≡ with_mark self.old sym quantified }
    {
        let at = sym as usize;
        if let Some(old) = self.marks.get(at) {
            let mark = if quantified {
                Marks {
                    quantified: true,
                    other: old.other,
                }
            } else {
                Marks {
                    quantified: old.quantified,
                    other: true,
                }
            };
            self.marks.set(at, mark);
        }
    }

    /// Whether a quantifier has bound the name, or, where `quantified` is false, another variable
    /// has had it.
    pub fn marked(&self, sym: u32, quantified: bool) -> bool
        requires { sym < length self.now.texts }
        ensures { result ≡ is_marked self.now sym quantified }
    {
        match self.marks.get(sym as usize) {
            Some(mark) => {
                if quantified {
                    mark.quantified
                } else {
                    mark.other
                }
            }
            None => false,
        }
    }
}
