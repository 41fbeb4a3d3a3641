//! What the items before a place have declared.

ghost use Rattle.std.specs.Prelude.{◌≡◌, ◌≤◌, ◌++◌, ◌∷◌, [], true, map, length, pos, IfOk, OnOk, IfSome, Some, Ok};
ghost use Rattle.std.specs.Str.{bytes_eq};
ghost use Rattle.dl_forms.specs.Context.{look_up};
ghost use Rattle.dl_notation.specs.Environment.{nothing, sort_named as named_sort, below as numbers_below};
ghost use Rattle.dl_notation.specs.Worlds.{world_named as named_world};
ghost use Rattle.dl_notation.specs.Behind.{declared_sort as sort_declared, declared_world as world_declared, composition_of};
ghost use Rattle.dl_means.specs.Seen.{seen_world};
ghost use Rattle.dl_means.specs.Before.{with_word as and_word, with_node as and_node, with_nodes as and_nodes, with_enumerators as and_enumerators, with_named_sort as and_named_sort, with_sort as and_sort, with_world as and_world, behind_sort as sort_behind, behind_world as world_behind, behind_item, at_first, enumerators_in};

use crate::trees::{parts_of, text_of};
use crate::worlds::{NamedWorld, WorldTexts, listed, names_behind_word, no_labels, union};
use dl_forms::is;
use dl_notation::begins_with;
use dl_term::Sort;
use dl_tree::{Name, Tree};
use indexmap::IndexMap;
use sqlite_items::Items;
use std::alloc::{AllocError, Global};
use std::marker::Model;

/// The nodes, the sorts with their enumerators, and the worlds that stand before an item.
#[derive(Drop)]
pub(crate) struct Declared {
    nodes: Items<Name>,
    sorts: IndexMap<Name, Sort>,
    words: IndexMap<Name, i64>,
    worlds: Items<NamedWorld>,
}

impl Model for Declared {
    ghost use Rattle.std.specs.Prelude.{map};
    ghost use Rattle.dl_notation.specs.Environment.{Environment, nothing};
    ghost use Rattle.dl_means.specs.Seen.{seen_named};

    ghost Value = { Environment };

    ghost view = { λ d. record nothing { nodes = d.nodes; sorts = d.sorts.entries; words = d.words.entries; worlds = map seen_named d.worlds } };
}

/// The numbers below a count. A count past 32 bits is answered as want of memory: no text is so long.
fn below(count: usize) -> Result<Sort, AllocError>
    ensures { IfOk result (λ sort. sort ≡ numbers_below count) }
{
    match u32::try_from(count) {
        Ok(count) => Ok(Sort {
            low: 0,
            high: i64::from(count) - 1,
        }),
        Err(_) => Err(AllocError),
    }
}

impl Declared {
    fn nothing(alloc: Global) -> Declared
        ensures { result ≡ nothing }
    {
        Declared {
            nodes: Items::new(alloc),
            sorts: IndexMap::new(alloc),
            words: IndexMap::new(alloc),
            worlds: Items::new(alloc),
        }
    }

    /// The value of a constant.
    #[tactic(auto, using(crate::proofs::MapLemmas::maps))]
    pub(crate) fn word(&self, name: &Name) -> Option<i64>
        ensures { result ≡ look_up name.now self.now.words }
    {
        self.words.get(name).copied()
    }

    #[tactic(auto, using(crate::proofs::MapLemmas::maps))]
    fn declared_sort(&self, name: &Name) -> Option<Sort>
        ensures { result ≡ look_up name.now self.now.sorts }
    {
        self.sorts.get(name).copied()
    }

    /// The sort of a name. Its only error is want of memory.
    pub(crate) fn sort(&self, name: &Name) -> Result<Option<Sort>, AllocError>
        ensures { IfOk result (λ sort. sort ≡ named_sort self.now name.now) }
    {
        if is(name, b"int") {
            return Ok(Some(Sort {
                low: i64::MIN,
                high: i64::MAX,
            }));
        }
        if is(name, b"bool") {
            return Ok(Some(Sort { low: 0, high: 1 }));
        }
        if is(name, b"node") {
            return Ok(Some(below(self.nodes.len())?));
        }
        Ok(self.declared_sort(name))
    }

    /// Adds a constant. Where it answers false, the name had one before.
    #[tactic(auto, using(crate::proofs::MapLemmas::maps))]
    fn add_word(&mut self, alloc: Global, name: &Name, value: i64) -> Result<bool, AllocError>
        ensures { IfOk result (λ fresh. fresh ≡ true → self.new ≡ and_word self.old name.now value) }
    {
        if self.words.contains_key(name) {
            return Ok(false);
        }
        let text = name.copy(alloc)?;
        if self.words.insert(text, value).is_err() {
            return Err(AllocError);
        }
        Ok(true)
    }

    /// Adds a node. A node past 32 bits is answered as want of memory: no file has so many.
    fn add_node(&mut self, alloc: Global, name: &Name) -> Result<bool, AllocError>
        ensures { IfOk result (λ fresh. fresh ≡ true → self.new ≡ and_node self.old name.now) }
    {
        let Ok(at) = u32::try_from(self.nodes.len()) else {
            return Err(AllocError);
        };
        let fresh = self.add_word(alloc, name, i64::from(at))?;
        self.nodes.push(name.copy(alloc)?)?;
        Ok(fresh)
    }

    fn add_nodes(&mut self, alloc: Global, names: &[Name]) -> Result<bool, AllocError>
        ensures { IfOk result (λ fresh. fresh ≡ true → self.new ≡ and_nodes self.old names.now) }
    {
        for name in names {
            if !self.add_node(alloc, name)? {
                return Ok(false);
            }
        }
        Ok(true)
    }

    /// Adds the enumerators of a sort, which have the values from 0 on.
    fn add_enumerators(&mut self, alloc: Global, names: &[Name]) -> Result<bool, AllocError>
        ensures { IfOk result (λ fresh. fresh ≡ true → self.new ≡ and_enumerators self.old 0 names.now) }
    {
        for (at, name) in names.iter().enumerate() {
            let Ok(at) = u32::try_from(at) else {
                return Err(AllocError);
            };
            if !self.add_word(alloc, name, i64::from(at))? {
                return Ok(false);
            }
        }
        Ok(true)
    }

    #[tactic(auto, using(crate::proofs::MapLemmas::maps))]
    fn add_named_sort(&mut self, alloc: Global, name: &Name, sort: Sort) -> Result<bool, AllocError>
        ensures { IfOk result (λ fresh. fresh ≡ true → self.new ≡ and_named_sort self.old name.now sort) }
    {
        if self.sorts.contains_key(name) {
            return Ok(false);
        }
        let text = name.copy(alloc)?;
        if self.sorts.insert(text, sort).is_err() {
            return Err(AllocError);
        }
        Ok(true)
    }

    /// Adds a sort by its range or its enumerators.
    fn add_sort(&mut self, alloc: Global, name: &Name, body: &Tree) -> Result<bool, AllocError>
        ensures { IfOk result (λ fresh. fresh ≡ true → self.new ≡ and_sort self.old name.now body.now) }
    {
        let enumerators = enumerators_of(alloc, body)?;
        if !self.add_enumerators(alloc, enumerators.as_slice())? {
            return Ok(false);
        }
        self.add_named_sort(alloc, name, range_in(parts_of(body))?)
    }

    /// The labels of a world by its name, and none where there is no world of the name.
    fn labels(&self, name: &Name) -> &[Name]
        ensures { result.now ≡ (named_world self.now name.now).labels }
    {
        for named in self.worlds.as_slice() {
            if name == &named.name {
                return named.world.labels.as_slice();
            }
        }
        &[]
    }

    /// The same of its hooks.
    fn hooks(&self, name: &Name) -> &[Name]
        ensures { result.now ≡ (named_world self.now name.now).hooks }
    {
        for named in self.worlds.as_slice() {
            if name == &named.name {
                return named.world.hooks.as_slice();
            }
        }
        &[]
    }

    /// The world of two worlds by their names.
    fn composition(&self, alloc: Global, names: &[Name]) -> Result<WorldTexts, AllocError>
        ensures { IfOk result (λ world. seen_world world ≡ composition_of self.now names.now) }
    {
        match names {
            [first, second] => {
                let labels = union(alloc, self.labels(first), self.labels(second))?;
                let hooks = union(alloc, self.hooks(first), self.hooks(second))?;
                Ok(WorldTexts { labels, hooks })
            }
            [] => Ok(no_labels(alloc)),
            [_] => Ok(no_labels(alloc)),
            [_, _, _, ..] => Ok(no_labels(alloc)),
        }
    }

    /// The world that an item declares, by its parts behind the name.
    pub(crate) fn declared_world(
        &self,
        alloc: Global,
        parts: &[Tree],
    ) -> Result<WorldTexts, AllocError>
        ensures { IfOk result (λ world. seen_world world ≡ world_declared self.now parts.now) }
    {
        match parts {
            [labels, hooks] => listed(alloc, labels, hooks),
            [composition] => {
                let names = names_behind_word(alloc, composition)?;
                self.composition(alloc, names.as_slice())
            }
            [] => Ok(no_labels(alloc)),
            [_, _, _, ..] => Ok(no_labels(alloc)),
        }
    }

    fn add_world(&mut self, alloc: Global, name: &str, world: WorldTexts) -> Result<(), AllocError>
        requires { length name.now ≤ 64 }
        ensures { OnOk result (self.new ≡ and_world self.old name.now (seen_world world)) }
    {
        match Name::new(alloc, name) {
            Ok(name) => self.worlds.push(NamedWorld { name, world }),
            Err(refused) => {
                drop(world);
                Err(refused)
            }
        }
    }

    fn pass_sort(&mut self, alloc: Global, parts: &[Tree]) -> Result<bool, AllocError>
        ensures { IfOk result (λ fine. fine ≡ true → self.new ≡ sort_behind self.old parts.now) }
    {
        match parts {
            [_, name, body, ..] => {
                let name = Name::new(alloc, text_of(name))?;
                self.add_sort(alloc, &name, body)
            }
            [_, _] => Ok(true),
            [_] => Ok(true),
            [] => Ok(true),
        }
    }

    fn pass_world(&mut self, alloc: Global, parts: &[Tree]) -> Result<bool, AllocError>
        ensures { IfOk result (λ fine. fine ≡ true → self.new ≡ world_behind self.old parts.now) }
    {
        match parts {
            [_, name, rest @ ..] => {
                let world = self.declared_world(alloc, rest)?;
                self.add_world(alloc, text_of(name), world)?;
                Ok(true)
            }
            [_] => Ok(true),
            [] => Ok(true),
        }
    }

    /// Passes an item. Where it answers false, the item declares a name for the second time.
    pub(crate) fn pass(&mut self, alloc: Global, item: &Tree) -> Result<bool, AllocError>
        ensures { IfOk result (λ fine. fine ≡ true → self.new ≡ behind_item self.old item.now) }
    {
        if begins_with(item, "sort") {
            return self.pass_sort(alloc, parts_of(item));
        }
        if begins_with(item, "world") {
            return self.pass_world(alloc, parts_of(item));
        }
        Ok(true)
    }

    /// What stands before the first item, by the list of nodes; None where a name is declared for the second time.
    pub(crate) fn at_first(alloc: Global, nodes: &Tree) -> Result<Option<Declared>, AllocError>
        ensures { IfOk result (λ found. IfSome found (λ declared. declared ≡ at_first nodes.now)) }
    {
        let names = names_behind_word(alloc, nodes)?;
        let mut declared = Declared::nothing(alloc);
        if declared.add_nodes(alloc, names.as_slice())? {
            Ok(Some(declared))
        } else {
            Ok(None)
        }
    }
}

/// The enumerators of `(enum c ..)`.
fn enumerators_of(alloc: Global, body: &Tree) -> Result<Items<Name>, AllocError>
    ensures { IfOk result (λ texts. texts ≡ enumerators_in body.now) }
{
    if begins_with(body, "enum") {
        names_behind_word(alloc, body)
    } else {
        Ok(Items::new(alloc))
    }
}

/// What a list of three parts declares: a range where its numbers stand behind its word, and else two enumerators.
fn range_or_two(word: &Tree, low: &Tree, high: &Tree) -> Result<Sort, AllocError>
    ensures { IfOk result (λ sort. sort ≡ sort_declared (word.now ∷ low.now ∷ high.now ∷ [])) }
{
    match low {
        Tree::Num { value: low, .. } => match high {
            Tree::Num { value: high, .. } => Ok(Sort {
                low: *low,
                high: *high,
            }),
            Tree::Sym { .. } => below(2),
            Tree::List { .. } => below(2),
        },
        Tree::Sym { .. } => below(2),
        Tree::List { .. } => below(2),
    }
}

/// The sort that a range or enumerators declare, by the parts of their list.
fn range_in(parts: &[Tree]) -> Result<Sort, AllocError>
    ensures { IfOk result (λ sort. sort ≡ sort_declared parts.now) }
{
    match parts {
        [] => Ok(Sort {
            low: i64::MIN,
            high: i64::MAX,
        }),
        [word, low, high] => range_or_two(word, low, high),
        [_, values @ ..] => below(values.len()),
    }
}
