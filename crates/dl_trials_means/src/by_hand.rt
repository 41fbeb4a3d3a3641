//! A file with each kind of item but a procedure, and files that differ from their tree in one thing.

use dl_file::{File, Item, ItemKind, Proof};
use dl_forms::{Names, SortDecl};
use dl_linear::Certificate;
use dl_means::tells;
use dl_model::{
    Decls, Deploy, FieldDecl, Instances, Invariant, Protocol, Tag, Transition, Update, World,
};
use dl_notation::{ListRole, number_list};
use dl_sequent::{Duty, Rule, Script};
use dl_shown::show_file;
use dl_term::{Formula, Lab, Sort, Term};
use dl_tree::{Name, Place, Tree, read_tree, write_tree};
use sqlite_items::{Boxed, Items};
use std::alloc::{AllocError, Global};
use std::test::Fail;

const TEXT: &str =
    "(disel 1 (nodes a) (sort s (enum z o)) (protocol p (tag t () (send true (set n 1))) (field n s z)) (label c p) (world w (labels c) (hooks)) (world v (compose w w)) (invariant i v (all x (<= z (get c n x)))) (deploy v) (proof (init i) (names) (open k (linear (goal)))))";

const SHOWN: &str =
    "(disel 1 (nodes a) (sort s (enum z o)) (protocol p (field n (range 0 1) z) (tag t () (send true (set n 1)))) (label c p) (world w (labels c) (hooks)) (world v (labels c) (hooks)) (invariant i v (all x (<= z (get c n x)))) (deploy v) (proof (init i) (names) (open k (linear (goal)))))";

fn boxed(alloc: Global, term: Term) -> Result<Boxed<Term>, AllocError> {
    Boxed::new(alloc, term)
}

/// The update `(set n 1)`.
fn updates(alloc: Global) -> Result<Items<Update>, AllocError> {
    let mut updates = Items::new(alloc);
    updates.push(Update {
        field: 0,
        index: None,
        value: Term::Num(1),
    })?;
    Ok(updates)
}

fn tags(alloc: Global) -> Result<Items<Tag>, AllocError> {
    let updates = updates(alloc)?;
    let mut tags = Items::new(alloc);
    tags.push(Tag {
        sym: 23,
        args: Items::new(alloc),
        send: Transition {
            guard: Formula::True,
            updates,
        },
        receive: None,
    })?;
    Ok(tags)
}

/// The field, with its first value.
fn fields(alloc: Global, high: i64, first: Term) -> Result<Items<FieldDecl>, AllocError> {
    let mut fields = Items::new(alloc);
    fields.push(FieldDecl {
        sym: 24,
        row: false,
        sort: Sort { low: 0, high },
        first,
    })?;
    Ok(fields)
}

/// One node, and one label of a protocol with this field.
fn instances(alloc: Global, high: i64, first: Term) -> Result<Instances, AllocError> {
    let fields = fields(alloc, high, first)?;
    let tags = tags(alloc)?;
    let mut protocols = Items::new(alloc);
    protocols.push(Protocol {
        sym: 22,
        fields,
        tags,
        coherence: None,
    })?;
    Ok(Instances {
        nodes: 1,
        protocols,
        of: Items::from_slice(alloc, &[0])?,
    })
}

/// As many worlds as that, of the names from 26 on, each with the label.
fn worlds(alloc: Global, count: u32) -> Result<Items<World>, AllocError> {
    let mut worlds = Items::new(alloc);
    for world in 0..count {
        let labels = Items::from_slice(alloc, &[0])?;
        worlds.push(World {
            sym: if world < 100 { 26 + world } else { 0 },
            labels,
            hooks: Items::new(alloc),
        })?;
    }
    Ok(worlds)
}

/// The invariant, in which the field is read at the node `x`.
fn invariants(alloc: Global, low: Term) -> Result<Items<Invariant>, AllocError> {
    let node = boxed(alloc, Term::Var(29))?;
    let read = Term::Field {
        label: Lab::At(0),
        field: 0,
        node,
    };
    let body = Boxed::new(alloc, Formula::Le(low, read))?;
    let mut invariants = Items::new(alloc);
    invariants.push(Invariant {
        sym: 28,
        world: 1,
        formula: Formula::All { sym: 29, body },
    })?;
    Ok(invariants)
}

/// What the file is to differ in from its tree.
#[derive(Clone, Copy)]
struct Change {
    high: i64,
    zero: i64,
    variable: bool,
    worlds: u32,
    script: u32,
}

const NONE: Change = Change {
    high: 1,
    zero: 0,
    variable: false,
    worlds: 2,
    script: 0,
};

fn declarations(alloc: Global, change: Change) -> Result<Decls, AllocError> {
    let first = Term::Word {
        sym: 20,
        value: change.zero,
    };
    let low = if change.variable {
        Term::Var(20)
    } else {
        Term::Word { sym: 20, value: 0 }
    };
    let inst = instances(alloc, change.high, first)?;
    let invariants = invariants(alloc, low)?;
    let worlds = worlds(alloc, change.worlds)?;
    Ok(Decls {
        inst,
        labels: Items::from_slice(alloc, &[25])?,
        hooks: Items::new(alloc),
        worlds,
        invariants,
        procs: Items::new(alloc),
        deploy: Some(Deploy {
            world: 1,
            programs: Items::new(alloc),
        }),
    })
}

fn parts(tree: &Tree) -> &[Tree] {
    match tree {
        Tree::List { items, .. } => items.as_slice(),
        Tree::Num { .. } => &[],
        Tree::Sym { .. } => &[],
    }
}

/// The place of a part, or of the whole.
fn place_of(tree: &Tree, at: usize) -> Place {
    match parts(tree).get(at) {
        Some(part) => part.place(),
        None => tree.place(),
    }
}

fn part(tree: &Tree, at: usize) -> &Tree {
    match parts(tree).get(at) {
        Some(part) => part,
        None => tree,
    }
}

/// The place in the same line so many columns on.
fn moved(place: Place, by: u32) -> Place {
    match place.col.checked_add(by) {
        Some(col) => Place {
            line: place.line,
            col,
        },
        None => place,
    }
}

/// The proof of the invariant at first. Its script stands so many columns on.
fn proofs(alloc: Global, tree: &Tree, by: u32) -> Result<Items<Proof>, AllocError> {
    let item = part(tree, 10);
    let opens = part(item, 3);
    let then = Script {
        rule: Rule::Linear {
            first: Certificate::Use(8),
            second: None,
        },
        place: place_of(opens, 2),
    };
    let script = Script {
        rule: Rule::Open {
            var: 30,
            then: Boxed::new(alloc, then)?,
        },
        place: moved(opens.place(), by),
    };
    let mut proofs = Items::new(alloc);
    proofs.push(Proof {
        duty: Duty::InitInvariant { invariant: 0 },
        names: Items::new(alloc),
        script,
        place: item.place(),
    })?;
    Ok(proofs)
}

const KINDS: [(ItemKind, u32); 8] = [
    (ItemKind::Sort, 0),
    (ItemKind::Protocol, 0),
    (ItemKind::Label, 0),
    (ItemKind::World, 0),
    (ItemKind::World, 1),
    (ItemKind::Invariant, 0),
    (ItemKind::Deploy, 0),
    (ItemKind::Proof, 0),
];

fn items(alloc: Global, tree: &Tree) -> Result<Items<Item>, AllocError> {
    let mut items = Items::new(alloc);
    for (i, (kind, at)) in KINDS.iter().enumerate() {
        items.push(Item {
            kind: *kind,
            at: *at,
            place: place_of(tree, i + 3),
        })?;
    }
    Ok(items)
}

/// The names of the tree, with its sort.
fn names(alloc: Global, tree: &Tree) -> Result<Names, AllocError> {
    let mut names = Names::make(alloc)?;
    number_list(alloc, &mut names, ListRole::File, tree)?;
    names.declare(SortDecl {
        sym: 19,
        sort: Sort { low: 0, high: 1 },
        values: Items::from_slice(alloc, &[20, 21])?,
    })?;
    Ok(names)
}

/// The texts of the names.
fn texts(alloc: Global, names: &Names) -> Result<Items<Name>, AllocError> {
    let mut texts = Items::new(alloc);
    for sym in 0..31 {
        if let Some(text) = names.text(sym) {
            texts.push(text.copy(alloc)?)?;
        }
    }
    Ok(texts)
}

fn file(alloc: Global, names: &Names, tree: Tree, change: Change) -> Result<File, AllocError> {
    let decls = declarations(alloc, change)?;
    let proofs = proofs(alloc, &tree, change.script)?;
    let items = items(alloc, &tree)?;
    let texts = texts(alloc, names)?;
    Ok(File {
        names: texts,
        decls,
        proofs,
        items,
        tree,
    })
}

fn told(alloc: Global, change: Change) -> Result<bool, AllocError> {
    let Ok(tree) = read_tree(alloc, TEXT.as_bytes()) else {
        return Err(AllocError);
    };
    let names = names(alloc, &tree)?;
    let file = file(alloc, &names, tree, change)?;
    tells(alloc, &names, &file)
}

/// Whether the changed file is told to be what its tree means.
const CHANGES: [(Change, bool); 6] = [
    (NONE, true),
    (
        Change {
            high: 2,
            zero: 0,
            variable: false,
            worlds: 2,
            script: 0,
        },
        false,
    ),
    (
        Change {
            high: 1,
            zero: 1,
            variable: false,
            worlds: 2,
            script: 0,
        },
        false,
    ),
    (
        Change {
            high: 1,
            zero: 0,
            variable: true,
            worlds: 2,
            script: 0,
        },
        false,
    ),
    (
        Change {
            high: 1,
            zero: 0,
            variable: false,
            worlds: 3,
            script: 0,
        },
        false,
    ),
    (
        Change {
            high: 1,
            zero: 0,
            variable: false,
            worlds: 2,
            script: 1,
        },
        false,
    ),
];

#[test]
fn a_file_is_what_its_tree_means(rt: HostRuntime) -> Result<(), Fail> {
    for (change, is) in &CHANGES {
        assert_eq!(rt; told(rt.alloc(), *change)?, *is);
    }
    Ok(())
}

/// The text of the file that the tree means.
fn shown(alloc: Global) -> Result<Vec<u8>, AllocError> {
    let Ok(tree) = read_tree(alloc, TEXT.as_bytes()) else {
        return Err(AllocError);
    };
    let names = names(alloc, &tree)?;
    let file = file(alloc, &names, tree, NONE)?;
    let shown = show_file(alloc, &names, &file)?;
    write_tree(alloc, &shown)
}

/// The layout of a text.
fn laid_out(alloc: Global, text: &str) -> Result<Vec<u8>, AllocError> {
    if text.len() >= 4294967295 {
        return Err(AllocError);
    }
    let Ok(tree) = read_tree(alloc, text.as_bytes()) else {
        return Err(AllocError);
    };
    write_tree(alloc, &tree)
}

#[test]
fn a_file_is_shown_with_its_sorts_and_worlds(rt: HostRuntime) -> Result<(), Fail> {
    let alloc = rt.alloc();
    assert_eq!(rt; shown(alloc)?, laid_out(alloc, SHOWN)?);
    Ok(())
}
