//! What terms and formulas are read as, and which are refused, where nothing but numbers may be named.

ghost use Rattle.std.specs.Prelude.{◌≡◌, [], None};
ghost use Rattle.dl_forms.specs.Numbered.{AreNumbered};
ghost use Rattle.dl_forms.specs.Read.{IsFormed};

use dl_forms::{FormFault, Kind, Names, Scope, read_formula};
use dl_model::Instances;
use dl_tree::read_tree;
use sqlite_items::Items;
use std::alloc::{AllocError, Global};
use std::test::Fail;

fn nothing(alloc: Global, kind: Kind) -> Scope
    ensures { result ≡ record { vars = []; messages = []; words = []; labels = []; own = None; kind = kind; declared = [] } }
{
    Scope {
        vars: Items::new(alloc),
        messages: Items::new(alloc),
        words: Items::new(alloc),
        labels: Items::new(alloc),
        own: None,
        kind,
        declared: Items::new(alloc),
    }
}

fn no_instances(alloc: Global) -> Instances
    ensures { result ≡ record { nodes = 1; protocols = []; of = [] } }
{
    Instances {
        nodes: 1,
        protocols: Items::new(alloc),
        of: Items::new(alloc),
    }
}

/// The rule and the column of a text's fault as a formula, or 0 where it has none.
fn fault_of(alloc: Global, kind: Kind, text: &str) -> Result<(u8, u32), AllocError> {
    if text.len() >= 4294967295 {
        return Err(AllocError);
    }
    let Ok(tree) = read_tree(alloc, text.as_bytes()) else {
        return Ok((99, 0));
    };
    let mut names = Names::make(alloc)?;
    match read_formula(
        alloc,
        &mut names,
        &nothing(alloc, kind),
        &no_instances(alloc),
        &tree,
    ) {
        Ok(_) => Ok((0, 0)),
        Err(FormFault::At { rule, place }) => Ok((rule, place.col)),
        Err(FormFault::Memory) => Err(AllocError),
    }
}

const FAULTS: [(&str, Kind, u8, u32); 12] = [
    ("(all x (some y (<= x (+ y 1))))", Kind::Whole, 0, 0),
    ("(all x (<= x))", Kind::Whole, 10, 8),
    ("(all 3 true)", Kind::Whole, 10, 6),
    ("(all x (= y 1))", Kind::Whole, 11, 11),
    ("(all x (= (get c n x) 0))", Kind::Whole, 11, 16),
    ("(all me true)", Kind::Whole, 13, 6),
    ("(all x (all x true))", Kind::Whole, 13, 13),
    (
        "(all x (= 0 (* 9000000000000000000 (* x x))))",
        Kind::Whole,
        16,
        13,
    ),
    ("(all x (= (len c) 0))", Kind::Local, 14, 11),
    ("(all x (= (get c n me) 0))", Kind::Local, 11, 16),
    ("(and (= y 1) (all x true))", Kind::Plain, 11, 9),
    ("(and (= 2 1) (all x true))", Kind::Plain, 14, 14),
];

#[test]
fn faults(rt: HostRuntime) -> Result<(), Fail> {
    for (text, kind, rule, col) in &FAULTS {
        assert_eq!(rt; fault_of(rt.alloc(), *kind, text)?, (*rule, *col), "{text}");
    }
    Ok(())
}
