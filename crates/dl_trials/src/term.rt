//! Values at the edges of their ranges, and quantifiers over a small state.

ghost use Rattle.std.specs.Prelude.{◌≡◌, ◌∷◌, [], pos, negsuc, true, false, IfOk};
ghost use Rattle.dl_term.specs.Measures.{IsNarrow};
ghost use Rattle.dl_term.specs.State.{item};
ghost use Rattle.dl_term.specs.declared.syntax.Term.{Num, Var, Msg, Mul, Field};
ghost use Rattle.dl_term.specs.declared.syntax.Formula.{Eq, Lt, All, Exists, Each, Any};

use dl_term::{
    DEEPEST_NESTING, Env, Formula, Lab, Part, Term, View, copy_formula, depth, free, holds,
    magnitude, oversized, same_formula, same_term, size, value,
};
use sqlite_items::Boxed;
use std::alloc::{AllocError, Global};
use std::test::Fail;

// Two nodes and one label. Its row is 5, 6 at node 0 and -7, 8 at node 1. Its soup has a live message of tag 1
// from 0 to 1 with the argument 9, and a received one of tag 2 from 1 to 0.
struct Sample;

impl View for Sample {
    ghost state = { λ s. record {
      nodes = 2;
      labels = record {
        fields = ((pos 5 ∷ pos 6 ∷ []) ∷ (negsuc 6 ∷ pos 8 ∷ []) ∷ []) ∷ [];
        soup = record { tag = 1; from = 0; to = pos 1; live = true; args = pos 9 ∷ [] } ∷ record { tag = 2; from = 1; to = pos 0; live = false; args = [] } ∷ [];
      } ∷ [];
    } };

    fn nodes(&self) -> u32 {
        2
    }

    fn field(&self, label: u8, field: u8, node: i128, index: i128) -> i64 {
        if label != 0 || field != 0 {
            0
        } else if node == 0 {
            one_of(index, 5, 6)
        } else if node == 1 {
            one_of(index, -7, 8)
        } else {
            0
        }
    }

    fn len(&self, label: u8) -> u32 {
        if label == 0 { 2 } else { 0 }
    }

    fn tag(&self, label: u8, id: u32) -> u8 {
        if label != 0 {
            0
        } else if id == 0 {
            1
        } else if id == 1 {
            2
        } else {
            0
        }
    }

    fn part(&self, label: u8, id: u32, part: Part) -> i64 {
        if label != 0 {
            0
        } else if id == 0 {
            match part {
                Part::Id | Part::From => 0,
                Part::To | Part::Live => 1,
                Part::Arg(at) => if at == 0 { 9 } else { 0 },
            }
        } else if id == 1 {
            match part {
                Part::Id | Part::From => 1,
                Part::To | Part::Live | Part::Arg(_) => 0,
            }
        } else {
            0
        }
    }
}

fn one_of(index: i128, first: i64, second: i64) -> i64
    ensures { result ≡ item (first ∷ second ∷ []) index (pos 0) }
{
    if index == 0 {
        first
    } else if index == 1 {
        second
    } else {
        0
    }
}

fn boxed(alloc: Global, term: Term) -> Result<Boxed<Term>, AllocError>
    ensures { IfOk result (λ made. made ≡ term) }
{
    Boxed::new(alloc, term)
}

#[tactic(auto, unfolding(dl_term::specs::Syntax::opened))]
fn product(alloc: Global, left: i64, right: i64) -> Result<Boxed<Term>, AllocError>
    ensures { IfOk result (λ made. made ≡ Mul (Num left) (Num right)) }
{
    let left = boxed(alloc, Term::Num(left))?;
    let right = boxed(alloc, Term::Num(right))?;
    boxed(alloc, Term::Mul(left, right))
}

// 2^126 - (2^63 - 2^126), a value just below 2^127.
#[tactic(auto, unfolding(dl_term::specs::Syntax::opened))]
fn widest(alloc: Global) -> Result<Term, AllocError>
    ensures { IfOk result (λ made. IsNarrow made) }
{
    let square = product(alloc, i64::MIN, i64::MIN)?;
    let mixed = product(alloc, i64::MIN, i64::MAX)?;
    Ok(Term::Sub(square, mixed))
}

#[test]
fn values_at_the_edges(rt: HostRuntime) -> Result<(), Fail> {
    let widest = widest(rt.alloc())?;
    assert_eq!(rt; magnitude(&widest), 170141183460469231722463931679029329920);
    assert_eq!(rt;
        value(&widest, &Env::Empty(0), &Sample),
        170141183460469231722463931679029329920
    );
    Ok(())
}

#[test]
fn magnitudes_at_the_edges(rt: HostRuntime) -> Result<(), Fail> {
    let alloc = rt.alloc();
    assert_eq!(rt; magnitude(&Term::Num(i64::MIN)), 9223372036854775808);
    let square = product(alloc, i64::MIN, i64::MIN)?;
    let wide = Term::Add(square, product(alloc, i64::MIN, i64::MIN)?);
    assert_eq!(rt; magnitude(&wide), 170141183460469231731687303715884105728);
    let wider = Term::Mul(boxed(alloc, wide)?, product(alloc, i64::MIN, i64::MIN)?);
    assert_eq!(rt; magnitude(&wider), u128::MAX);
    Ok(())
}

#[tactic(auto, unfolding(dl_term::specs::Syntax::opened))]
fn field(alloc: Global, label: Lab, node: i64) -> Result<Term, AllocError>
    ensures { IfOk result (λ made. made ≡ Field label 0 (Num node)) }
{
    let node = boxed(alloc, Term::Num(node))?;
    Ok(Term::Field {
        label,
        field: 0,
        node,
    })
}

#[test]
#[tactic(auto, unfolding(dl_term::specs::Syntax::opened))]
fn reads(rt: HostRuntime) -> Result<(), Fail> {
    let alloc = rt.alloc();
    let own = Env::Empty(0);
    for (label, node, want) in [
        (Lab::Own, 0, 5),
        (Lab::At(0), 1, -7),
        (Lab::Own, 2, 0),
        (Lab::Own, -1, 0),
        (Lab::At(1), 0, 0),
    ] {
        assert_eq!(rt; value(&field(alloc, label, node)?, &own, &Sample), want);
    }
    assert_eq!(rt; value(&Term::Len(Lab::Own), &own, &Sample), 2);
    assert_eq!(rt; value(&Term::Len(Lab::Own), &Env::Empty(1), &Sample), 0);
    let scope = Env::Message(&own, 7, 0, 0);
    for (msg, part, want) in [
        (7, Part::To, 1),
        (7, Part::Live, 1),
        (7, Part::Arg(0), 9),
        (7, Part::Arg(1), 0),
        (8, Part::To, 0),
    ] {
        assert_eq!(rt; value(&Term::Msg { msg, part }, &scope, &Sample), want);
    }
    Ok(())
}

#[tactic(auto, unfolding(dl_term::specs::Syntax::opened))]
fn all(alloc: Global, body: Formula) -> Result<Formula, AllocError>
    ensures { IfOk result (λ made. made ≡ All 3 body) }
{
    let body = Boxed::new(alloc, body)?;
    Ok(Formula::All { sym: 3, body })
}

#[tactic(auto, unfolding(dl_term::specs::Syntax::opened))]
fn some(alloc: Global, body: Formula) -> Result<Formula, AllocError>
    ensures { IfOk result (λ made. made ≡ Exists 3 body) }
{
    let body = Boxed::new(alloc, body)?;
    Ok(Formula::Exists { sym: 3, body })
}

#[tactic(auto, unfolding(dl_term::specs::Syntax::opened))]
fn each(alloc: Global, tag: u8, body: Formula) -> Result<Formula, AllocError>
    ensures { IfOk result (λ made. made ≡ Each 4 Lab.Own tag body) }
{
    let body = Boxed::new(alloc, body)?;
    Ok(Formula::Each {
        msg: 4,
        label: Lab::Own,
        tag,
        body,
    })
}

#[tactic(auto, unfolding(dl_term::specs::Syntax::opened))]
fn any(alloc: Global, tag: u8, body: Formula) -> Result<Formula, AllocError>
    ensures { IfOk result (λ made. made ≡ Any 4 Lab.Own tag body) }
{
    let body = Boxed::new(alloc, body)?;
    Ok(Formula::Any {
        msg: 4,
        label: Lab::Own,
        tag,
        body,
    })
}

fn is_node(node: i64) -> Formula
    ensures { result ≡ Eq (Var 3) (Num node) }
{
    Formula::Eq(Term::Var(3), Term::Num(node))
}

fn below(node: i64) -> Formula
    ensures { result ≡ Lt (Var 3) (Num node) }
{
    Formula::Lt(Term::Var(3), Term::Num(node))
}

fn live(mark: i64) -> Formula
    ensures { result ≡ Eq (Msg 4 Part.Live) (Num mark) }
{
    Formula::Eq(
        Term::Msg {
            msg: 4,
            part: Part::Live,
        },
        Term::Num(mark),
    )
}

#[test]
#[tactic(auto, unfolding(dl_term::specs::Syntax::opened))]
fn quantifiers(rt: HostRuntime) -> Result<(), Fail> {
    let alloc = rt.alloc();
    let own = Env::Empty(0);
    assert!(rt; holds(&all(alloc, below(2))?, &own, &Sample));
    assert!(rt; !holds(&all(alloc, below(1))?, &own, &Sample));
    assert!(rt; holds(&some(alloc, is_node(1))?, &own, &Sample));
    assert!(rt; !holds(&some(alloc, is_node(2))?, &own, &Sample));
    for (tag, mark, every, one) in [
        (1, 1, true, true),
        (2, 1, false, false),
        (3, 1, true, false),
    ] {
        assert_eq!(rt; holds(&each(alloc, tag, live(mark))?, &own, &Sample), every);
        assert_eq!(rt; holds(&any(alloc, tag, live(mark))?, &own, &Sample), one);
    }
    Ok(())
}

#[test]
fn measures_and_copies(rt: HostRuntime) -> Result<(), Fail> {
    let alloc = rt.alloc();
    let formula = all(alloc, each(alloc, 1, live(1))?)?;
    assert_eq!(rt; size(&formula), 5);
    assert_eq!(rt; depth(&formula), 4);
    assert!(rt; !oversized(&formula));
    assert!(rt; !free(&formula, 3) && !free(&formula, 4));
    assert!(rt; free(&live(1), 4) && free(&below(1), 3));
    let copy = copy_formula(alloc, &formula)?;
    assert!(rt; same_formula(&copy, &formula));
    assert!(rt; !same_formula(&is_node(1), &is_node(0)));
    assert!(rt; !same_term(&Term::Num(0), &Term::Word { sym: 18, value: 0 }));
    let mut nested = Formula::True;
    for _ in 1..DEEPEST_NESTING {
        nested = Formula::Not(Boxed::new(alloc, nested)?);
    }
    assert_eq!(rt; depth(&nested), DEEPEST_NESTING);
    assert!(rt; !oversized(&nested));
    let nested = Formula::Not(Boxed::new(alloc, nested)?);
    assert!(rt; oversized(&nested));
    Ok(())
}
