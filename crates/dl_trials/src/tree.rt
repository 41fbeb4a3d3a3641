//! Texts with a known first fault, texts that spell a tree, and the layout.

ghost use Rattle.std.specs.Prelude.{◌<◌, length};

use dl_tree::{Name, Place, Tree, TreeFault, copy_tree, read_tree, write_tree};
use std::alloc::Global;
use std::test::Fail;

fn fault(alloc: Global, text: &[u8]) -> Option<(u8, u32, u32)>
    requires { length text.now < 4294967295 }
{
    match read_tree(alloc, text) {
        Err(TreeFault::At { rule, place }) => Some((rule, place.line, place.col)),
        _ => None,
    }
}

/// The layout of what a text spells, or of its copy.
fn layout(alloc: Global, text: &[u8], copied: bool) -> Result<Vec<u8>, TreeFault>
    requires { length text.now < 4294967295 }
{
    let mut tree = read_tree(alloc, text)?;
    if copied {
        tree = copy_tree(alloc, &tree)?;
    }
    Ok(write_tree(alloc, &tree)?)
}

#[test]
fn first_faults(rt: HostRuntime) {
    let texts: [(&[u8], Option<(u8, u32, u32)>); 15] = [
        (b"", Some((3, 1, 1))),
        (b"; x\n", Some((3, 2, 1))),
        (b"(disel 1))", Some((4, 1, 10))),
        (b"(disel 1)", None),
        (&[128], Some((1, 1, 1))),
        (b"(a 9223372036854775807)", None),
        (b"(a 9223372036854775808)", Some((6, 1, 4))),
        (b"(a -9223372036854775808)", None),
        (b"(a -9223372036854775809)", Some((6, 1, 4))),
        (b"(a 007)", Some((2, 1, 4))),
        (b"(a -0)", Some((2, 1, 4))),
        (b"(a\n b;c)\n ) x", Some((4, 3, 4))),
        (b"x (a)", Some((4, 1, 1))),
        (b"(a\tb\r\n(c ;\xff\n) 1x", Some((2, 3, 3))),
        (b"((a) 3 <= - -5 b_-)", None),
    ];
    for (text, expected) in texts {
        if text.len() < 100 {
            assert_eq!(rt; fault(rt.alloc(), text), expected);
        }
    }
}

#[test]
fn limits(rt: HostRuntime) {
    assert_eq!(rt; fault(rt.alloc(), &[b'('; 201]), Some((5, 1, 201)));
    assert_eq!(rt; fault(rt.alloc(), &[b'('; 200]), Some((3, 1, 201)));
    let mut name = [b'n'; 66];
    name[0] = b'(';
    assert_eq!(rt; fault(rt.alloc(), &name), Some((2, 1, 2)));
    assert_eq!(rt; fault(rt.alloc(), &name[..65]), Some((3, 1, 66)));
    let mut comment = [b'x'; 1024];
    comment[0] = b';';
    assert_eq!(rt; fault(rt.alloc(), &comment), Some((3, 1, 1025)));
}

#[test]
fn layouts(rt: HostRuntime) -> Result<(), Fail> {
    let alloc = rt.alloc();
    let text =
        b"(disel 1\n  (nodes a)\n  (protocol count\n    (field n int 0)\n    (tag inc () (send true (set n (+ (get self n me) 1)))))\n  (label c count)\n  (world w (labels c) (hooks))\n  (invariant pos w (all x (<= 0 (get c n x))))\n  (deploy w)\n  (proof (step pos c inc send) (names s d)\n    (open k (inst pos k hk (inst pos s hs\n      (decide (= k s) q\n        (reduce q goal (linear (add (1 (goal)) (1 (use hs)))))\n        (reduce q goal (linear (add (1 (goal)) (1 (use hk))))))))))\n)\n".as_slice();
    let laid_out =
        b"(disel 1\n  (nodes a)\n  (protocol count (field n int 0) (tag inc () (send true (set n (+ (get self n me) 1)))))\n  (label c count)\n  (world w (labels c) (hooks))\n  (invariant pos w (all x (<= 0 (get c n x))))\n  (deploy w)\n  (proof (step pos c inc send) (names s d) (open k (inst pos k hk (inst pos s hs (decide (= k s) q (reduce q goal (linear (add (1 (goal)) (1 (use hs))))) (reduce q goal (linear (add (1 (goal)) (1 (use hk))))))))))\n)\n".as_slice();
    let written = layout(alloc, text, false)?;
    assert_eq!(rt; written.as_slice(), laid_out);
    let written = layout(alloc, laid_out, true)?;
    assert_eq!(rt; written.as_slice(), laid_out);
    let written = layout(alloc, b"( disel 2;x\n -5 () )".as_slice(), false)?;
    assert_eq!(rt; written.as_slice(), b"(disel 2 -5 ())".as_slice());
    Ok(())
}

#[test]
fn names(rt: HostRuntime) -> Result<(), Fail> {
    let name = Name::new(rt.alloc(), "count")?;
    let copy = name.copy(rt.alloc())?;
    assert!(rt; name == copy);
    let place = Place { line: 3, col: 7 };
    let tree = Tree::Sym { name: copy, place };
    assert_eq!(rt; tree.place(), place);
    Ok(())
}
