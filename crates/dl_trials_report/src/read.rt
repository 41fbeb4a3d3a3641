//! Reports, read: of a file with one node and nothing else.

ghost use Rattle.std.specs.Prelude.{◌≡◌, ◌+◌, ◌<◌, ◌^◌, length, IfOk};
ghost use Rattle.dl_trials_report.specs.Bare.{bare, bare_names};

use dl_model::{Decls, End, Instances, Order};
use dl_report::{ReportFault, read_report};
use dl_tree::Name;
use sqlite_items::Items;
use std::alloc::{AllocError, Global};

/// The declarations of one node.
fn one_node(alloc: Global) -> Decls
    ensures { result ≡ bare }
{
    Decls {
        inst: Instances {
            nodes: 1,
            protocols: Items::new(alloc),
            of: Items::new(alloc),
        },
        labels: Items::new(alloc),
        hooks: Items::new(alloc),
        worlds: Items::new(alloc),
        invariants: Items::new(alloc),
        procs: Items::new(alloc),
        deploy: None,
    }
}

/// The texts of its names: 18 that nobody names, and `a`.
fn texts(alloc: Global) -> Result<Items<Name>, AllocError>
    ensures { IfOk result (λ names. names ≡ bare_names) }
{
    let mut names = Items::new(alloc);
    let mut count = 0_u32;
    while count < 18 {
        names.push(Name::new(alloc, "")?)?;
        count += 1;
    }
    names.push(Name::new(alloc, "a")?)?;
    Ok(names)
}

/// Whether a text is the report of this budget and order, of no entry, and of these ends.
fn reads(alloc: Global, text: &str, budget: u32, order: Order, ends: &[(u32, End, u32)]) -> bool
    requires { length text.now + 1 < 2 ^ 32 }
{
    let Ok(names) = texts(alloc) else {
        return false;
    };
    let decls = one_node(alloc);
    match read_report(alloc, names.as_slice(), &decls, text.as_bytes()) {
        Ok(report) => {
            report.budget == budget
                && report.order == order
                && report.entries.len() == 0
                && report.ends.as_slice() == ends
        }
        Err(_) => false,
    }
}

/// The first wrong line of a text, or 0.
fn first_wrong(alloc: Global, text: &str) -> u32
    requires { length text.now + 1 < 2 ^ 32 }
{
    let Ok(names) = texts(alloc) else {
        return 0;
    };
    let decls = one_node(alloc);
    match read_report(alloc, names.as_slice(), &decls, text.as_bytes()) {
        Err(ReportFault::Line(line)) => line,
        _ => 0,
    }
}

#[test]
fn a_report_is_read(rt: HostRuntime) {
    let alloc = rt.alloc();
    let text = "run budget 1000 order seed:7\nend a ended -79 units 3\n";
    assert!(rt;
        reads(
            alloc,
            text,
            1000,
            Order::Seed(7),
            &[(0, End::Ended(-79), 3)]
        )
    );
}

#[test]
fn wrong_lines_are_told(rt: HostRuntime) {
    let alloc = rt.alloc();
    assert!(rt; first_wrong(alloc, "") == 1);
    assert!(rt; first_wrong(alloc, "run budget 1000 order oldest") == 1);
    assert!(rt; first_wrong(alloc, "run budget 01000 order oldest\n") == 1);
    assert!(rt; first_wrong(alloc, "run budget 1 order newest\nend b spent units 1\n") == 2);
    assert!(rt;
        first_wrong(
            alloc,
            "run budget 1 order newest\nend a spent units 1\nend a spent units 1"
        ) == 3
    );
}
