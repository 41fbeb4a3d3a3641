//! A file with a hook and two programs, and the same file with one thing changed so that it isn't formed.

use dl_formed::is_formed;
use dl_model::{
    Command, Decls, Deploy, FieldDecl, Hook, Instances, Invariant, Proc, Program, Protocol, Tag,
    Transition, Update, World,
};
use dl_term::{Formula, Lab, Part, Sort, Term};
use sqlite_items::{Boxed, Items};
use std::alloc::{AllocError, Global};
use std::mem;
use std::test::Fail;

// Numbers of names.
const ME: u8 = 4;

const TO: u8 = 5;

const FROM: u8 = 6;

const CAST: u8 = 21;

const BALLOT: u8 = 23;

const ARG: u8 = 25;

const HOOK_ARG: u8 = 29;

const MESSAGE: u8 = 33;

const PARAM: u8 = 40;

const SENDER: u8 = 41;

const GOT: u8 = 42;

// What can be changed, and what stands there in the good file.
const NODES: (u8, u8) = (0, 2);

const LABEL_NAMES: (u8, u8) = (1, 3);

const LAST_PROTOCOL: (u8, u8) = (2, 0);

const LOW: (u8, u8) = (3, 0);

const FIRST: (u8, u8) = (4, 1);

const FIRST_NAME: (u8, u8) = (5, ME);

const FIELD_NAME: (u8, u8) = (6, 22);

const TAG_NAME: (u8, u8) = (7, 24);

const ARG_LOW: (u8, u8) = (8, 0);

const ARG_NAME: (u8, u8) = (9, ARG);

const GUARD_NODE: (u8, u8) = (10, ME);

const UPDATED: (u8, u8) = (11, 1);

const INDEX_NAME: (u8, u8) = (12, TO);

const ROW: (u8, u8) = (13, 1);

const WIDE: (u8, u8) = (14, 0);

const RECEIVE_NAME: (u8, u8) = (15, FROM);

const COUNTED_TAG: (u8, u8) = (16, 0);

const PART: (u8, u8) = (17, 7);

const COHERENT_NAME: (u8, u8) = (18, 32);

const CORE: (u8, u8) = (19, 0);

const CLIENT: (u8, u8) = (20, 1);

const HOOKED_TAG: (u8, u8) = (21, 0);

const HOOK_ARGS: (u8, u8) = (22, 1);

const HOOK_LABEL: (u8, u8) = (23, 0);

const WORLD_LABEL: (u8, u8) = (24, 1);

const WORLD_HOOK: (u8, u8) = (25, 0);

const WORLD_NAME: (u8, u8) = (26, 30);

const INVARIANT_WORLD: (u8, u8) = (27, 0);

const INVARIANT_LABEL: (u8, u8) = (28, 0);

const BOUND_NAME: (u8, u8) = (29, 31);

const DEPLOYED: (u8, u8) = (30, 0);

const PROGRAMS: (u8, u8) = (31, 1);

const PROCS: (u8, u8) = (32, 2);

const SENT_TAG: (u8, u8) = (33, 0);

const SENT_NAME: (u8, u8) = (34, PARAM);

const AWAITED_TAG: (u8, u8) = (35, 0);

const AWAITED_LABEL: (u8, u8) = (36, 0);

const TARGET: (u8, u8) = (37, GOT);

const READ_FIELD: (u8, u8) = (38, 0);

const TESTED_NAME: (u8, u8) = (39, SENDER);

const NOTED_NAME: (u8, u8) = (40, ME);

const CALLED: (u8, u8) = (41, 0);

const PROC_WORLD: (u8, u8) = (42, 0);

const LOCAL_NAME: (u8, u8) = (43, GOT);

const PROMISED_NAME: (u8, u8) = (44, 7);

const RESULT_NAME: (u8, u8) = (45, SENDER);

const CONSTANT: (u8, u8) = (46, 9);

const NODE: (u8, u8) = (47, 1);

// One place, and what stands there.
#[derive(Clone, Copy)]
struct Change {
    place: u8,
    number: u8,
}

impl Change {
    fn at(self, place: (u8, u8)) -> u8 {
        if self.place == place.0 {
            self.number
        } else {
            place.1
        }
    }

    fn name(self, place: (u8, u8)) -> u32 {
        u32::from(self.at(place))
    }
}

// The value, where what was done to it succeeded.
fn filled<T: Drop>(value: T, outcome: Result<(), AllocError>) -> Result<T, AllocError> {
    match outcome {
        Ok(()) => Ok(value),
        Err(error) => {
            drop(value);
            Err(error)
        }
    }
}

// The field `cast` of a node.
fn cast(alloc: Global, label: Lab, node: u32) -> Result<Term, AllocError> {
    Ok(Term::Field {
        label,
        field: 0,
        node: Boxed::new(alloc, Term::Var(node))?,
    })
}

// Whether the node has cast its vote.
fn has_cast(alloc: Global, label: Lab, node: u32) -> Result<Formula, AllocError> {
    Ok(Formula::Eq(cast(alloc, label, node)?, Term::Num(1)))
}

fn fill_fields(
    fields: &mut Items<FieldDecl>,
    alloc: Global,
    change: Change,
) -> Result<(), AllocError> {
    fields.push(FieldDecl {
        sym: u32::from(CAST),
        row: false,
        sort: Sort {
            low: i64::from(change.at(LOW)),
            high: 1,
        },
        first: Term::Num(i64::from(change.at(FIRST))),
    })?;
    fields.push(FieldDecl {
        sym: change.name(FIELD_NAME),
        row: change.at(ROW) == 1,
        sort: Sort { low: -9, high: 9 },
        first: Term::Var(change.name(FIRST_NAME)),
    })
}

fn product(alloc: Global, left: Term) -> Result<Term, AllocError> {
    let left = Boxed::new(alloc, left)?;
    match Boxed::new(alloc, Term::Var(u32::from(ARG))) {
        Ok(right) => Ok(Term::Mul(left, right)),
        Err(error) => {
            drop(left);
            Err(error)
        }
    }
}

// A term whose bound is below 2^127, or is 2^189.
fn value(alloc: Global, change: Change) -> Result<Term, AllocError> {
    let square = product(alloc, Term::Var(u32::from(ARG)))?;
    if change.at(WIDE) == 0 {
        Ok(square)
    } else {
        product(alloc, square)
    }
}

fn fill_updates(
    updates: &mut Items<Update>,
    alloc: Global,
    change: Change,
) -> Result<(), AllocError> {
    updates.push(Update {
        field: 0,
        index: None,
        value: value(alloc, change)?,
    })?;
    updates.push(Update {
        field: change.at(UPDATED),
        index: Some(Term::Var(change.name(INDEX_NAME))),
        value: Term::Num(1),
    })
}

fn fill_tag(tag: &mut Tag, alloc: Global, change: Change) -> Result<(), AllocError> {
    let sort = Sort {
        low: i64::from(change.at(ARG_LOW)),
        high: 9,
    };
    tag.args.push((change.name(ARG_NAME), sort))?;
    fill_updates(&mut tag.send.updates, alloc, change)?;
    let mut guard = has_cast(alloc, Lab::Own, change.name(GUARD_NODE))?;
    mem::swap(&mut tag.send.guard, &mut guard);
    drop(guard);
    Ok(())
}

// A tag with one argument.
fn tag(alloc: Global, sym: u32, change: Change) -> Result<Tag, AllocError> {
    let guard = Formula::Lt(Term::Var(change.name(RECEIVE_NAME)), Term::Num(9));
    let mut tag = Tag {
        sym,
        args: Items::new(alloc),
        send: Transition {
            guard: Formula::True,
            updates: Items::new(alloc),
        },
        receive: Some(Transition {
            guard,
            updates: Items::new(alloc),
        }),
    };
    let outcome = fill_tag(&mut tag, alloc, change);
    filled(tag, outcome)
}

// In each message of the tag the part is at most itself.
fn of_messages(alloc: Global, change: Change) -> Result<Formula, AllocError> {
    let msg = u32::from(MESSAGE);
    let part = Part::Arg(change.at(PART));
    let body = Formula::Le(Term::Msg { msg, part }, Term::Msg { msg, part });
    Ok(Formula::Each {
        msg,
        label: Lab::Own,
        tag: change.at(COUNTED_TAG),
        body: Boxed::new(alloc, body)?,
    })
}

fn coherence(alloc: Global, change: Change) -> Result<Formula, AllocError> {
    Ok(Formula::All {
        sym: change.name(COHERENT_NAME),
        body: Boxed::new(alloc, of_messages(alloc, change)?)?,
    })
}

fn fill_vote(vote: &mut Protocol, alloc: Global, change: Change) -> Result<(), AllocError> {
    fill_fields(&mut vote.fields, alloc, change)?;
    vote.tags.push(tag(alloc, u32::from(BALLOT), change)?)?;
    vote.tags.push(tag(alloc, change.name(TAG_NAME), change)?)?;
    let mut coherence = Some(coherence(alloc, change)?);
    mem::swap(&mut vote.coherence, &mut coherence);
    drop(coherence);
    Ok(())
}

fn vote(alloc: Global, change: Change) -> Result<Protocol, AllocError> {
    let mut vote = Protocol {
        sym: 20,
        fields: Items::new(alloc),
        tags: Items::new(alloc),
        coherence: None,
    };
    let outcome = fill_vote(&mut vote, alloc, change);
    filled(vote, outcome)
}

// A tag with one argument and no conditions.
fn query_tag(alloc: Global) -> Result<Tag, AllocError> {
    let mut tag = Tag {
        sym: 27,
        args: Items::new(alloc),
        send: Transition {
            guard: Formula::True,
            updates: Items::new(alloc),
        },
        receive: None,
    };
    let outcome = tag.args.push((28, Sort { low: 0, high: 1 }));
    filled(tag, outcome)
}

fn query(alloc: Global) -> Result<Protocol, AllocError> {
    let mut tags = Items::new(alloc);
    tags.push(query_tag(alloc)?)?;
    Ok(Protocol {
        sym: 26,
        fields: Items::new(alloc),
        tags,
        coherence: None,
    })
}

// Three labels: a vote, a query, and another vote.
fn fill_instances(inst: &mut Instances, alloc: Global, change: Change) -> Result<(), AllocError> {
    inst.protocols.push(vote(alloc, change)?)?;
    inst.protocols.push(query(alloc)?)?;
    inst.of.push(0)?;
    inst.of.push(1)?;
    inst.of.push(change.at(LAST_PROTOCOL))
}

fn fill_hooks(hooks: &mut Items<Hook>, alloc: Global, change: Change) -> Result<(), AllocError> {
    let mut hook = Hook {
        sym: 34,
        core: change.at(CORE),
        client: change.at(CLIENT),
        tag: change.at(HOOKED_TAG),
        args: Items::new(alloc),
        formula: has_cast(alloc, Lab::At(change.at(HOOK_LABEL)), u32::from(ME))?,
    };
    let outcome = fill_names(&mut hook.args, u32::from(HOOK_ARG), change.at(HOOK_ARGS));
    hooks.push(filled(hook, outcome)?)
}

// So many names from the first one on.
fn fill_names(names: &mut Items<u32>, first: u32, count: u8) -> Result<(), AllocError> {
    let mut next = first;
    for _ in 0..count {
        names.push(next)?;
        next = next.saturating_add(1);
    }
    Ok(())
}

fn fill_worlds(worlds: &mut Items<World>, alloc: Global, change: Change) -> Result<(), AllocError> {
    let labels = Items::from_slice(alloc, &[0, change.at(WORLD_LABEL), 2])?;
    let hooks = Items::from_slice(alloc, &[change.at(WORLD_HOOK)])?;
    worlds.push(World {
        sym: change.name(WORLD_NAME),
        labels,
        hooks,
    })
}

fn fill_invariants(
    invariants: &mut Items<Invariant>,
    alloc: Global,
    change: Change,
) -> Result<(), AllocError> {
    let sym = change.name(BOUND_NAME);
    let label = match change.at(INVARIANT_LABEL) {
        255 => Lab::Own,
        label => Lab::At(label),
    };
    let body = Boxed::new(alloc, has_cast(alloc, label, sym)?)?;
    invariants.push(Invariant {
        sym: 35,
        world: change.at(INVARIANT_WORLD),
        formula: Formula::All { sym, body },
    })
}

fn fill_programs(
    programs: &mut Items<Program>,
    alloc: Global,
    change: Change,
) -> Result<(), AllocError> {
    for _ in 0..change.at(PROGRAMS) {
        let mut constants = Items::new(alloc);
        constants.push(i64::from(change.at(CONSTANT)))?;
        programs.push(Program {
            node: change.name(NODE),
            proc: 1,
            constants,
        })?;
    }
    Ok(())
}

fn deploy(alloc: Global, change: Change) -> Result<Deploy, AllocError> {
    let mut deploy = Deploy {
        world: change.at(DEPLOYED),
        programs: Items::new(alloc),
    };
    let outcome = fill_programs(&mut deploy.programs, alloc, change);
    filled(deploy, outcome)
}

// The commands of a choice: one that sets a local, and none.
fn choice(alloc: Global, change: Change) -> Result<Command, AllocError> {
    let mut yes = Items::new(alloc);
    yes.push(Command::Set {
        local: change.name(TARGET),
        value: Term::Var(u32::from(PARAM)),
    })?;
    Ok(Command::If {
        test: Formula::Le(Term::Var(change.name(TESTED_NAME)), Term::Num(0)),
        yes,
        no: Items::new(alloc),
    })
}

// A loop that reads the field `cast`.
fn reading(alloc: Global, change: Change) -> Result<Command, AllocError> {
    let mut body = Items::new(alloc);
    body.push(Command::Read {
        note: Formula::True,
        into: u32::from(GOT),
        label: 0,
        field: change.at(READ_FIELD),
        index: None,
    })?;
    let noted = Term::Var(change.name(NOTED_NAME));
    Ok(Command::While {
        test: Formula::Lt(Term::Var(u32::from(SENDER)), Term::Num(0)),
        note: Formula::Le(noted, Term::Num(9)),
        body,
    })
}

fn sending(alloc: Global, change: Change) -> Result<Command, AllocError> {
    let mut args = Items::new(alloc);
    args.push(Term::Var(change.name(SENT_NAME)))?;
    Ok(Command::Send {
        note: Formula::True,
        label: 0,
        tag: change.at(SENT_TAG),
        to: Term::Num(1),
        args,
    })
}

fn awaiting(alloc: Global, change: Change) -> Result<Command, AllocError> {
    let mut args = Items::new(alloc);
    args.push(u32::from(GOT))?;
    Ok(Command::Await {
        note: Formula::True,
        label: change.at(AWAITED_LABEL),
        tag: change.at(AWAITED_TAG),
        sender: u32::from(SENDER),
        args,
    })
}

// A call of the procedure, by default of the first one.
fn calling(alloc: Global, change: Change) -> Result<Command, AllocError> {
    let mut args = Items::new(alloc);
    args.push(Term::Var(u32::from(PARAM)))?;
    Ok(Command::Call {
        note: Formula::True,
        frame: Formula::True,
        into: u32::from(GOT),
        proc: change.at(CALLED),
        args,
    })
}

fn fill_commands(
    commands: &mut Items<Command>,
    alloc: Global,
    change: Change,
    number: u8,
) -> Result<(), AllocError> {
    commands.push(sending(alloc, change)?)?;
    commands.push(awaiting(alloc, change)?)?;
    commands.push(choice(alloc, change)?)?;
    commands.push(reading(alloc, change)?)?;
    if number == 0 {
        return Ok(());
    }
    commands.push(calling(alloc, change)?)
}

fn fill_proc(proc: &mut Proc, alloc: Global, change: Change, number: u8) -> Result<(), AllocError> {
    proc.params
        .push((u32::from(PARAM), Sort { low: 0, high: 9 }))?;
    proc.locals.push(u32::from(SENDER))?;
    proc.locals.push(change.name(LOCAL_NAME))?;
    fill_commands(&mut proc.body, alloc, change, number)
}

fn fill_procs(procs: &mut Items<Proc>, alloc: Global, change: Change) -> Result<(), AllocError> {
    for number in 0..change.at(PROCS) {
        let mut proc = Proc {
            sym: u32::from(number) + 50,
            world: change.at(PROC_WORLD),
            params: Items::new(alloc),
            locals: Items::new(alloc),
            pre: Formula::Le(Term::Var(u32::from(PARAM)), Term::Num(9)),
            post: Formula::Le(Term::Num(0), Term::Var(change.name(PROMISED_NAME))),
            body: Items::new(alloc),
            result: Term::Var(change.name(RESULT_NAME)),
        };
        let outcome = fill_proc(&mut proc, alloc, change, number);
        procs.push(filled(proc, outcome)?)?;
    }
    Ok(())
}

fn fill_file(decls: &mut Decls, alloc: Global, change: Change) -> Result<(), AllocError> {
    fill_instances(&mut decls.inst, alloc, change)?;
    fill_names(&mut decls.labels, 37, change.at(LABEL_NAMES))?;
    fill_hooks(&mut decls.hooks, alloc, change)?;
    fill_worlds(&mut decls.worlds, alloc, change)?;
    fill_invariants(&mut decls.invariants, alloc, change)?;
    fill_procs(&mut decls.procs, alloc, change)?;
    let mut deploy = Some(deploy(alloc, change)?);
    mem::swap(&mut decls.deploy, &mut deploy);
    drop(deploy);
    Ok(())
}

// Whether the file with this change is formed.
fn judged(alloc: Global, place: u8, number: u8) -> Result<bool, AllocError> {
    let change = Change { place, number };
    let mut decls = Decls {
        inst: Instances {
            nodes: change.name(NODES),
            protocols: Items::new(alloc),
            of: Items::new(alloc),
        },
        labels: Items::new(alloc),
        hooks: Items::new(alloc),
        worlds: Items::new(alloc),
        invariants: Items::new(alloc),
        procs: Items::new(alloc),
        deploy: None,
    };
    let formed = match fill_file(&mut decls, alloc, change) {
        Ok(()) => is_formed(alloc, &decls),
        Err(error) => Err(error),
    };
    drop(decls);
    formed
}

// The row's first value is the node, which is at most 9.
#[test]
fn formed_files(rt: HostRuntime) -> Result<(), Fail> {
    let cases = [
        (NODES.0, 2),
        (NODES.0, 10),
        (ROW.0, 1),
        (CLIENT.0, 2),
        (PROGRAMS.0, 0),
    ];
    for (place, number) in cases {
        assert!(rt; judged(rt.alloc(), place, number)?);
    }
    Ok(())
}

#[test]
fn broken_protocols(rt: HostRuntime) -> Result<(), Fail> {
    let cases = [
        (NODES.0, 0),
        (NODES.0, 11),
        (LABEL_NAMES.0, 2),
        (LAST_PROTOCOL.0, 2),
        (LOW.0, 1),
        (FIRST.0, 2),
        (FIRST_NAME.0, TO),
        (FIELD_NAME.0, CAST),
        (FIELD_NAME.0, 17),
        (TAG_NAME.0, BALLOT),
        (ARG_LOW.0, 1),
        (ARG_NAME.0, 17),
        (GUARD_NODE.0, TO),
        (GUARD_NODE.0, FROM),
        (UPDATED.0, 0),
        (UPDATED.0, 2),
        (INDEX_NAME.0, FROM),
        (ROW.0, 0),
        (WIDE.0, 1),
        (RECEIVE_NAME.0, TO),
        (COUNTED_TAG.0, 2),
        (PART.0, 8),
        (COHERENT_NAME.0, MESSAGE),
        (COHERENT_NAME.0, ME),
    ];
    for (place, number) in cases {
        assert!(rt; !judged(rt.alloc(), place, number)?, "{place} {number}");
    }
    Ok(())
}

#[test]
fn broken_worlds(rt: HostRuntime) -> Result<(), Fail> {
    let cases = [
        (CORE.0, 3),
        (CLIENT.0, 3),
        (HOOKED_TAG.0, 1),
        (HOOK_ARGS.0, 2),
        (HOOK_LABEL.0, 2),
        (HOOK_LABEL.0, 1),
        (WORLD_LABEL.0, 3),
        (WORLD_LABEL.0, 0),
        (WORLD_HOOK.0, 1),
        (WORLD_NAME.0, 20),
        (WORLD_NAME.0, 17),
        (INVARIANT_WORLD.0, 1),
        (INVARIANT_LABEL.0, 255),
        (INVARIANT_LABEL.0, 1),
        (BOUND_NAME.0, ARG),
        (BOUND_NAME.0, HOOK_ARG),
        (DEPLOYED.0, 1),
    ];
    for (place, number) in cases {
        assert!(rt; !judged(rt.alloc(), place, number)?, "{place} {number}");
    }
    Ok(())
}

#[test]
fn broken_programs(rt: HostRuntime) -> Result<(), Fail> {
    let cases = [
        (PROGRAMS.0, 2),
        (PROCS.0, 1),
        (SENT_TAG.0, 2),
        (SENT_NAME.0, ARG),
        (AWAITED_TAG.0, 2),
        (AWAITED_LABEL.0, 1),
        (TARGET.0, PARAM),
        (READ_FIELD.0, 1),
        (TESTED_NAME.0, ARG),
        (NOTED_NAME.0, TO),
        (CALLED.0, 1),
        (PROC_WORLD.0, 1),
        (LOCAL_NAME.0, PARAM),
        (PROMISED_NAME.0, GOT),
        (RESULT_NAME.0, ARG),
        (CONSTANT.0, 10),
        (NODE.0, 2),
        (BOUND_NAME.0, SENDER),
    ];
    for (place, number) in cases {
        assert!(rt; !judged(rt.alloc(), place, number)?, "{place} {number}");
    }
    Ok(())
}
