//! The notation as tables: the forms of each kind of list.

use crate::role::{FormulaRole, ListRole, NameRole, NumberRole, Role, TermRole};

pub(crate) const FILE: [(&[u8], &[Role], Option<Role>); 1] = [(
    b"disel",
    &[
        Role::Number(NumberRole::Version),
        Role::List(ListRole::Nodes),
    ],
    Some(Role::List(ListRole::Item)),
)];

pub(crate) const NODES: [(&[u8], &[Role], Option<Role>); 1] = [(
    b"nodes",
    &[Role::Name(NameRole::NewNode)],
    Some(Role::Name(NameRole::NewNode)),
)];

pub(crate) const ITEM: [(&[u8], &[Role], Option<Role>); 10] = [
    (
        b"sort",
        &[
            Role::Name(NameRole::NewSort),
            Role::List(ListRole::SortBody),
        ],
        None,
    ),
    (
        b"protocol",
        &[Role::Name(NameRole::NewProtocol)],
        Some(Role::List(ListRole::ProtocolPart)),
    ),
    (
        b"label",
        &[
            Role::Name(NameRole::NewLabel),
            Role::Name(NameRole::Protocol),
        ],
        None,
    ),
    (
        b"hook",
        &[
            Role::Name(NameRole::NewHook),
            Role::Name(NameRole::Core),
            Role::Name(NameRole::Client),
            Role::Name(NameRole::HookTag),
            Role::List(ListRole::HookArguments),
            Role::Formula(FormulaRole::Hook),
        ],
        None,
    ),
    (
        b"world",
        &[
            Role::Name(NameRole::NewWorld),
            Role::List(ListRole::WorldLabels),
            Role::List(ListRole::WorldHooks),
        ],
        None,
    ),
    (
        b"world",
        &[
            Role::Name(NameRole::NewWorld),
            Role::List(ListRole::Composition),
        ],
        None,
    ),
    (
        b"invariant",
        &[
            Role::Name(NameRole::NewInvariant),
            Role::Name(NameRole::World),
            Role::Formula(FormulaRole::Invariant),
        ],
        None,
    ),
    (
        b"proc",
        &[
            Role::Name(NameRole::NewProcedure),
            Role::Name(NameRole::World),
            Role::List(ListRole::Parameters),
            Role::List(ListRole::Locals),
            Role::List(ListRole::Precondition),
            Role::List(ListRole::Postcondition),
            Role::List(ListRole::Body),
            Role::List(ListRole::Return),
        ],
        None,
    ),
    (
        b"deploy",
        &[Role::Name(NameRole::World)],
        Some(Role::List(ListRole::Program)),
    ),
    (
        b"proof",
        &[
            Role::List(ListRole::Obligation),
            Role::List(ListRole::StepNames),
            Role::List(ListRole::Script),
        ],
        None,
    ),
];

pub(crate) const SORT_BODY: [(&[u8], &[Role], Option<Role>); 2] = [
    (
        b"range",
        &[
            Role::Number(NumberRole::Integer),
            Role::Number(NumberRole::Integer),
        ],
        None,
    ),
    (b"enum", &[], Some(Role::Name(NameRole::NewEnumerator))),
];

pub(crate) const PROTOCOL_PART: [(&[u8], &[Role], Option<Role>); 5] = [
    (
        b"field",
        &[
            Role::Name(NameRole::NewField),
            Role::Name(NameRole::Sort),
            Role::Term(TermRole::FirstValue),
        ],
        None,
    ),
    (
        b"row",
        &[
            Role::Name(NameRole::NewField),
            Role::Name(NameRole::Sort),
            Role::Term(TermRole::FirstValue),
        ],
        None,
    ),
    (
        b"tag",
        &[
            Role::Name(NameRole::NewTag),
            Role::List(ListRole::Arguments),
            Role::List(ListRole::Send),
        ],
        None,
    ),
    (
        b"tag",
        &[
            Role::Name(NameRole::NewTag),
            Role::List(ListRole::Arguments),
            Role::List(ListRole::Send),
            Role::List(ListRole::Receive),
        ],
        None,
    ),
    (b"coherence", &[Role::Formula(FormulaRole::Coherence)], None),
];

pub(crate) const SEND: [(&[u8], &[Role], Option<Role>); 1] = [(
    b"send",
    &[Role::Formula(FormulaRole::Guard)],
    Some(Role::List(ListRole::Update)),
)];

pub(crate) const RECEIVE: [(&[u8], &[Role], Option<Role>); 1] = [(
    b"receive",
    &[Role::Formula(FormulaRole::Guard)],
    Some(Role::List(ListRole::Update)),
)];

pub(crate) const UPDATE: [(&[u8], &[Role], Option<Role>); 2] = [
    (
        b"set",
        &[
            Role::Name(NameRole::UpdatedField),
            Role::Term(TermRole::Update),
        ],
        None,
    ),
    (
        b"set",
        &[
            Role::Name(NameRole::UpdatedField),
            Role::Term(TermRole::Update),
            Role::Term(TermRole::Update),
        ],
        None,
    ),
];

pub(crate) const WORLD_LABELS: [(&[u8], &[Role], Option<Role>); 1] = [(
    b"labels",
    &[],
    Some(Role::Name(NameRole::ListedLabel)),
)];

pub(crate) const WORLD_HOOKS: [(&[u8], &[Role], Option<Role>); 1] = [(
    b"hooks",
    &[],
    Some(Role::Name(NameRole::ListedHook)),
)];

pub(crate) const COMPOSITION: [(&[u8], &[Role], Option<Role>); 1] = [(
    b"compose",
    &[Role::Name(NameRole::World), Role::Name(NameRole::World)],
    None,
)];

pub(crate) const LOCALS: [(&[u8], &[Role], Option<Role>); 1] = [(
    b"locals",
    &[],
    Some(Role::Name(NameRole::NewLocal)),
)];

pub(crate) const PRECONDITION: [(&[u8], &[Role], Option<Role>); 1] = [(
    b"pre",
    &[Role::Formula(FormulaRole::Precondition)],
    None,
)];

pub(crate) const POSTCONDITION: [(&[u8], &[Role], Option<Role>); 1] = [(
    b"post",
    &[Role::Formula(FormulaRole::Postcondition)],
    None,
)];

pub(crate) const BODY: [(&[u8], &[Role], Option<Role>); 1] = [(
    b"body",
    &[],
    Some(Role::List(ListRole::Command)),
)];

pub(crate) const RETURN: [(&[u8], &[Role], Option<Role>); 1] = [(
    b"return",
    &[Role::Term(TermRole::Expression)],
    None,
)];

pub(crate) const COMMAND: [(&[u8], &[Role], Option<Role>); 9] = [
    (
        b"send",
        &[
            Role::Formula(FormulaRole::Annotation),
            Role::Name(NameRole::Label),
            Role::Name(NameRole::SentTag),
            Role::Term(TermRole::Expression),
        ],
        Some(Role::Term(TermRole::Expression)),
    ),
    (
        b"await",
        &[
            Role::Formula(FormulaRole::Annotation),
            Role::Name(NameRole::Label),
            Role::Name(NameRole::ReceivedTag),
            Role::Name(NameRole::Target),
            Role::List(ListRole::Targets),
        ],
        None,
    ),
    (
        b"poll",
        &[
            Role::Formula(FormulaRole::Annotation),
            Role::Name(NameRole::Target),
            Role::Name(NameRole::Label),
            Role::Name(NameRole::ReceivedTag),
            Role::Name(NameRole::Target),
            Role::List(ListRole::Targets),
        ],
        None,
    ),
    (
        b"read",
        &[
            Role::Formula(FormulaRole::Annotation),
            Role::Name(NameRole::Target),
            Role::Name(NameRole::Label),
            Role::Name(NameRole::ReadField),
        ],
        None,
    ),
    (
        b"read",
        &[
            Role::Formula(FormulaRole::Annotation),
            Role::Name(NameRole::Target),
            Role::Name(NameRole::Label),
            Role::Name(NameRole::ReadField),
            Role::Term(TermRole::Expression),
        ],
        None,
    ),
    (
        b"set",
        &[
            Role::Name(NameRole::Target),
            Role::Term(TermRole::Expression),
        ],
        None,
    ),
    (
        b"if",
        &[
            Role::Formula(FormulaRole::Test),
            Role::List(ListRole::Then),
            Role::List(ListRole::Else),
        ],
        None,
    ),
    (
        b"while",
        &[
            Role::Formula(FormulaRole::Test),
            Role::Formula(FormulaRole::Annotation),
        ],
        Some(Role::List(ListRole::Command)),
    ),
    (
        b"call",
        &[
            Role::Formula(FormulaRole::Annotation),
            Role::Formula(FormulaRole::Frame),
            Role::Name(NameRole::Target),
            Role::Name(NameRole::Callee),
        ],
        Some(Role::Term(TermRole::Expression)),
    ),
];

pub(crate) const THEN: [(&[u8], &[Role], Option<Role>); 1] = [(
    b"then",
    &[],
    Some(Role::List(ListRole::Command)),
)];

pub(crate) const ELSE: [(&[u8], &[Role], Option<Role>); 1] = [(
    b"else",
    &[],
    Some(Role::List(ListRole::Command)),
)];

pub(crate) const OBLIGATION: [(&[u8], &[Role], Option<Role>); 15] = [
    (b"init", &[Role::Name(NameRole::Claimed)], None),
    (
        b"step",
        &[
            Role::Name(NameRole::Protocol),
            Role::Name(NameRole::ProtocolTag),
            Role::Way,
        ],
        None,
    ),
    (
        b"step",
        &[
            Role::Name(NameRole::Invariant),
            Role::Name(NameRole::Label),
            Role::Name(NameRole::StepTag),
            Role::Way,
        ],
        None,
    ),
    (b"start", &[Role::Name(NameRole::Procedure)], None),
    (
        b"guard",
        &[
            Role::Name(NameRole::Procedure),
            Role::Number(NumberRole::Point),
        ],
        None,
    ),
    (
        b"after",
        &[
            Role::Name(NameRole::Procedure),
            Role::Number(NumberRole::Point),
        ],
        None,
    ),
    (
        b"got",
        &[
            Role::Name(NameRole::Procedure),
            Role::Number(NumberRole::Point),
        ],
        None,
    ),
    (
        b"miss",
        &[
            Role::Name(NameRole::Procedure),
            Role::Number(NumberRole::Point),
        ],
        None,
    ),
    (
        b"body",
        &[
            Role::Name(NameRole::Procedure),
            Role::Number(NumberRole::Point),
        ],
        None,
    ),
    (
        b"exit",
        &[
            Role::Name(NameRole::Procedure),
            Role::Number(NumberRole::Point),
        ],
        None,
    ),
    (
        b"enter",
        &[
            Role::Name(NameRole::Procedure),
            Role::Number(NumberRole::Point),
        ],
        None,
    ),
    (
        b"leave",
        &[
            Role::Name(NameRole::Procedure),
            Role::Number(NumberRole::Point),
        ],
        None,
    ),
    (
        b"stable",
        &[
            Role::Name(NameRole::Procedure),
            Role::Number(NumberRole::Point),
            Role::Name(NameRole::Label),
            Role::Name(NameRole::StepTag),
            Role::Way,
        ],
        None,
    ),
    (
        b"frame",
        &[
            Role::Name(NameRole::Procedure),
            Role::Number(NumberRole::Point),
            Role::Name(NameRole::Label),
            Role::Name(NameRole::StepTag),
            Role::Way,
        ],
        None,
    ),
    (b"deploy", &[Role::Name(NameRole::Node)], None),
];

pub(crate) const STEP_NAMES: [(&[u8], &[Role], Option<Role>); 1] = [(
    b"names",
    &[],
    Some(Role::Name(NameRole::NewStepName)),
)];

pub(crate) const SCRIPT: [(&[u8], &[Role], Option<Role>); 19] = [
    (b"by", &[Role::Name(NameRole::Hypothesis)], None),
    (b"close", &[], None),
    (
        b"split",
        &[Role::List(ListRole::Script), Role::List(ListRole::Script)],
        None,
    ),
    (
        b"pick",
        &[Role::Number(NumberRole::Half), Role::List(ListRole::Script)],
        None,
    ),
    (
        b"intro",
        &[
            Role::Name(NameRole::NewHypothesis),
            Role::List(ListRole::Script),
        ],
        None,
    ),
    (
        b"open",
        &[
            Role::Name(NameRole::NewOpened),
            Role::List(ListRole::Script),
        ],
        None,
    ),
    (
        b"give",
        &[Role::Term(TermRole::Given), Role::List(ListRole::Script)],
        None,
    ),
    (
        b"parts",
        &[
            Role::Name(NameRole::Hypothesis),
            Role::Name(NameRole::NewHypothesis),
            Role::Name(NameRole::NewHypothesis),
            Role::List(ListRole::Script),
        ],
        None,
    ),
    (
        b"cases",
        &[
            Role::Name(NameRole::Hypothesis),
            Role::Name(NameRole::NewHypothesis),
            Role::List(ListRole::Script),
            Role::List(ListRole::Script),
        ],
        None,
    ),
    (
        b"apply",
        &[
            Role::Name(NameRole::Hypothesis),
            Role::Name(NameRole::NewLastHypothesis),
            Role::List(ListRole::Script),
            Role::List(ListRole::Script),
        ],
        None,
    ),
    (
        b"inst",
        &[
            Role::Name(NameRole::Hypothesis),
            Role::Term(TermRole::Given),
            Role::Name(NameRole::NewHypothesis),
            Role::List(ListRole::Script),
        ],
        None,
    ),
    (
        b"unpack",
        &[
            Role::Name(NameRole::Hypothesis),
            Role::Name(NameRole::NewOpened),
            Role::Name(NameRole::NewHypothesis),
            Role::List(ListRole::Script),
        ],
        None,
    ),
    (
        b"have",
        &[
            Role::Formula(FormulaRole::Claim),
            Role::Name(NameRole::NewLastHypothesis),
            Role::List(ListRole::Script),
            Role::List(ListRole::Script),
        ],
        None,
    ),
    (
        b"decide",
        &[
            Role::Formula(FormulaRole::Claim),
            Role::Name(NameRole::NewHypothesis),
            Role::List(ListRole::Script),
            Role::List(ListRole::Script),
        ],
        None,
    ),
    (
        b"rewrite",
        &[
            Role::Name(NameRole::Hypothesis),
            Role::Name(NameRole::Rewritten),
            Role::List(ListRole::Script),
        ],
        None,
    ),
    (
        b"reduce",
        &[
            Role::Name(NameRole::Hypothesis),
            Role::Name(NameRole::Rewritten),
            Role::List(ListRole::Script),
        ],
        None,
    ),
    (
        b"range",
        &[
            Role::Term(TermRole::Bounded),
            Role::Name(NameRole::NewHypothesis),
            Role::List(ListRole::Script),
        ],
        None,
    ),
    (b"linear", &[Role::List(ListRole::Certificate)], None),
    (
        b"linear",
        &[
            Role::List(ListRole::Certificate),
            Role::List(ListRole::Certificate),
        ],
        None,
    ),
];

pub(crate) const CERTIFICATE: [(&[u8], &[Role], Option<Role>); 4] = [
    (b"use", &[Role::Name(NameRole::Hypothesis)], None),
    (b"goal", &[], None),
    (
        b"add",
        &[Role::List(ListRole::Multiple)],
        Some(Role::List(ListRole::Multiple)),
    ),
    (
        b"div",
        &[
            Role::Number(NumberRole::Integer),
            Role::List(ListRole::Certificate),
        ],
        None,
    ),
];
