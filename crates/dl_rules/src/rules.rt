//! The rules of names, numbers and constants, by where they stand.

ghost use Rattle.std.specs.Prelude.{◌≡◌, nat_le, is_some};
ghost use Rattle.std.specs.Option.{option_copied};
ghost use Rattle.dl_forms.specs.Context.{is_among, look_up};
ghost use Rattle.dl_forms.specs.Judge.{rule_if};
ghost use Rattle.dl_notation.specs.Environment.{row_of, tag_of};
ghost use Rattle.dl_notation.specs.Obligations.{has_number, is_about, is_point_of};
ghost use Rattle.dl_notation.specs.Rules.{constant_rule, declares, declares_within, in_scope, introduces, is_received, knows, lists, name_rule, number_rule, ◌or_rule◌, supposes, wanted_sort};
ghost use Rattle.dl_notation.specs.Values.{is_outside};
ghost use Rattle.dl_scope.specs.Walked.{environment, points_of};

use dl_notation::{NameRole, NumberRole};
use dl_scope::{
    Procedure, Tag, Text, Walk, is_among, is_node, is_reserved, is_sort, label_named, look_up,
    point_at, procedure_named, protocol_named, row_of, tag_of, value_at,
};
use dl_term::Sort;
use dl_tree::Tree;

/// The rule, where it is broken.
pub fn rule_if(rule: u8, is_broken: bool) -> Option<u8>
    ensures { result ≡ rule_if rule is_broken }
{
    if is_broken { Some(rule) } else { None }
}

/// The smaller rule, where it is broken, or the larger one.
pub(crate) fn or_rule(rule: Option<u8>, later: Option<u8>) -> Option<u8>
    ensures { result ≡ (rule or_rule later) }
{
    match rule {
        Some(rule) => Some(rule),
        None => later,
    }
}

fn knows(is_known: bool) -> Option<u8>
    ensures { result ≡ knows is_known }
{
    rule_if(11, !is_known)
}

fn declares<'a>(walk: &Walk<'a>, text: &Text<'a>) -> Option<u8>
    ensures { result ≡ declares (environment walk.now) text.now }
{
    rule_if(12, is_reserved(text) || walk.declared.contains(text))
}

fn declares_field<'a>(walk: &Walk<'a>, text: &Text<'a>) -> Option<u8>
    ensures { result ≡ declares_within (environment walk.now).own.fields text.now }
{
    rule_if(12, is_reserved(text) || is_own_field(walk, text))
}

fn declares_tag<'a>(walk: &Walk<'a>, text: &Text<'a>) -> Option<u8>
    ensures { result ≡ declares_within (environment walk.now).own.tags text.now }
{
    rule_if(12, is_reserved(text) || is_own_tag(walk, text))
}

/// Whether the item's protocol has a field of this name.
fn is_own_field<'a>(walk: &Walk<'a>, text: &Text<'a>) -> bool
    ensures { result ≡ is_some (look_up text.now (environment walk.now).own.fields) }
{
    let own = &walk.scope.own;
    look_up(text, own.fields.as_slice()).is_some()
}

/// Whether the item's protocol has a tag of this name.
fn is_own_tag<'a>(walk: &Walk<'a>, text: &Text<'a>) -> bool
    ensures { result ≡ is_some (look_up text.now (environment walk.now).own.tags) }
{
    let own = &walk.scope.own;
    look_up(text, own.tags.as_slice()).is_some()
}

/// Whether a variable, a message, a hypothesis or a local has this name.
#[tactic(auto, using(crate::proofs::AmongLemmas::among))]
fn is_in_scope<'a>(walk: &Walk<'a>, text: &Text<'a>) -> bool
    ensures { result ≡ is_among text.now (in_scope (environment walk.now)) }
{
    is_among(text, walk.scope.variables.as_slice())
        || is_among(text, walk.scope.messages.as_slice())
        || is_among(text, walk.scope.hypotheses.as_slice())
        || is_among(text, walk.scope.locals.as_slice())
}

fn supposes<'a>(walk: &Walk<'a>, text: &Text<'a>) -> Option<u8>
    ensures { result ≡ supposes (environment walk.now) text.now }
{
    rule_if(
        13,
        is_reserved(text) || walk.declared.contains(text) || is_in_scope(walk, text),
    )
}

fn introduces<'a>(walk: &Walk<'a>, text: &Text<'a>) -> Option<u8>
    ensures { result ≡ introduces (environment walk.now) text.now }
{
    rule_if(
        13,
        is_reserved(text)
            || walk.declared.contains(text)
            || is_in_scope(walk, text)
            || walk.quantified.contains(text),
    )
}

fn lists<'a>(walk: &Walk<'a>, is_known: bool, text: &Text<'a>) -> Option<u8>
    ensures { result ≡ lists (environment walk.now) is_known text.now }
{
    or_rule(
        knows(is_known),
        rule_if(12, is_among(text, walk.scope.listed.as_slice())),
    )
}

fn is_received(tag: Option<&Tag>) -> bool
    ensures { result ≡ is_received (option_copied tag.entry) }
{
    match tag {
        Some(tag) => tag.is_received,
        None => false,
    }
}

fn is_label<'a>(walk: &Walk<'a>, text: &Text<'a>) -> bool
    ensures { result ≡ is_some (look_up text.now (environment walk.now).labels) }
{
    label_named(walk, text).is_some()
}

fn is_protocol<'a>(walk: &Walk<'a>, text: &Text<'a>) -> bool
    ensures { result ≡ is_some (look_up text.now (environment walk.now).protocols) }
{
    protocol_named(walk, text).is_some()
}

fn is_hook<'a>(walk: &Walk<'a>, text: &Text<'a>) -> bool
    ensures { result ≡ is_some (look_up text.now (environment walk.now).hooks) }
{
    look_up(text, walk.hooks.as_slice()).is_some()
}

fn is_world<'a>(walk: &Walk<'a>, text: &Text<'a>) -> bool
    ensures { result ≡ is_some (look_up text.now (environment walk.now).worlds) }
{
    look_up(text, walk.worlds.as_slice()).is_some()
}

fn is_invariant<'a>(walk: &Walk<'a>, text: &Text<'a>) -> bool
    ensures { result ≡ is_some (look_up text.now (environment walk.now).invariants) }
{
    look_up(text, walk.invariants.as_slice()).is_some()
}

fn is_procedure<'a>(walk: &Walk<'a>, text: &Text<'a>) -> bool
    ensures { result ≡ is_some (look_up text.now (environment walk.now).procedures) }
{
    procedure_named(walk, text).is_some()
}

fn is_local<'a>(walk: &Walk<'a>, text: &Text<'a>) -> bool
    ensures { result ≡ is_among text.now (environment walk.now).locals }
{
    is_among(text, walk.scope.locals.as_slice())
}

fn is_hypothesis<'a>(walk: &Walk<'a>, text: &Text<'a>) -> bool
    ensures { result ≡ is_among text.now (environment walk.now).hypotheses }
{
    is_among(text, walk.scope.hypotheses.as_slice())
}

/// Whether the label just before has a tag of this name.
fn is_tag<'a>(walk: &Walk<'a>, text: &Text<'a>) -> bool
    ensures { result ≡ is_some (tag_of (environment walk.now) (environment walk.now).label text.now) }
{
    tag_of(walk, &walk.scope.label, text).is_some()
}

/// Whether the label just before has a tag of this name whose messages can be received.
fn is_received_tag<'a>(walk: &Walk<'a>, text: &Text<'a>) -> bool
    ensures { result ≡ is_received (tag_of (environment walk.now) (environment walk.now).label text.now) }
{
    is_received(tag_of(walk, &walk.scope.label, text))
}

/// Whether the label just before has a field of this name.
fn is_field<'a>(walk: &Walk<'a>, text: &Text<'a>) -> bool
    ensures { result ≡ is_some (row_of (environment walk.now) (environment walk.now).label text.now) }
{
    row_of(walk, &walk.scope.label, text).is_some()
}

/// Whether there are so many.
pub(crate) fn has(count: usize, there: usize) -> bool
    ensures { result ≡ nat_le count there }
{
    count <= there
}

/// The rule that a name breaks where it stands.
pub fn name_rule<'a>(walk: &Walk<'a>, role: NameRole, text: &Text<'a>) -> Option<u8>
    ensures { result ≡ name_rule (environment walk.now) role text.now }
{
    match role {
        NameRole::NewNode => or_rule(declares(walk, text), rule_if(33, has(16, walk.nodes.len()))),
        NameRole::NewEnumerator => or_rule(
            declares(walk, text),
            rule_if(33, has(256, walk.scope.listed.len())),
        ),
        NameRole::NewSort
        | NameRole::NewProtocol
        | NameRole::NewLabel
        | NameRole::NewHook
        | NameRole::NewWorld
        | NameRole::NewInvariant
        | NameRole::NewProcedure => declares(walk, text),
        NameRole::NewField => declares_field(walk, text),
        NameRole::NewTag => declares_tag(walk, text),
        NameRole::NewArgument
        | NameRole::NewHookArgument
        | NameRole::NewParameter
        | NameRole::NewStepName
        | NameRole::NewOpened => introduces(walk, text),
        NameRole::NewLocal => or_rule(
            introduces(walk, text),
            rule_if(33, has(16, walk.scope.locals.len())),
        ),
        NameRole::NewHypothesis | NameRole::NewLastHypothesis => supposes(walk, text),
        NameRole::Sort => knows(is_sort(walk, text)),
        NameRole::Protocol => knows(is_protocol(walk, text)),
        NameRole::Label | NameRole::Core | NameRole::Client => knows(is_label(walk, text)),
        NameRole::HookTag | NameRole::SentTag | NameRole::StepTag => knows(is_tag(walk, text)),
        NameRole::ReceivedTag => knows(is_received_tag(walk, text)),
        NameRole::ReadField => knows(is_field(walk, text)),
        NameRole::ListedLabel => lists(walk, is_label(walk, text), text),
        NameRole::ListedHook => lists(walk, is_hook(walk, text), text),
        NameRole::UpdatedField => lists(walk, is_own_field(walk, text), text),
        NameRole::Target => lists(walk, is_local(walk, text), text),
        NameRole::DeployedNode => lists(walk, is_node(walk, text), text),
        NameRole::World => knows(is_world(walk, text)),
        NameRole::Invariant => knows(is_invariant(walk, text)),
        NameRole::Callee | NameRole::Procedure => knows(is_procedure(walk, text)),
        NameRole::Node => knows(is_node(walk, text)),
        NameRole::Claimed => knows(is_protocol(walk, text) || is_invariant(walk, text)),
        NameRole::ProtocolTag => knows(is_own_tag(walk, text)),
        NameRole::Hypothesis => knows(is_hypothesis(walk, text)),
        NameRole::Rewritten => knows(text.is(b"goal") || is_hypothesis(walk, text)),
    }
}

/// Whether an obligation of this word belongs to a point of this command.
fn is_about<'a>(obligation: &Text<'a>, command: &Text<'a>) -> bool
    ensures { result ≡ is_about obligation.now command.now }
{
    if obligation.is(b"guard") {
        return command.is(b"send");
    }
    if obligation.is(b"after") {
        return command.is(b"send") || command.is(b"read");
    }
    if obligation.is(b"got") {
        return command.is(b"await") || command.is(b"poll");
    }
    if obligation.is(b"miss") {
        return command.is(b"poll");
    }
    if obligation.is(b"body") || obligation.is(b"exit") {
        return command.is(b"while");
    }
    if obligation.is(b"enter") || obligation.is(b"leave") || obligation.is(b"frame") {
        return command.is(b"call");
    }
    obligation.is(b"stable")
}

fn is_point_of<'a>(obligation: &Text<'a>, point: Option<&Text<'a>>) -> bool
    ensures { result ≡ is_point_of obligation.now (option_copied point.entry) }
{
    match point {
        Some(command) => is_about(obligation, command),
        None => false,
    }
}

/// Whether the points have one of the obligation's kind with this number.
fn has_number<'a>(obligation: &Text<'a>, points: &[Text<'a>], number: i64) -> bool
    ensures { result ≡ has_number obligation.now points.now number }
{
    if number < 0 {
        return false;
    }
    if obligation.is(b"stable") && number == 0 {
        return true;
    }
    is_point_of(obligation, point_at(points, number as usize))
}

/// Whether the procedure has such a point.
fn has_point<'a>(obligation: &Text<'a>, procedure: Option<&Procedure<'a>>, number: i64) -> bool
    ensures { result ≡ has_number obligation.now (points_of (option_copied procedure.entry)) number }
{
    match procedure {
        Some(procedure) => has_number(obligation, procedure.points.as_slice(), number),
        None => has_number(obligation, &[], number),
    }
}

/// The rule that a number breaks where it stands.
pub fn number_rule<'a>(walk: &Walk<'a>, role: NumberRole, tree: &'a Tree) -> Option<u8>
    ensures { result ≡ number_rule (environment walk.now) role tree.now }
{
    match role {
        NumberRole::Point => point_rule(walk, tree),
        NumberRole::Version | NumberRole::Integer | NumberRole::Half => None,
    }
}

/// The rule that the number of a point breaks.
fn point_rule<'a>(walk: &Walk<'a>, tree: &'a Tree) -> Option<u8>
    ensures { result ≡ number_rule (environment walk.now) NumberRole.Point tree.now }
{
    match tree {
        Tree::Num { value, .. } => {
            let procedure = procedure_named(walk, &walk.scope.procedure);
            knows(has_point(&walk.scope.obligation, procedure, *value))
        }
        Tree::Sym { .. } => None,
        Tree::List { .. } => None,
    }
}

/// Whether the sort, where there is one, doesn't hold the value.
pub(crate) fn is_outside(sort: Option<Sort>, value: i128) -> bool
    ensures { result ≡ is_outside sort value }
{
    match sort {
        Some(sort) => {
            let holds = i128::from(sort.low) <= value && value <= i128::from(sort.high);
            !holds
        }
        None => false,
    }
}

/// The sort of the next constant, where one is wanted.
fn wanted_sort(sorts: &[Sort]) -> Option<Sort>
    ensures { result ≡ wanted_sort sorts.now }
{
    match sorts.first() {
        Some(sort) => Some(*sort),
        None => None,
    }
}

/// The rule that a value breaks where the next constant stands.
fn value_rule(walk: &Walk, value: i64) -> Option<u8>
    ensures { result ≡ rule_if 14 (is_outside (wanted_sort (environment walk.now).wanted) value) }
{
    let sort = wanted_sort(walk.scope.wanted.as_slice());
    rule_if(14, is_outside(sort, i128::from(value)))
}

/// The rule that a constant breaks where it stands.
pub fn constant_rule<'a>(walk: &Walk<'a>, tree: &'a Tree) -> Option<u8>
    ensures { result ≡ constant_rule (environment walk.now) tree.now }
{
    match tree {
        Tree::Num { value, .. } => value_rule(walk, *value),
        Tree::Sym { name, .. } => match value_at(&Text::new(name.as_str()), &walk.words) {
            Some(value) => value_rule(walk, value),
            None => Some(11),
        },
        Tree::List { .. } => None,
    }
}
