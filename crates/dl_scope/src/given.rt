//! What an obligation gives to its proof.

ghost use Rattle.std.specs.Prelude.{◌≡◌, ◌≤◌, ◌++◌, ◌∷◌, [], false, true, replicate, codes, length, take, unwrap_or, OnOk};
ghost use Rattle.std.specs.Option.{option_copied};
ghost use Rattle.dl_forms.specs.Context.{look_up};
ghost use Rattle.dl_notation.specs.Environment.{no_protocol};
ghost use Rattle.dl_notation.specs.Obligations.{before, given_by, in_procedure, is_receive, is_send_point, no_procedure, nothing_given, of_invariant, of_point, of_procedure, of_protocol, of_step, own_of, point_hypotheses, point_names, result_of, step_hypotheses, step_names, number_in, point_at};
ghost use Rattle.dl_notation.specs.Worlds.{world_named};
ghost use Rattle.dl_scope.specs.Walked.{environment, procedure_given};

use crate::declared::{Given, Procedure, Protocol, Tag};
use crate::known::{procedure_named, protocol_named, tag_of};
use crate::names::{add_all, look_up, text_of};
use crate::text::Text;
use crate::walk::Walk;
use crate::worlds::{add_facts_before, add_facts_of};
use dl_tree::Tree;
use sqlite_items::Items;
use std::alloc::{AllocError, Global};

impl<'a> Given<'a> {
    /// Nothing.
    pub fn empty(alloc: Global) -> Given<'a>
        ensures { result ≡ nothing_given }
    {
        Given {
            variables: Items::new(alloc),
            hypotheses: Items::new(alloc),
            named: Items::new(alloc),
        }
    }
}

/// Adds a word. Its only error is want of memory.
fn add_word<'a>(texts: &mut Items<Text<'a>>, word: &'static str) -> Result<(), AllocError>
    ensures { OnOk result (texts.new ≡ texts.old ++ word.now ∷ []) }
{
    texts.push(Text::new(word))
}

fn is_receive(way: &Text) -> bool
    ensures { result ≡ is_receive way.now }
{
    way.is(b"receive")
}

/// Adds names that are no messages. Its only error is want of memory.
fn add_plain_names(named: &mut Items<bool>, count: usize) -> Result<(), AllocError>
    ensures { OnOk result (named.new ≡ named.old ++ replicate count false) }
{
    for _i in 0..count {
        named.push(false)?;
    }
    Ok(())
}

/// Adds the names of a step. Its only error is want of memory.
fn add_step_names(named: &mut Items<bool>, way: &Text, tag: Option<&Tag>) -> Result<(), AllocError>
    requires { named.old ≡ [] }
    ensures { OnOk result (named.new ≡ step_names way.now (option_copied tag.entry)) }
{
    let Some(tag) = tag else {
        return Ok(());
    };
    named.push(false)?;
    if is_receive(way) {
        return named.push(true);
    }
    named.push(false)?;
    add_plain_names(named, tag.arguments)
}

/// Adds the hypotheses of a step. Its only error is want of memory.
fn add_step_hypotheses<'a>(
    texts: &mut Items<Text<'a>>,
    way: &Text<'a>,
    in_world: bool,
) -> Result<(), AllocError>
    ensures { OnOk result (texts.new ≡ texts.old ++ step_hypotheses way.now in_world) }
{
    add_word(texts, "guard")?;
    add_word(texts, "fits")?;
    if is_receive(way) {
        return add_word(texts, "mine");
    }
    if in_world {
        return add_word(texts, "hooks");
    }
    Ok(())
}

/// A tag of the protocol, where both are known.
fn tag_named<'x, 'a>(protocol: Option<&'x Protocol<'a>>, tag: &Text<'a>) -> Option<&'x Tag>
    ensures { option_copied result ≡ look_up tag.now (unwrap_or (option_copied protocol.entry) no_protocol).tags }
{
    match protocol {
        Some(protocol) => look_up(tag, protocol.tags.as_slice()),
        None => None,
    }
}

/// What the proof of a protocol's step knows. Its only error is want of memory.
fn give_protocol_step<'a>(
    walk: &Walk<'a>,
    given: &mut Given<'a>,
    protocol: &Text<'a>,
    tag: &Text<'a>,
    way: &Text<'a>,
) -> Result<(), AllocError>
    requires { given.old ≡ nothing_given }
    ensures { OnOk result (given.new ≡ of_protocol (environment walk.now) protocol.now tag.now way.now) }
{
    add_word(&mut given.hypotheses, "self")?;
    add_step_hypotheses(&mut given.hypotheses, way, false)?;
    let tag = tag_named(protocol_named(walk, protocol), tag);
    add_step_names(&mut given.named, way, tag)
}

/// How many invariants stand before the named one.
fn count_before<'a>(name: &Text<'a>, invariants: &[(Text<'a>, Text<'a>)]) -> usize
    ensures within { result ≤ length invariants.now }
    ensures before { before name.now invariants.now ≡ take result invariants.now }
{
    for (i, invariant) in invariants.iter().enumerate() {
        if *name == invariant.0 {
            return i;
        }
    }
    invariants.len()
}

/// The world of an invariant, or no text.
fn invariant_world<'a>(walk: &Walk<'a>, invariant: &Text<'a>) -> Text<'a>
    ensures { result ≡ unwrap_or (look_up invariant.now (environment walk.now).invariants) [] }
{
    match look_up(invariant, walk.invariants.as_slice()) {
        Some(world) => world.copy(),
        None => Text::new(""),
    }
}

/// What the proof of an invariant's step knows. Its only error is want of memory.
fn give_invariant_step<'a>(
    walk: &Walk<'a>,
    alloc: Global,
    given: &mut Given<'a>,
    invariant: &Text<'a>,
    label: &Text<'a>,
    tag: &Text<'a>,
    way: &Text<'a>,
) -> Result<(), AllocError>
    requires { given.old ≡ nothing_given }
    ensures { OnOk result (given.new ≡ of_invariant (environment walk.now) invariant.now (world_named (environment walk.now) (unwrap_or (look_up invariant.now (environment walk.now).invariants) [])) label.now tag.now way.now) }
{
    let world = invariant_world(walk, invariant);
    let invariants = walk.invariants.as_slice();
    let count = count_before(invariant, invariants);
    add_facts_before(
        walk,
        alloc,
        &world,
        &invariants[..count],
        &mut given.hypotheses,
    )?;
    given.hypotheses.push(invariant.copy())?;
    add_step_hypotheses(&mut given.hypotheses, way, true)?;
    add_step_names(&mut given.named, way, tag_of(walk, label, tag))
}

/// What the proof of a step knows. Its only error is want of memory.
fn give_step<'a>(
    walk: &Walk<'a>,
    alloc: Global,
    given: &mut Given<'a>,
    parts: &'a [Tree],
) -> Result<(), AllocError>
    requires { given.old ≡ nothing_given }
    ensures { OnOk result (given.new ≡ of_step (environment walk.now) parts.now) }
{
    match parts {
        [protocol, tag, way] => {
            give_protocol_step(
                walk,
                given,
                &text_of(protocol),
                &text_of(tag),
                &text_of(way),
            )
        }
        [invariant, label, tag, way] => {
            give_invariant_step(
                walk,
                alloc,
                given,
                &text_of(invariant),
                &text_of(label),
                &text_of(tag),
                &text_of(way),
            )
        }
        _ => Ok(()),
    }
}

/// Adds the variables of a procedure. Its only error is want of memory.
fn add_variables<'a>(
    procedure: Option<&Procedure<'a>>,
    variables: &mut Items<Text<'a>>,
) -> Result<(), AllocError>
    requires { variables.old ≡ [] }
    ensures { OnOk result (variables.new ≡ codes "me" ∷ (unwrap_or (option_copied procedure.entry) no_procedure).parameters ++ (unwrap_or (option_copied procedure.entry) no_procedure).locals) }
{
    add_word(variables, "me")?;
    match procedure {
        Some(procedure) => {
            add_all(variables, procedure.parameters.as_slice())?;
            add_all(variables, procedure.locals.as_slice())
        }
        None => Ok(()),
    }
}

/// The world of a procedure, or no text.
fn procedure_world<'a>(procedure: Option<&Procedure<'a>>) -> Text<'a>
    ensures { result ≡ (unwrap_or (option_copied procedure.entry) no_procedure).world }
{
    match procedure {
        Some(procedure) => procedure.world.copy(),
        None => Text::new(""),
    }
}

/// A procedure's variables and the facts of its world. Its only error is want of memory.
fn give_procedure<'a>(
    walk: &Walk<'a>,
    alloc: Global,
    given: &mut Given<'a>,
    procedure: Option<&Procedure<'a>>,
) -> Result<(), AllocError>
    requires { given.old ≡ nothing_given }
    ensures { OnOk result (given.new ≡ procedure_given (environment walk.now) (unwrap_or (option_copied procedure.entry) no_procedure)) }
{
    add_variables(procedure, &mut given.variables)?;
    let world = procedure_world(procedure);
    add_facts_of(walk, alloc, &world, &mut given.hypotheses)
}

/// Adds the hypotheses of an obligation of a point. Its only error is want of memory.
fn add_point_hypotheses<'a>(
    texts: &mut Items<Text<'a>>,
    word: &Text<'a>,
    at_send: bool,
) -> Result<(), AllocError>
    ensures { OnOk result (texts.new ≡ texts.old ++ point_hypotheses word.now at_send) }
{
    if word.is(b"after") {
        add_word(texts, "pre")?;
        return if at_send {
            add_word(texts, "guard")
        } else {
            Ok(())
        };
    }
    if word.is(b"got") {
        add_word(texts, "pre")?;
        add_word(texts, "mine")?;
        add_word(texts, "guard")?;
        return add_word(texts, "fits");
    }
    if word.is(b"body") || word.is(b"exit") {
        add_word(texts, "pre")?;
        return add_word(texts, "test");
    }
    if word.is(b"leave") {
        add_word(texts, "post")?;
        return add_word(texts, "frame");
    }
    add_word(texts, "pre")
}

/// Adds the names of an obligation of a point. Its only error is want of memory.
fn add_point_names(named: &mut Items<bool>, word: &Text) -> Result<(), AllocError>
    requires { named.old ≡ [] }
    ensures { OnOk result (named.new ≡ point_names word.now) }
{
    if word.is(b"got") {
        return named.push(true);
    }
    if word.is(b"leave") {
        return named.push(false);
    }
    Ok(())
}

/// Whether the point with this number is a send.
fn is_send_point(points: &[Text], number: i64) -> bool
    ensures { result ≡ is_send_point points.now number }
{
    if number < 0 {
        return false;
    }
    match point_at(points, number as usize) {
        Some(command) => command.is(b"send"),
        None => false,
    }
}

/// Whether the procedure has a send as the point with this number.
fn is_send_of(procedure: Option<&Procedure>, number: i64) -> bool
    ensures { result ≡ is_send_point (unwrap_or (option_copied procedure.entry) no_procedure).points number }
{
    match procedure {
        Some(procedure) => is_send_point(procedure.points.as_slice(), number),
        None => is_send_point(&[], number),
    }
}

/// What the proof of a point's obligation knows. Its only error is want of memory.
fn give_point<'a>(
    walk: &Walk<'a>,
    alloc: Global,
    given: &mut Given<'a>,
    word: &Text<'a>,
    procedure: Option<&Procedure<'a>>,
    number: i64,
) -> Result<(), AllocError>
    requires { given.old ≡ nothing_given }
    ensures { OnOk result (given.new ≡ of_procedure (environment walk.now) (unwrap_or (option_copied procedure.entry) no_procedure) [] (point_hypotheses word.now (is_send_point (unwrap_or (option_copied procedure.entry) no_procedure).points number)) (point_names word.now)) }
{
    give_procedure(walk, alloc, given, procedure)?;
    let at_send = is_send_of(procedure, number);
    add_point_hypotheses(&mut given.hypotheses, word, at_send)?;
    add_point_names(&mut given.named, word)
}

/// Adds the variable `result`, where the number is 0. Its only error is want of memory.
fn add_result<'a>(variables: &mut Items<Text<'a>>, number: i64) -> Result<(), AllocError>
    ensures { OnOk result (variables.new ≡ variables.old ++ result_of number) }
{
    if number == 0 {
        return add_word(variables, "result");
    }
    Ok(())
}

/// What the proof knows that another node's step keeps a point's formula. Its only error is want of memory.
fn give_stable<'a>(
    walk: &Walk<'a>,
    alloc: Global,
    given: &mut Given<'a>,
    procedure: Option<&Procedure<'a>>,
    number: i64,
    way: &Text<'a>,
    tag: Option<&Tag>,
) -> Result<(), AllocError>
    requires { given.old ≡ nothing_given }
    ensures { OnOk result (given.new ≡ of_procedure (environment walk.now) (unwrap_or (option_copied procedure.entry) no_procedure) (result_of number) (codes "pre" ∷ codes "other" ∷ step_hypotheses way.now true) (step_names way.now (option_copied tag.entry))) }
{
    give_procedure(walk, alloc, given, procedure)?;
    add_result(&mut given.variables, number)?;
    add_word(&mut given.hypotheses, "pre")?;
    add_word(&mut given.hypotheses, "other")?;
    add_step_hypotheses(&mut given.hypotheses, way, true)?;
    add_step_names(&mut given.named, way, tag)
}

/// What the proof of a procedure's obligation knows, by the parts behind the procedure. Its only error is want
/// of memory.
fn give_in_procedure<'a>(
    walk: &Walk<'a>,
    alloc: Global,
    given: &mut Given<'a>,
    word: &Text<'a>,
    procedure: Option<&Procedure<'a>>,
    parts: &'a [Tree],
) -> Result<(), AllocError>
    requires { given.old ≡ nothing_given }
    ensures { OnOk result (given.new ≡ in_procedure (environment walk.now) word.now (unwrap_or (option_copied procedure.entry) no_procedure) parts.now) }
{
    match parts {
        [] => {
            give_procedure(walk, alloc, given, procedure)?;
            add_word(&mut given.hypotheses, "pre")
        }
        [_] => give_point(walk, alloc, given, word, procedure, number_in(parts)),
        [_, label, tag, way] => {
            let number = number_in(&parts[..1]);
            let tag = tag_of(walk, &text_of(label), &text_of(tag));
            give_stable(walk, alloc, given, procedure, number, &text_of(way), tag)
        }
        _ => Ok(()),
    }
}

/// What the proof of a procedure's obligation knows. Its only error is want of memory.
fn give_of_point<'a>(
    walk: &Walk<'a>,
    alloc: Global,
    given: &mut Given<'a>,
    word: &Text<'a>,
    parts: &'a [Tree],
) -> Result<(), AllocError>
    requires { given.old ≡ nothing_given }
    ensures { OnOk result (given.new ≡ of_point (environment walk.now) word.now parts.now) }
{
    match parts.split_first() {
        None => Ok(()),
        Some((procedure, parts)) => {
            let procedure = procedure_named(walk, &text_of(procedure));
            give_in_procedure(walk, alloc, given, word, procedure, parts)
        }
    }
}

/// What the proof of an obligation knows. Its only error is want of memory.
pub fn give<'a>(
    walk: &Walk<'a>,
    alloc: Global,
    given: &mut Given<'a>,
    word: &Text<'a>,
    parts: &'a [Tree],
) -> Result<(), AllocError>
    requires { given.old ≡ nothing_given }
    ensures { OnOk result (given.new ≡ given_by (environment walk.now) word.now parts.now) }
{
    if word.is(b"init") || word.is(b"deploy") {
        return Ok(());
    }
    if word.is(b"step") {
        return give_step(walk, alloc, given, parts);
    }
    give_of_point(walk, alloc, given, word, parts)
}

/// The protocol that `self` stands for in the obligation, where there is one.
pub fn own_of<'x, 'a>(
    walk: &'x Walk<'a>,
    word: &Text<'a>,
    parts: &'a [Tree],
) -> Option<&'x Protocol<'a>>
    ensures { option_copied result ≡ own_of (environment walk.now) word.now parts.now }
{
    match parts {
        [name] => {
            if word.is(b"init") {
                protocol_named(walk, &text_of(name))
            } else {
                None
            }
        }
        [name, _, _] => {
            if word.is(b"step") {
                protocol_named(walk, &text_of(name))
            } else {
                None
            }
        }
        _ => None,
    }
}

/// The first number among the parts, or 0.
pub fn number_in(parts: &[Tree]) -> i64
    ensures { result ≡ number_in parts.now }
{
    for part in parts {
        if let Tree::Num { value, .. } = part {
            return *value;
        }
    }
    0
}

/// The command of the point with this number, from 1 on.
pub fn point_at<'x, 'a>(points: &'x [Text<'a>], number: usize) -> Option<&'x Text<'a>>
    ensures { option_copied result ≡ point_at points.now number }
{
    if number == 0 {
        return None;
    }
    points.get(number - 1)
}
