//! Which names stand for constants.

ghost use Rattle.std.specs.Prelude.{◌≡◌, slice_get};
ghost use Rattle.std.specs.List.{list_all};
ghost use Rattle.dl_term.specs.declared.syntax.Term.{Word, Var};
ghost use Rattle.dl_model.specs.declared.protocol.FieldDecl.{FieldDecl as Field};
ghost use Rattle.dl_model.specs.declared.protocol.Hook.{Hook as HookDecl};
ghost use Rattle.dl_model.specs.declared.file.Invariant.{Invariant as InvariantDecl};
ghost use Rattle.dl_notation.specs.Rules.{other_words};
ghost use Rattle.dl_means.specs.Flags.{flags_of_all};
ghost use Rattle.dl_means.specs.Known.{words_of};
ghost use Rattle.dl_means.specs.Says.{of_some, value_named as named_value, says_term as term_says, says as formula_says, says_update as update_says, says_transition as transition_says, says_tag as tag_says, says_protocol as protocol_says, is_variable as is_variable_term, says_given as given_says, says_rule, says_proc as proc_says, proc_in, variables_in, says_proof as proof_says, says_kind as kind_says, says_item as item_says};

use crate::before::Declared;
use crate::commands::says_proc;
use crate::points::fits_point;
use crate::words::{Words, all_words, words_in};
use dl_file::{File, Item, ItemKind, Proof};
use dl_forms::Names;
use dl_model::{Decls, FieldDecl, Proc, Protocol, Tag, Transition, Update};
use dl_sequent::{Duty, Given, Rule, Script};
use dl_term::{Formula, Term};
use sqlite_items::Items;

/// The value of a name that is a constant.
fn value_named(names: &Names, words: &Words, sym: u32) -> Option<i64>
    ensures { result ≡ named_value names.now (words_of words.now) sym }
{
    match names.text(sym) {
        Some(text) => words.value(text),
        None => None,
    }
}

fn is_word(names: &Names, words: &Words, sym: u32, value: i64) -> bool
    ensures { result ≡ term_says names.now (words_of words.now) (Word sym value) }
{
    match value_named(names, words, sym) {
        Some(named) => value == named,
        None => false,
    }
}

fn is_no_word(names: &Names, words: &Words, sym: u32) -> bool
    ensures { result ≡ term_says names.now (words_of words.now) (Var sym) }
{
    value_named(names, words, sym).is_none()
}

#[tactic(auto, unfolding(dl_term::specs::Syntax::opened))]
pub(crate) fn says_term(names: &Names, words: &Words, term: &Term) -> bool
    ensures { result ≡ term_says names.now (words_of words.now) term.now }
{
    match term {
        Term::Num(_) => true,
        Term::Word { sym, value } => is_word(names, words, *sym, *value),
        Term::Var(sym) => is_no_word(names, words, *sym),
        Term::Field { node, .. } => says_term(names, words, node.get()),
        Term::Row { node, index, .. } => {
            says_term(names, words, node.get()) && says_term(names, words, index.get())
        }
        Term::Len(_) => true,
        Term::Msg { .. } => true,
        Term::Add(a, b) => says_term(names, words, a.get()) && says_term(names, words, b.get()),
        Term::Sub(a, b) => says_term(names, words, a.get()) && says_term(names, words, b.get()),
        Term::Mul(a, b) => says_term(names, words, a.get()) && says_term(names, words, b.get()),
        Term::If(a, b, x, y) => {
            let compared = says_term(names, words, a.get()) && says_term(names, words, b.get());
            let chosen = says_term(names, words, x.get()) && says_term(names, words, y.get());
            compared && chosen
        }
    }
}

#[tactic(auto, unfolding(dl_term::specs::Syntax::opened))]
pub(crate) fn says(names: &Names, words: &Words, formula: &Formula) -> bool
    ensures { result ≡ formula_says names.now (words_of words.now) formula.now }
{
    match formula {
        Formula::True => true,
        Formula::False => true,
        Formula::Eq(a, b) => says_term(names, words, a) && says_term(names, words, b),
        Formula::Lt(a, b) => says_term(names, words, a) && says_term(names, words, b),
        Formula::Le(a, b) => says_term(names, words, a) && says_term(names, words, b),
        Formula::Not(of) => says(names, words, of.get()),
        Formula::And(a, b) => says(names, words, a.get()) && says(names, words, b.get()),
        Formula::Or(a, b) => says(names, words, a.get()) && says(names, words, b.get()),
        Formula::Implies(a, b) => says(names, words, a.get()) && says(names, words, b.get()),
        Formula::All { body, .. } => says(names, words, body.get()),
        Formula::Exists { body, .. } => says(names, words, body.get()),
        Formula::Each { body, .. } => says(names, words, body.get()),
        Formula::Any { body, .. } => says(names, words, body.get()),
    }
}

// ---- declarations

pub(crate) fn says_index(names: &Names, words: &Words, index: &Option<Term>) -> bool
    ensures { result ≡ of_some (term_says names.now (words_of words.now)) index.now }
{
    match index {
        Some(index) => says_term(names, words, index),
        None => true,
    }
}

fn says_update(names: &Names, words: &Words, update: &Update) -> bool
    ensures { result ≡ update_says names.now (words_of words.now) update.now }
{
    says_index(names, words, &update.index) && says_term(names, words, &update.value)
}

fn says_updates(names: &Names, words: &Words, updates: &[Update]) -> bool
    ensures { result ≡ list_all (update_says names.now (words_of words.now)) updates.now }
{
    for update in updates {
        if !says_update(names, words, update) {
            return false;
        }
    }
    true
}

fn says_transition(names: &Names, words: &Words, transition: &Transition) -> bool
    ensures { result ≡ transition_says names.now (words_of words.now) transition.now }
{
    says(names, words, &transition.guard)
        && says_updates(names, words, transition.updates.as_slice())
}

fn says_receive(names: &Names, words: &Words, receive: &Option<Transition>) -> bool
    ensures { result ≡ of_some (transition_says names.now (words_of words.now)) receive.now }
{
    match receive {
        Some(receive) => says_transition(names, words, receive),
        None => true,
    }
}

fn says_tag(names: &Names, words: &Words, tag: &Tag) -> bool
    ensures { result ≡ tag_says names.now (words_of words.now) tag.now }
{
    says_transition(names, words, &tag.send) && says_receive(names, words, &tag.receive)
}

fn says_tags(names: &Names, words: &Words, tags: &[Tag]) -> bool
    ensures { result ≡ list_all (tag_says names.now (words_of words.now)) tags.now }
{
    for tag in tags {
        if !says_tag(names, words, tag) {
            return false;
        }
    }
    true
}

fn says_fields(names: &Names, words: &Words, fields: &[FieldDecl]) -> bool
    ensures { result ≡ list_all (λ (field : Field). term_says names.now (words_of words.now) field.first) fields.now }
{
    for field in fields {
        if !says_term(names, words, &field.first) {
            return false;
        }
    }
    true
}

fn says_coherence(names: &Names, words: &Words, coherence: &Option<Formula>) -> bool
    ensures { result ≡ of_some (formula_says names.now (words_of words.now)) coherence.now }
{
    match coherence {
        Some(coherence) => says(names, words, coherence),
        None => true,
    }
}

fn says_protocol(names: &Names, words: &Words, protocol: &Protocol) -> bool
    ensures { result ≡ protocol_says names.now (words_of words.now) protocol.now }
{
    let fields = says_fields(names, words, protocol.fields.as_slice());
    let tags = says_tags(names, words, protocol.tags.as_slice());
    fields && (tags && says_coherence(names, words, &protocol.coherence))
}

// ---- scripts

#[tactic(auto, unfolding(dl_term::specs::Syntax::opened))]
fn is_variable(term: &Term) -> bool
    ensures { result ≡ is_variable_term term.now }
{
    match term {
        Term::Num(_) => false,
        Term::Word { .. } => false,
        Term::Var(_) => true,
        Term::Field { .. } => false,
        Term::Row { .. } => false,
        Term::Len(_) => false,
        Term::Msg { .. } => false,
        Term::Add(_, _) => false,
        Term::Sub(_, _) => false,
        Term::Mul(_, _) => false,
        Term::If(_, _, _, _) => false,
    }
}

fn says_given(names: &Names, words: &Words, what: &Given) -> bool
    ensures { result ≡ given_says names.now (words_of words.now) what.now }
{
    match what {
        Given::Node(term) => !is_variable(term) && says_term(names, words, term),
        Given::Message(msg) => is_no_word(names, words, *msg),
    }
}

/// Of a script with two sub-scripts, or with none. The others come after it.
#[tactic(auto, unfolding(dl_shown::specs::Opened::scripts))]
fn says_script(names: &Names, words: &Words, script: &Script) -> bool
    ensures { result ≡ says_rule names.now (words_of words.now) script.now.rule }
{
    match &script.rule {
        Rule::By { .. } => true,
        Rule::Close => true,
        Rule::Linear { .. } => true,
        Rule::Split { left, right } => {
            says_script(names, words, left.get()) && says_script(names, words, right.get())
        }
        Rule::Cases { left, right, .. } => {
            says_script(names, words, left.get()) && says_script(names, words, right.get())
        }
        Rule::Apply { first, then, .. } => {
            says_script(names, words, first.get()) && says_script(names, words, then.get())
        }
        Rule::Have {
            formula,
            first,
            then,
            ..
        } => {
            let scripts = says_script(names, words, first.get())
                && says_script(names, words, then.get());
            says(names, words, formula) && scripts
        }
        Rule::Decide {
            formula,
            yes,
            no,
            ..
        } => {
            let scripts = says_script(names, words, yes.get())
                && says_script(names, words, no.get());
            says(names, words, formula) && scripts
        }
        Rule::Pick { then, .. } => says_script(names, words, then.get()),
        Rule::Intro { then, .. } => says_script(names, words, then.get()),
        Rule::Open { then, .. } => says_script(names, words, then.get()),
        Rule::Give { what, then } => {
            says_given(names, words, what) && says_script(names, words, then.get())
        }
        Rule::Parts { then, .. } => says_script(names, words, then.get()),
        Rule::Inst { what, then, .. } => {
            says_given(names, words, what) && says_script(names, words, then.get())
        }
        Rule::Unpack { then, .. } => says_script(names, words, then.get()),
        Rule::Rewrite { then, .. } => says_script(names, words, then.get()),
        Rule::Reduce { then, .. } => says_script(names, words, then.get()),
        Rule::Range { term, then, .. } => {
            says_term(names, words, term) && says_script(names, words, then.get())
        }
    }
}

/// The procedure that an obligation is of.
fn procedure_in(duty: Duty) -> Option<u8>
    ensures { result ≡ proc_in duty }
{
    match duty {
        Duty::InitProtocol { .. } => None,
        Duty::InitInvariant { .. } => None,
        Duty::StepProtocol { .. } => None,
        Duty::StepInvariant { .. } => None,
        Duty::Start { proc } => Some(proc),
        Duty::Guard { proc, .. } => Some(proc),
        Duty::AfterSend { proc, .. } => Some(proc),
        Duty::Got { proc, .. } => Some(proc),
        Duty::Miss { proc, .. } => Some(proc),
        Duty::AfterRead { proc, .. } => Some(proc),
        Duty::Body { proc, .. } => Some(proc),
        Duty::Exit { proc, .. } => Some(proc),
        Duty::Enter { proc, .. } => Some(proc),
        Duty::Leave { proc, .. } => Some(proc),
        Duty::Stable { proc, .. } => Some(proc),
        Duty::Frame { proc, .. } => Some(proc),
        Duty::Deploy { .. } => None,
    }
}

/// Of a script, by the constants that are known in an obligation of this procedure, or of none.
fn says_script_in(
    names: &Names,
    env: &Declared,
    decls: &Decls,
    proc: Option<u8>,
    script: &Script,
) -> bool
    ensures { result ≡ says_rule names.now (other_words (variables_in names.now decls.now proc) env.now.words) script.now.rule }
{
    let words = words_in(names, env, decls, proc);
    says_script(names, &words, script)
}

/// Of a proof. `points` has the points of each procedure.
fn says_proof(
    names: &Names,
    env: &Declared,
    decls: &Decls,
    points: &[Items<bool>],
    proof: &Proof,
) -> bool
    requires { points.now ≡ flags_of_all decls.now.procs }
    ensures { result ≡ proof_says names.now env.now decls.now proof.now }
{
    let proc = procedure_in(proof.duty);
    fits_point(points, proof.duty) && says_script_in(names, env, decls, proc, &proof.script)
}

// ---- items

/// Of a protocol, by all constants that are declared before its item.
fn says_protocol_before(names: &Names, env: &Declared, protocol: &Protocol) -> bool
    ensures { result ≡ protocol_says names.now env.now.words protocol.now }
{
    let words = all_words(names, env);
    says_protocol(names, &words, protocol)
}

/// The same of a formula.
fn says_before(names: &Names, env: &Declared, formula: &Formula) -> bool
    ensures { result ≡ formula_says names.now env.now.words formula.now }
{
    let words = all_words(names, env);
    says(names, &words, formula)
}

/// The same of a procedure.
fn says_proc_before(names: &Names, env: &Declared, proc: &Proc) -> bool
    ensures { result ≡ proc_says names.now env.now.words proc.now }
{
    let words = all_words(names, env);
    says_proc(names, &words, proc)
}

fn says_protocol_at(names: &Names, env: &Declared, file: &File, at: usize) -> bool
    ensures { result ≡ of_some (protocol_says names.now env.now.words) (slice_get file.now.decls.inst.protocols at) }
{
    match file.decls.inst.protocols.get(at) {
        Some(protocol) => says_protocol_before(names, env, protocol),
        None => true,
    }
}

fn says_hook_at(names: &Names, env: &Declared, file: &File, at: usize) -> bool
    ensures { result ≡ of_some (λ (hook : HookDecl). formula_says names.now env.now.words hook.formula) (slice_get file.now.decls.hooks at) }
{
    match file.decls.hooks.get(at) {
        Some(hook) => says_before(names, env, &hook.formula),
        None => true,
    }
}

fn says_invariant_at(names: &Names, env: &Declared, file: &File, at: usize) -> bool
    ensures { result ≡ of_some (λ (invariant : InvariantDecl). formula_says names.now env.now.words invariant.formula) (slice_get file.now.decls.invariants at) }
{
    match file.decls.invariants.get(at) {
        Some(invariant) => says_before(names, env, &invariant.formula),
        None => true,
    }
}

fn says_procedure_at(names: &Names, env: &Declared, file: &File, at: usize) -> bool
    ensures { result ≡ of_some (proc_says names.now env.now.words) (slice_get file.now.decls.procs at) }
{
    match file.decls.procs.get(at) {
        Some(proc) => says_proc_before(names, env, proc),
        None => true,
    }
}

fn says_proof_at(
    names: &Names,
    env: &Declared,
    file: &File,
    points: &[Items<bool>],
    at: usize,
) -> bool
    requires { points.now ≡ flags_of_all file.now.decls.procs }
    ensures { result ≡ of_some (proof_says names.now env.now file.now.decls) (slice_get file.now.proofs at) }
{
    match file.proofs.get(at) {
        Some(proof) => says_proof(names, env, &file.decls, points, proof),
        None => true,
    }
}

/// Whether the names of an item stand for constants exactly where those are declared before it. `points` has the points
/// of each procedure of the file.
pub(crate) fn says_item(
    names: &Names,
    env: &Declared,
    file: &File,
    points: &[Items<bool>],
    item: &Item,
) -> bool
    requires { points.now ≡ flags_of_all file.now.decls.procs }
    ensures { result ≡ item_says names.now env.now file.now item.now }
{
    let at = item.at as usize;
    match item.kind {
        ItemKind::Sort => true,
        ItemKind::Protocol => says_protocol_at(names, env, file, at),
        ItemKind::Label => true,
        ItemKind::Hook => says_hook_at(names, env, file, at),
        ItemKind::World => true,
        ItemKind::Invariant => says_invariant_at(names, env, file, at),
        ItemKind::Procedure => says_procedure_at(names, env, file, at),
        ItemKind::Deploy => true,
        ItemKind::Proof => says_proof_at(names, env, file, points, at),
    }
}
