//! The constants that a place knows.

ghost use Rattle.std.specs.Prelude.{◌≡◌, ◌++◌, map, slice_get, Some};
ghost use Rattle.std.specs.Option.{option_copied};
ghost use Rattle.dl_model.specs.Lookup.{arg_names};
ghost use Rattle.dl_forms.specs.Context.{is_among, look_up};
ghost use Rattle.dl_forms.specs.Scope.{text_at};
ghost use Rattle.dl_notation.specs.Rules.{other_words};
ghost use Rattle.dl_means.specs.Says.{variables_in};
ghost use Rattle.dl_means.specs.Known.{hidden_in, words_of};

use crate::before::Declared;
use dl_forms::{Names, has_text};
use dl_model::{Decls, Proc};
use dl_term::Sort;
use dl_tree::Name;

/// The constants that are declared before an item, but for those whose names are variables there.
#[derive(Drop)]
pub(crate) struct Words<'a> {
    pub(crate) names: &'a Names,
    pub(crate) declared: &'a Declared,
    /// The parameters and the locals of a procedure. They hide the constants of their names.
    pub(crate) params: &'a [(u32, Sort)],
    pub(crate) locals: &'a [u32],
}

/// Whether the text is the name of a parameter.
fn is_parameter(names: &Names, params: &[(u32, Sort)], text: &Name) -> bool
    ensures { result ≡ is_among text.now (map (text_at names.now) (arg_names params.now)) }
{
    for param in params {
        if has_text(names, param.0, text) {
            return true;
        }
    }
    false
}

/// Whether the text is the name of a local.
fn is_local(names: &Names, locals: &[u32], text: &Name) -> bool
    ensures { result ≡ is_among text.now (map (text_at names.now) locals.now) }
{
    for local in locals {
        if has_text(names, *local, text) {
            return true;
        }
    }
    false
}

impl<'a> Words<'a> {
    /// Whether the text is the name of a variable.
    fn hides(&self, text: &Name) -> bool
        ensures { result ≡ is_among text.now (hidden_in self.now) }
    {
        is_parameter(self.names, self.params, text) || is_local(self.names, self.locals, text)
    }

    /// The value of a constant.
    pub(crate) fn value(&self, text: &Name) -> Option<i64>
        ensures { result ≡ look_up text.now (words_of self.now) }
    {
        if self.hides(text) {
            None
        } else {
            self.declared.word(text)
        }
    }
}

/// All constants that are declared before an item.
pub(crate) fn all_words<'a>(names: &'a Names, declared: &'a Declared) -> Words<'a>
    ensures { words_of result ≡ declared.now.words }
{
    Words {
        names,
        declared,
        params: &[],
        locals: &[],
    }
}

/// All but those that the parameters and the locals of the procedure hide.
fn words_of_proc<'a>(names: &'a Names, declared: &'a Declared, proc: &'a Proc) -> Words<'a>
    ensures { words_of result ≡ other_words (map (text_at names.now) (arg_names proc.now.params ++ proc.now.locals)) declared.now.words }
{
    Words {
        names,
        declared,
        params: proc.params.as_slice(),
        locals: proc.locals.as_slice(),
    }
}

fn proc_numbered(decls: &Decls, at: u8) -> Option<&Proc>
    ensures { option_copied result ≡ slice_get decls.now.procs at }
{
    decls.procs.get(usize::from(at))
}

fn words_at<'a>(names: &'a Names, declared: &'a Declared, decls: &'a Decls, at: u8) -> Words<'a>
    ensures { words_of result ≡ other_words (variables_in names.now decls.now (Some at)) declared.now.words }
{
    match proc_numbered(decls, at) {
        Some(proc) => words_of_proc(names, declared, proc),
        None => all_words(names, declared),
    }
}

/// The constants that are known in the script of an obligation of this procedure, or of none.
pub(crate) fn words_in<'a>(
    names: &'a Names,
    declared: &'a Declared,
    decls: &'a Decls,
    proc: Option<u8>,
) -> Words<'a>
    ensures { words_of result ≡ other_words (variables_in names.now decls.now proc) declared.now.words }
{
    match proc {
        Some(at) => words_at(names, declared, decls, at),
        None => all_words(names, declared),
    }
}
