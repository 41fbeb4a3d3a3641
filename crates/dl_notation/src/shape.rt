//! The forms of lists.

ghost use Rattle.std.specs.Prelude.{◌≡◌, None, Some, map, MatchOption};
ghost use Rattle.dl_forms.specs.Judge.{text_of};
ghost use Rattle.dl_notation.specs.Notation.{headless, headed, form_named, has_room};
ghost use Rattle.dl_notation.specs.Trees.{begins_with};
ghost use Rattle.dl_notation.specs.Parts.{role_at};

use crate::role::{ListRole, NameRole, NumberRole, Role};
use crate::tables::{
    BODY, CERTIFICATE, COMMAND, COMPOSITION, ELSE, FILE, ITEM, LOCALS, NODES, OBLIGATION,
    POSTCONDITION, PRECONDITION, PROTOCOL_PART, RECEIVE, RETURN, SCRIPT, SEND, SORT_BODY,
    STEP_NAMES, THEN, UPDATE, WORLD_HOOKS, WORLD_LABELS,
};
use dl_tree::Tree;

/// Whether a form with so many fixed parts has so many parts.
pub fn has_room(fixed: usize, rest: Option<Role>, count: usize) -> bool
    ensures { result ≡ has_room rest fixed count }
{
    match rest {
        Some(_) => fixed <= count,
        None => fixed == count,
    }
}

/// The text of a symbol, or no text.
pub(crate) fn text_of(tree: &Tree) -> &str
    ensures { result.now ≡ text_of tree.now }
{
    match tree {
        Tree::Sym { name, .. } => name.as_str(),
        Tree::Num { .. } => "",
        Tree::List { .. } => "",
    }
}

/// The first form of a table that begins with the word and has so many parts.
fn chosen(
    table: &[(&[u8], &'static [Role], Option<Role>)],
    word: &str,
    count: usize,
) -> Option<(&'static [Role], Option<Role>)>
    ensures { MatchOption result
        (form_named word.now count (map (λ e. (e.0.now, record { fixed = e.1.now; rest = e.2 })) table.now) ≡ None)
        (λ f. form_named word.now count (map (λ e. (e.0.now, record { fixed = e.1.now; rest = e.2 })) table.now) ≡ Some (record { fixed = f.0.now; rest = f.1 })) }
{
    match table.split_first() {
        None => None,
        Some((entry, rest)) => {
            if word.as_bytes() == entry.0 && has_room(entry.1.len(), entry.2, count) {
                Some((entry.1, entry.2))
            } else {
                chosen(rest, word, count)
            }
        }
    }
}

/// The form of a list that begins with a word, where it has so many parts behind the word.
pub fn headed_form(
    list: ListRole,
    word: &str,
    count: usize,
) -> Option<(&'static [Role], Option<Role>)>
    ensures { MatchOption result (form_named word.now count (headed list) ≡ None) (λ f. form_named word.now count (headed list) ≡ Some (record { fixed = f.0.now; rest = f.1 })) }
{
    match list {
        ListRole::File => chosen(&FILE, word, count),
        ListRole::Nodes => chosen(&NODES, word, count),
        ListRole::Item => chosen(&ITEM, word, count),
        ListRole::SortBody => chosen(&SORT_BODY, word, count),
        ListRole::ProtocolPart => chosen(&PROTOCOL_PART, word, count),
        ListRole::Send => chosen(&SEND, word, count),
        ListRole::Receive => chosen(&RECEIVE, word, count),
        ListRole::Update => chosen(&UPDATE, word, count),
        ListRole::WorldLabels => chosen(&WORLD_LABELS, word, count),
        ListRole::WorldHooks => chosen(&WORLD_HOOKS, word, count),
        ListRole::Composition => chosen(&COMPOSITION, word, count),
        ListRole::Locals => chosen(&LOCALS, word, count),
        ListRole::Precondition => chosen(&PRECONDITION, word, count),
        ListRole::Postcondition => chosen(&POSTCONDITION, word, count),
        ListRole::Body => chosen(&BODY, word, count),
        ListRole::Return => chosen(&RETURN, word, count),
        ListRole::Command => chosen(&COMMAND, word, count),
        ListRole::Then => chosen(&THEN, word, count),
        ListRole::Else => chosen(&ELSE, word, count),
        ListRole::Obligation => chosen(&OBLIGATION, word, count),
        ListRole::StepNames => chosen(&STEP_NAMES, word, count),
        ListRole::Script => chosen(&SCRIPT, word, count),
        ListRole::Certificate => chosen(&CERTIFICATE, word, count),
        ListRole::Arguments | ListRole::Argument | ListRole::HookArguments => None,
        ListRole::Parameters | ListRole::Parameter | ListRole::Targets => None,
        ListRole::Program | ListRole::Multiple => None,
    }
}

/// The form of a list that begins with no word.
pub fn headless_form(list: ListRole) -> Option<(&'static [Role], Option<Role>)>
    ensures { MatchOption result (headless list ≡ None) (λ f. headless list ≡ Some (record { fixed = f.0.now; rest = f.1 })) }
{
    match list {
        ListRole::Arguments => Some((&[], Some(Role::List(ListRole::Argument)))),
        ListRole::Argument => Some((
            &[
                Role::Name(NameRole::NewArgument),
                Role::Name(NameRole::Sort),
            ],
            None,
        )),
        ListRole::HookArguments => Some((&[], Some(Role::Name(NameRole::NewHookArgument)))),
        ListRole::Parameters => Some((&[], Some(Role::List(ListRole::Parameter)))),
        ListRole::Parameter => Some((
            &[
                Role::Name(NameRole::NewParameter),
                Role::Name(NameRole::Sort),
            ],
            None,
        )),
        ListRole::Targets => Some((&[], Some(Role::Name(NameRole::Target)))),
        ListRole::Program => Some((
            &[
                Role::Name(NameRole::DeployedNode),
                Role::Name(NameRole::Procedure),
            ],
            Some(Role::Constant),
        )),
        ListRole::Multiple => Some((
            &[
                Role::Number(NumberRole::Integer),
                Role::List(ListRole::Certificate),
            ],
            None,
        )),
        _ => None,
    }
}

/// Whether the tree is a list that begins with the word.
#[tactic(auto, using(crate::proofs::TreeLemmas::trees))]
pub fn begins_with(tree: &Tree, word: &str) -> bool
    ensures { result ≡ begins_with word.now tree.now }
{
    match tree {
        Tree::List { items, .. } => match items.as_slice().first() {
            Some(first) => text_of(first).as_bytes() == word.as_bytes(),
            None => word.is_empty(),
        },
        Tree::Num { .. } => word.is_empty(),
        Tree::Sym { .. } => word.is_empty(),
    }
}

/// What the part with this number has to be.
pub fn role_at(fixed: &[Role], rest: Option<Role>, i: usize) -> Option<Role>
    ensures { result ≡ role_at fixed.now rest i }
{
    match fixed.get(i) {
        Some(role) => Some(*role),
        None => rest,
    }
}
