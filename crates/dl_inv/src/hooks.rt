//! The hooks that a send has to meet.

ghost use Rattle.std.specs.Prelude.{◌≡◌, ◌++◌, IfOk, OnOk};
ghost use Rattle.std.specs.List.{flat_map};
ghost use Rattle.dl_term.specs.declared.syntax.Lab.TheVariants.{At};
ghost use Rattle.dl_inv.specs.Joined.{all_of};
ghost use Rattle.dl_inv.specs.Code.{hook_put, hook_said, hooks_put};

use crate::joined::{add_part, join};
use crate::step::in_step;
use dl_model::{Decls, Hook};
use dl_term::{Formula, Lab, Term};
use sqlite_items::{Items, at};
use std::alloc::{AllocError, Global};

// The name of the addressee.
const TO: u32 = 5;

/// A send of a tag at a label, by its terms: the sender, the addressee and the arguments.
#[derive(Clone, Copy)]
pub struct Sending<'a> {
    pub label: u8,
    pub tag: u8,
    pub terms: &'a [Term],
}

// The hook, as it stands in the send.
fn in_send(alloc: Global, send: &Sending, hook: &Hook) -> Result<Formula, AllocError>
    ensures { IfOk result (λ made. made ≡ hook_put (At send.now.label) send.now.terms.now hook.now) }
{
    in_step(
        alloc,
        Lab::At(send.label),
        TO,
        hook.args.as_slice(),
        send.terms,
        &hook.formula,
    )
}

// Adds a hook, where it is one for the send.
fn add_hook(
    alloc: Global,
    parts: &mut Items<Formula>,
    decls: &Decls,
    send: &Sending,
    hook: u8,
) -> Result<(), AllocError>
    ensures { OnOk result (parts.new ≡ parts.old ++ hook_said decls.now send.now hook) }
{
    let Some(declared) = at(decls.hooks.as_slice(), usize::from(hook)) else {
        return Ok(());
    };
    if declared.client != send.label || declared.tag != send.tag {
        return Ok(());
    }
    let formula = in_send(alloc, send, declared)?;
    add_part(parts, formula)
}

fn add_hooks(
    alloc: Global,
    parts: &mut Items<Formula>,
    decls: &Decls,
    send: &Sending,
    hooks: &[u8],
) -> Result<(), AllocError>
    ensures { OnOk result (parts.new ≡ parts.old ++ flat_map (hook_said decls.now send.now) hooks.now) }
{
    for hook in hooks {
        add_hook(alloc, parts, decls, send, *hook)?;
    }
    Ok(())
}

/// The formula that says that the send meets those of the hooks that are for it.
pub fn all_hooks(
    alloc: Global,
    decls: &Decls,
    send: &Sending,
    hooks: &[u8],
) -> Result<Formula, AllocError>
    ensures { IfOk result (λ made. made ≡ all_of (hooks_put decls.now send.now.label send.now.tag send.now.terms.now hooks.now)) }
{
    let mut parts = Items::new(alloc);
    add_hooks(alloc, &mut parts, decls, send, hooks)?;
    join(alloc, &mut parts)
}
