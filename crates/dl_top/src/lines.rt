//! The lines that the program writes.

ghost use Rattle.std.specs.Prelude.{◌≡◌, ◌++◌, IfOk, OnOk, string_bytes};
ghost use Rattle.dl_top.specs.Lines.{accepted_line as line_of_counts, refusal_line as line_of_refusal, rule_name as name_of_rule, named_line, with_count};

use dl_file::Accepted;
use dl_tree::{Place, Tree, write_tree};
use std::alloc::{AllocError, Global};

/// What is written where the words name no command.
pub(crate) const USAGE: &str =
    "usage: disel check | show | run [--serial] [--budget B] [--order oldest|newest|seed:S] | gen K [--sum]\n";

/// What is written where the source failed.
pub(crate) const READ_FAULT: &str = "fault read\n";

/// What is written where the text is longer than 1,048,576 bytes.
pub(crate) const TOO_LONG: &str = "refused text longer than 1048576\n";

/// The name of a rule of refusals.
fn rule_name(rule: u8) -> &'static str
    ensures { result.now ≡ name_of_rule rule }
{
    match rule {
        1 => "BadByte",
        2 => "BadToken",
        3 => "Unclosed",
        4 => "Stray",
        5 => "Deep",
        6 => "BigNumber",
        10 => "BadForm",
        11 => "Unknown",
        12 => "Twice",
        13 => "Shadow",
        14 => "BadSort",
        15 => "Arity",
        16 => "Wide",
        20 => "NoLabel",
        21 => "HookCoreMissing",
        22 => "HookNotCovered",
        23 => "FrameTouches",
        24 => "InvariantOutside",
        30 => "NoScript",
        31 => "ExtraScript",
        32 => "RuleFails",
        33 => "Limit",
        _ => "Unknown",
    }
}

/// Appends what is named in a refusal, with a blank in front.
fn add_named(alloc: Global, line: &mut Vec<u8>, what: &Option<Tree>) -> Result<(), AllocError>
    ensures { OnOk result (line.new.items ≡ line.old.items ++ named_line what.now) }
{
    match what {
        None => Ok(()),
        Some(tree) => {
            let named = write_tree(alloc, tree)?;
            line.push(b' ')?;
            line.extend_from_slice(named.as_slice())
        }
    }
}

/// The line of a refusal: the number of the rule, its name, the place, and what is named there,
/// with a blank in front.
pub(crate) fn refusal_line(
    alloc: Global,
    rule: u8,
    place: Place,
    what: &Option<Tree>,
) -> Result<Vec<u8>, AllocError>
    ensures { IfOk result (λ line. line.items ≡ line_of_refusal rule place what.now) }
{
    let name = rule_name(rule);
    let row = place.line;
    let col = place.col;
    let head = format!(in alloc; "refused {rule} {name} {row}:{col}")?;
    let mut line = Vec::new(alloc);
    line.extend_from_slice(head.as_str().as_bytes())?;
    add_named(alloc, &mut line, what)?;
    line.push(b'\n')?;
    Ok(line)
}

/// Appends a word and a number.
fn add_count(line: &mut String, label: &str, count: u32) -> Result<(), AllocError>
    ensures { OnOk result (string_bytes line.new ≡ with_count (string_bytes line.old) label.now count) }
{
    write!(line, "{label}{count}")
}

/// The line of an accepted file.
pub(crate) fn accepted_line(alloc: Global, accepted: &Accepted) -> Result<String, AllocError>
    ensures { IfOk result (λ line. string_bytes line ≡ line_of_counts accepted.now) }
{
    let mut line = String::new(alloc);
    add_count(&mut line, "accepted nodes ", accepted.nodes)?;
    add_count(&mut line, " labels ", accepted.labels)?;
    add_count(&mut line, " hooks ", accepted.hooks)?;
    add_count(&mut line, " invariants ", accepted.invariants)?;
    add_count(&mut line, " programs ", accepted.programs)?;
    add_count(&mut line, " obligations ", accepted.obligations)?;
    line.push('\n')?;
    Ok(line)
}
