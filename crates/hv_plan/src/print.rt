//! Canonical text.

ghost use Rattle.std.specs.Prelude.{◌≡◌, ◌++◌, ◌∷◌, [], map, codes, decimal, OnOk, OnErr};
ghost use Rattle.std.specs.List.{flat_map};
ghost use Rattle.hv_text.specs.Names.{text_of};
ghost use Rattle.hv_plan.specs.LineViews.{action_view, actions_view, decomposition_view, decompositions_view, plan_view};
ghost use Rattle.hv_plan.specs.Canonical.{words_text, ids_text, node_text, action_text, decomposition_text, root_text, plan_text};

use crate::plan::{ActionLine, ActionLines, DecompositionLine, DecompositionLines, PlanText};
use hv_text::{Memory, Name};
use itoa::Buffer;

/// Appends the canonical text of a plan: the action lines, the root line and the
/// decomposition lines, between the markers, with ids without leading zeros, names in lower
/// case, and no parentheses.
///
/// # Errors
///
/// `Memory` where a growth was refused; then nothing is appended.
pub fn print_plan(plan: &PlanText<'_>, out: &mut Vec<u8>) -> Result<(), Memory>
    ensures ok { OnOk result (out.new.items ≡ out.old.items ++ plan_text (plan_view plan.now)) }
    ensures err { OnErr result (out.new.items ≡ out.old.items) }
{
    let mut text = Vec::new(*out.allocator());
    put_plan(&mut text, plan)?;
    out.extend_from_slice(&text)?;
    Ok(())
}

// Puts a plan.
fn put_plan(out: &mut Vec<u8>, plan: &PlanText<'_>) -> Result<(), Memory>
    ensures { OnOk result (out.new.items ≡ out.old.items ++ plan_text (plan_view plan.now)) }
{
    out.extend_from_slice(b"==>\n")?;
    put_actions(out, &plan.actions)?;
    put_root(out, &plan.root)?;
    put_decompositions(out, &plan.decompositions)?;
    out.extend_from_slice(b"<==\n")?;
    Ok(())
}

// Puts the lines of actions.
fn put_actions(out: &mut Vec<u8>, lines: &ActionLines<'_>) -> Result<(), Memory>
    ensures { OnOk result (out.new.items ≡ out.old.items ++ flat_map action_text
        (actions_view lines.now)) }
{
    for line in lines.iter() {
        put_action(out, line)?;
    }
    Ok(())
}

// Puts the line of an action.
fn put_action(out: &mut Vec<u8>, line: ActionLine<'_, '_>) -> Result<(), Memory>
    ensures { OnOk result (out.new.items ≡ out.old.items ++ action_text (action_view line.entry)) }
{
    put_node(out, line.id, line.name, line.arguments)?;
    out.push(b'\n')?;
    Ok(())
}

// Puts the root line of these ids.
fn put_root(out: &mut Vec<u8>, ids: &[u64]) -> Result<(), Memory>
    ensures { OnOk result (out.new.items ≡ out.old.items
        ++ (codes "root" ++ (ids_text ids.now ++ codes "\n"))) }
{
    out.extend_from_slice(b"root")?;
    put_ids(out, ids)?;
    out.push(b'\n')?;
    Ok(())
}

// Puts the lines of decompositions.
fn put_decompositions(out: &mut Vec<u8>, lines: &DecompositionLines<'_>) -> Result<(), Memory>
    ensures { OnOk result (out.new.items ≡ out.old.items ++ flat_map decomposition_text
        (decompositions_view lines.now)) }
{
    for line in lines.iter() {
        put_decomposition(out, line)?;
    }
    Ok(())
}

// Puts the line of a decomposition.
fn put_decomposition(out: &mut Vec<u8>, line: DecompositionLine<'_, '_>) -> Result<(), Memory>
    ensures { OnOk result (out.new.items ≡ out.old.items ++ decomposition_text
        (decomposition_view line.entry)) }
{
    put_node(out, line.id, line.name, line.arguments)?;
    out.extend_from_slice(b" ->")?;
    put_word(out, line.method)?;
    put_ids(out, line.children)?;
    out.push(b'\n')?;
    Ok(())
}

// Puts an id and a task.
fn put_node(
    out: &mut Vec<u8>,
    id: u64,
    name: Name<'_>,
    arguments: &[Name<'_>],
) -> Result<(), Memory>
    ensures { OnOk result (out.new.items ≡ out.old.items ++ node_text id (text_of name.entry)
        (map text_of arguments.now)) }
{
    put_id(out, id)?;
    put_word(out, name)?;
    put_words(out, arguments)
}

// Puts an id, without leading zeros.
fn put_id(out: &mut Vec<u8>, id: u64) -> Result<(), Memory>
    ensures { OnOk result (out.new.items ≡ out.old.items ++ decimal id) }
{
    let mut digits = Buffer::new();
    out.extend_from_slice(digits.format(id).as_bytes())?;
    Ok(())
}

// Puts ids, a space before each.
fn put_ids(out: &mut Vec<u8>, ids: &[u64]) -> Result<(), Memory>
    ensures { OnOk result (out.new.items ≡ out.old.items ++ ids_text ids.now) }
{
    for id in ids {
        out.push(b' ')?;
        put_id(out, *id)?;
    }
    Ok(())
}

// Puts a space and a name in lower case.
fn put_word(out: &mut Vec<u8>, name: Name<'_>) -> Result<(), Memory>
    ensures { OnOk result (out.new.items ≡ out.old.items ++ words_text (text_of name.entry ∷ [])) }
{
    out.push(b' ')?;
    put_name(out, name)
}

// Puts names, a space before each.
fn put_words(out: &mut Vec<u8>, names: &[Name<'_>]) -> Result<(), Memory>
    ensures { OnOk result (out.new.items ≡ out.old.items ++ words_text (map text_of names.now)) }
{
    for name in names {
        put_word(out, *name)?;
    }
    Ok(())
}

// Puts a name in lower case.
fn put_name(out: &mut Vec<u8>, name: Name<'_>) -> Result<(), Memory>
    ensures { OnOk result (out.new.items ≡ out.old.items ++ text_of name.entry) }
{
    for b in name.written() {
        out.push(b.to_ascii_lowercase())?;
    }
    Ok(())
}
