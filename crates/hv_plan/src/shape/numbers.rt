//! The numbers of nodes, children before parents.

ghost use Rattle.std.specs.Prelude.{◌≡◌, ℕ, ◌+◌, ◌<◌, ◌≤◌, ◌∷◌, [], ◌++◌, map, length, slice_index, slice_index_or, slice_set, Contains, IfOk, OnOk};
ghost use Rattle.hv_lists.specs.Lists.{Once};
ghost use Rattle.hv_plan.specs.TreeViews.{child_view};
ghost use Rattle.hv_plan.specs.inside.Shaping.{IsNumbering, item, items_at, children_by_number};

use crate::tree::Child;
use hv_text::{Lists, Memory};
use std::alloc::Global;

/// The decomposition lines by number, and the number of each.
#[derive(Drop)]
pub(super) struct Numbering {
    pub(super) lines: Vec<u32>,
    pub(super) numbers: Vec<u32>,
}

/// A number in 32 bits, which are enough for the lines of every text.
///
/// # Errors
///
/// `Memory` where it has more.
pub(super) fn short(number: usize) -> Result<u32, Memory>
    ensures { IfOk result (λ short. short ≡ number) }
{
    match u32::try_from(number) {
        Ok(short) => Ok(short),
        Err(_) => Err(Memory),
    }
}

// Gives the line of a place the next number.
fn number_line(numbering: &mut Numbering, line: usize) -> Result<(), Memory>
    requires { line < length numbering.old.numbers.items }
    ensures lines { OnOk result (numbering.new.lines.items
        ≡ numbering.old.lines.items ++ line ∷ []) }
    ensures numbers { OnOk result (numbering.new.numbers.items
        ≡ slice_set numbering.old.numbers.items line (length numbering.old.lines.items)) }
{
    let number = short(numbering.lines.len())?;
    let place = short(line)?;
    numbering.numbers[line] = number;
    numbering.lines.push(place)?;
    Ok(())
}

// Gives what was met at a place of a walk the next number; an action line gets none.
fn give_number(
    numbering: &mut Numbering,
    actions: usize,
    met: &[u32],
    at: usize,
) -> Result<(), Memory>
    requires at { at < length met.now }
    requires once { Once met.now }
    requires within { slice_index met.now at < actions + length numbering.old.numbers.items }
    requires so_far { IsNumbering actions (at + 1) met.now numbering.old.lines.items
        numbering.old.numbers.items }
    ensures count { OnOk result (length numbering.new.numbers.items
        ≡ length numbering.old.numbers.items) }
    ensures so_far { OnOk result (IsNumbering actions at met.now numbering.new.lines.items
        numbering.new.numbers.items) }
{
    if let Some(line) = (met[at] as usize).checked_sub(actions) {
        number_line(numbering, line)?;
    }
    Ok(())
}

/// The numbers of the decomposition lines that a walk has met, the last of them first. What was met
/// is dropped.
pub(super) fn number_met(
    alloc: Global,
    actions: usize,
    count: usize,
    met: Vec<u32>,
) -> Result<Numbering, Memory>
    requires once { Once met.items }
    requires within { (b : ℕ) → b < length met.items → slice_index met.items b < actions + count }
    ensures count { IfOk result (λ n. length n.numbers.items ≡ count) }
    ensures numbering { IfOk result
        (λ n. IsNumbering actions 0 met.items n.lines.items n.numbers.items) }
{
    let mut numbering = Numbering {
        lines: Vec::with_capacity(alloc, count)?,
        numbers: vec![in alloc; 0; count]?,
    };
    let mut at = met.len();
    'met: while at > 0 {
        at -= 1;
        give_number(&mut numbering, actions, &met, at)?;
    }
    Ok(numbering)
}

// What stands at a place: an action, or the node of a line.
fn item(actions: usize, numbers: &[u32], place: u32) -> Child
    requires { place < actions + length numbers.now }
    ensures { child_view result ≡ item actions numbers.now place }
{
    match (place as usize).checked_sub(actions) {
        None => Child::Action(place),
        Some(line) => Child::Node(numbers[line]),
    }
}

// Puts what stands at places in place of what a list has.
fn put_items(
    items: &mut Vec<Child>,
    actions: usize,
    numbers: &[u32],
    places: &[u32],
) -> Result<(), Memory>
    requires { (c : ℕ) → Contains places.now c → c < actions + length numbers.now }
    ensures { OnOk result (map child_view items.new.items
        ≡ items_at actions numbers.now places.now) }
{
    items.clear();
    for place in places {
        items.push(item(actions, numbers, *place))?;
    }
    Ok(())
}

// Pushes what stands at places, by a list of items that is used again for each call.
fn push_items(
    items: &mut Vec<Child>,
    actions: usize,
    numbers: &[u32],
    children: &mut Lists<Child>,
    places: &[u32],
) -> Result<(), Memory>
    requires { (c : ℕ) → Contains places.now c → c < actions + length numbers.now }
    ensures { OnOk result (map (map child_view) children.new
        ≡ map (map child_view) children.old ++ items_at actions numbers.now places.now ∷ []) }
{
    put_items(items, actions, numbers, places)?;
    children.push(items)?;
    Ok(())
}

/// The children of each node by number, and behind them those of the root line.
pub(super) fn node_children(
    alloc: Global,
    actions: usize,
    numbering: &Numbering,
    root: &[u32],
    lists: &Lists<u32>,
) -> Result<Lists<Child>, Memory>
    requires root { (c : ℕ) → Contains root.now c
        → c < actions + length numbering.now.numbers.items }
    requires lists { (k c : ℕ) → Contains (slice_index_or lists.now k []) c
        → c < actions + length numbering.now.numbers.items }
    ensures { IfOk result (λ ls. map (map child_view) ls
        ≡ children_by_number actions numbering.now.lines.items numbering.now.numbers.items root.now
        lists.now) }
{
    let mut children = Lists::with_capacity(alloc, numbering.lines.len().saturating_add(1))?;
    let mut items = Vec::new(alloc);
    for line in &numbering.lines {
        push_items(
            &mut items,
            actions,
            &numbering.numbers,
            &mut children,
            lists.at(*line as usize),
        )?;
    }
    push_items(&mut items, actions, &numbering.numbers, &mut children, root)?;
    Ok(children)
}
