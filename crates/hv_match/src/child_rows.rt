//! The places of the children that are tried for the subtasks.

ghost use Rattle.std.specs.Prelude.{◌≡◌, ◌++◌, length, map, option_map, take, IfOk, OnOk};
ghost use Rattle.hv_world.specs.NetworkViews.{network_view};
ghost use Rattle.hv_world.specs.Views.{name_view};
ghost use Rattle.hv_match.specs.inside.Tables as tables;
ghost use Rattle.hv_match.specs.inside.Tables.{work_view, AreClassRowsOf, AreNamedRows, ArePlaces, HasPut};

use crate::puzzle::{Work, same_name};
use hv_text::{Lists, Memory};
use hv_world::{Network, Subtask, TaskName, classes_are_counted, instances_keep_their_key};
use std::alloc::Global;

// Of so few children all are tried for each subtask: no row is kept.
const PLACES: [usize; 4] = [0, 1, 2, 3];

// For each of so few subtasks all children are looked at, and nothing is hashed.
const FEW: usize = 8;

/// How many subtasks are of the class of the subtask of a number.
pub(crate) fn class_size(network: &Network, subtask: usize) -> usize
    ensures { result ≡ tables.size_at (network_view network.now).subtasks subtask }
{
    match network.class_at(subtask) {
        Some(class) => network.class_sizes().get(class).copied().unwrap_or(0),
        None => 0,
    }
}

/// For each subtask the places of the children that are tried for it.
#[derive(Drop)]
pub(crate) enum ChildRows<'a> {
    /// Those of all children, which are so many.
    All(usize),
    /// For each subtask those of the children of its name.
    Named(Lists<usize>),
    /// For each class of alike subtasks those of the children that are of it.
    Alike(&'a Network, Lists<usize>),
}

impl ChildRows<'_> {
    /// The places of the children that are tried for the subtask of a number, ascending.
    pub(crate) fn row(&self, subtask: usize) -> &[usize]
        ensures { result.now ≡ tables.row_for self.now subtask }
    {
        match self {
            ChildRows::All(count) => first_places(*count),
            ChildRows::Named(rows) => rows.at(subtask),
            ChildRows::Alike(network, rows) => alike_row(network, rows, subtask),
        }
    }
}

// The row of the class of the subtask of a number.
fn alike_row<'a>(network: &Network, rows: &'a Lists<usize>, subtask: usize) -> &'a [usize]
    ensures { result.now ≡ tables.alike_row (network_view network.now).subtasks rows.now subtask }
{
    match network.class_at(subtask) {
        Some(class) => rows.at(class),
        None => &[],
    }
}

// So many places, or as many as are all tried.
fn first_places(count: usize) -> &'static [usize]
    ensures { result.now ≡ take count tables.few_places }
{
    &PLACES[..count.min(PLACES.len())]
}

// Whether a child does what has the name.
fn has_name(name: TaskName, child: Option<Work<'_>>) -> bool
    ensures { result ≡ tables.has_name (name_view name) (option_map work_view child.entry) }
{
    match child {
        None => false,
        Some(work) => same_name(work.name, name),
    }
}

// Puts the places of the children that do what has the name behind what a row has.
fn push_row(
    row: &mut Vec<usize>,
    name: TaskName,
    children: &[Option<Work<'_>>],
) -> Result<(), Memory>
    ensures { OnOk result (row.new.items
        ≡ row.old.items ++ tables.places_named (name_view name) children.now) }
{
    for (place, child) in children.iter().enumerate() {
        if has_name(name, *child) {
            row.push(place)?;
        }
    }
    Ok(())
}

// For each subtask the places of the children of its name.
fn rows_by_name(
    alloc: Global,
    subtasks: &[Subtask],
    children: &[Option<Work<'_>>],
) -> Result<Lists<usize>, Memory>
    ensures { IfOk result (AreNamedRows subtasks.now children.now) }
{
    let mut rows = Lists::with_capacity(alloc, subtasks.len())?;
    let mut row = Vec::with_capacity(alloc, children.len())?;
    for subtask in subtasks {
        row.clear();
        push_row(&mut row, subtask.name, children)?;
        rows.push(&row)?;
    }
    Ok(rows)
}

// The number of the class of what a child does, if some subtask is of it.
fn class_of(
    alloc: Global,
    network: &Network,
    child: Option<Work<'_>>,
) -> Result<Option<usize>, Memory>
    ensures { IfOk result (λ r. r ≡ tables.class_of_work (network_view network.now).subtasks
        (option_map work_view child.entry)) }
{
    match child {
        None => Ok(None),
        Some(work) => network.class_for(alloc, work.name, work.objects),
    }
}

// Puts a place behind those of a class, if there is one.
fn put(rows: &mut [Vec<usize>], class: Option<usize>, place: usize) -> Result<(), Memory>
    ensures size { OnOk result (length rows.new ≡ length rows.old) }
    ensures rows { OnOk result (HasPut class place rows.old rows.new) }
{
    if let Some(class) = class
        && class < rows.len()
    {
        rows[class].push(place)?;
    }
    Ok(())
}

// For each class the places of the children that are of it.
fn rows_by_class(
    alloc: Global,
    network: &Network,
    children: &[Option<Work<'_>>],
) -> Result<Vec<Vec<usize>>, Memory>
    ensures { IfOk result (λ v. AreClassRowsOf (network_view network.now).subtasks children.now
        v.items) }
{
    let mut rows = vec![in alloc; Vec::new(alloc); network.class_sizes().len()]?;
    for (place, child) in children.iter().enumerate() {
        let class = class_of(alloc, network, *child)?;
        put(&mut rows, class, place)?;
    }
    Ok(rows)
}

// These rows one after another in one list.
fn in_one(alloc: Global, rows: &[Vec<usize>]) -> Result<Lists<usize>, Memory>
    ensures { IfOk result (λ ls. ls ≡ map (λ v. v.items) rows.now) }
{
    let mut lists = Lists::with_capacity(alloc, rows.len())?;
    for row in rows {
        lists.push(row)?;
    }
    Ok(lists)
}

// Rows for each subtask.
fn by_name<'a>(
    alloc: Global,
    network: &'a Network,
    children: &[Option<Work<'_>>],
) -> Result<ChildRows<'a>, Memory>
    ensures { IfOk result (ArePlaces (network_view network.now).subtasks children.now) }
{
    let rows = rows_by_name(alloc, network.subtasks(), children)?;
    Ok(ChildRows::Named(rows))
}

// Rows for each class.
fn by_class<'a>(
    alloc: Global,
    network: &'a Network,
    children: &[Option<Work<'_>>],
) -> Result<ChildRows<'a>, Memory>
    ensures { IfOk result (ArePlaces (network_view network.now).subtasks children.now) }
{
    instances_keep_their_key();
    classes_are_counted();
    let rows = rows_by_class(alloc, network, children)?;
    let rows = in_one(alloc, &rows)?;
    Ok(ChildRows::Alike(network, rows))
}

/// The places of the children that are tried for each subtask of a network.
pub(crate) fn child_rows<'a>(
    alloc: Global,
    network: &'a Network,
    children: &[Option<Work<'_>>],
) -> Result<ChildRows<'a>, Memory>
    ensures { IfOk result (ArePlaces (network_view network.now).subtasks children.now) }
{
    if children.len() <= PLACES.len() {
        return Ok(ChildRows::All(children.len()));
    }
    if network.subtasks().len() <= FEW {
        by_name(alloc, network, children)
    } else {
        by_class(alloc, network, children)
    }
}
