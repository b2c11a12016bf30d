//! Lists that stand one after another in one.

ghost use Rattle.std.specs.Prelude.{◌≡◌, ◌<◌, ◌++◌, ◌∷◌, [], List, length, sum_by, is_ok, if◌then◌else◌, slice_index_or, IfOk, OnOk, OnErr};
ghost use Rattle.hv_text.specs.inside.Lists.{between, cut, start_of, EndUp};

use crate::refusal::Memory;
use std::alloc::Global;
use std::marker::Model;

/// Lists: the items of all of them one after another, and where each list ends among them. A list
/// takes four bytes beside its items, and no allocation of its own.
#[derive(Drop)]
pub struct Lists<T> {
    items: Vec<T>,
    ends: Vec<u32>,
}

impl<T> Model for Lists<T> {
    ghost Value = { List (List T) };

    ghost view = { λ ls. cut 0 ls.ends.items ls.items.items };

    ghost invariant = { λ ls. EndUp 0 ls.ends.items (length ls.items.items) };
}

impl<T: Copy + Drop> Lists<T> {
    /// No lists, and room for so many.
    ///
    /// # Errors
    ///
    /// `Memory` where the room was refused.
    pub fn with_capacity(alloc: Global, lists: usize) -> Result<Lists<T>, Memory>
        ensures { IfOk result (λ ls. ls ≡ []) }
    {
        Ok(Lists {
            items: Vec::new(alloc),
            ends: Vec::with_capacity(alloc, lists)?,
        })
    }

    /// How many lists there are.
    pub fn len(&self) -> usize
        ensures { result ≡ length self.now }
    {
        self.ends.len()
    }

    /// How many items all lists have together.
    pub fn item_count(&self) -> usize
        ensures { result ≡ sum_by length self.now }
    {
        self.items.len()
    }

    /// The list of a place; an empty one where there is none.
    pub fn at(&self, place: usize) -> &[T]
        ensures { result.now ≡ slice_index_or self.now place [] }
    {
        match self.ends.get(place) {
            Some(end) => between(&self.items, start(&self.ends, place), *end as usize),
            None => &[],
        }
    }

    /// Puts a list behind the others. They stay as they were where that is refused.
    ///
    /// # Errors
    ///
    /// `Memory` where a growth was refused, or where all lists together would have 2^32 items.
    pub fn push(&mut self, list: &[T]) -> Result<(), Memory>
        ensures lists { OnOk result (self.new ≡ self.old ++ list.now ∷ []) }
        ensures same { OnErr result (self.new ≡ self.old) }
    {
        let before = self.items.len();
        self.items.extend_from_slice(list)?;
        match push_end(&mut self.ends, self.items.len()) {
            Ok(()) => Ok(()),
            Err(refused) => {
                self.items.truncate(before);
                Err(refused)
            }
        }
    }
}

/// What stands from one place up to another.
pub(crate) fn between<T>(items: &[T], from: usize, end: usize) -> &[T]
    ensures { result.now ≡ between from end items.now }
{
    let behind = &items[from.min(items.len())..];
    &behind[..end.saturating_sub(from).min(behind.len())]
}

// Where the list of a place begins.
fn start(ends: &[u32], place: usize) -> usize
    requires { place < length ends.now }
    ensures { result ≡ start_of 0 ends.now place }
{
    match place.checked_sub(1) {
        Some(before) => ends[before] as usize,
        None => 0,
    }
}

// Notes where one more list ends.
fn push_end(ends: &mut Vec<u32>, end: usize) -> Result<(), Memory>
    ensures { ends.new.items ≡ (if is_ok result then ends.old.items ++ end ∷ [] else
        ends.old.items) }
{
    let end = u32::try_from(end).map_err(|_| Memory)?;
    ends.push(end)?;
    Ok(())
}
