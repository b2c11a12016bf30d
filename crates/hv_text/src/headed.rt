//! Lists that each have a head.

ghost use Rattle.std.specs.Prelude.{◌≡◌, ◌<◌, ◌++◌, ◌∷◌, [], Some, List, length, slice_get, IfOk, OnOk, OnErr};
ghost use Rattle.hv_lists.specs.Lists.{with_lists};

use crate::lists::Lists;
use crate::refusal::Memory;
use std::alloc::Global;
use std::marker::Model;

/// Heads, each with a list of its own. The items of all lists stand one after another, so that none
/// takes an allocation.
#[derive(Drop)]
pub struct Headed<H, T> {
    heads: Vec<H>,
    lists: Lists<T>,
}

impl<H, T> Model for Headed<H, T> {
    ghost Value = { List (H × List T) };

    ghost view = { λ v. with_lists (λ h l. (h, l)) v.heads.items v.lists };

    ghost invariant = { λ v. length v.lists ≡ length v.heads.items };
}

impl<H: Copy + Drop, T: Copy + Drop> Headed<H, T> {
    /// No heads.
    ///
    /// # Errors
    ///
    /// `Memory` where the room was refused.
    pub fn new(alloc: Global) -> Result<Headed<H, T>, Memory>
        ensures { IfOk result (λ v. v ≡ []) }
    {
        Ok(Headed {
            heads: Vec::new(alloc),
            lists: Lists::with_capacity(alloc, 0)?,
        })
    }

    /// How many heads there are.
    pub fn len(&self) -> usize
        ensures { result ≡ length self.now }
    {
        self.heads.len()
    }

    /// The head of a place, and its list.
    pub fn at(&self, place: usize) -> (H, &[T])
        requires { place < length self.now }
        ensures { slice_get self.now place ≡ Some (result.0, result.1.now) }
    {
        (self.heads[place], self.lists.at(place))
    }

    /// Puts a head with a list behind the others. They stay as they were where that is refused.
    ///
    /// # Errors
    ///
    /// `Memory` where a growth was refused, or where all lists together would have 2^32 items.
    pub fn push(&mut self, head: H, list: &[T]) -> Result<(), Memory>
        ensures put { OnOk result (self.new ≡ self.old ++ (head, list.now) ∷ []) }
        ensures same { OnErr result (self.new ≡ self.old) }
    {
        self.heads.reserve(1)?;
        self.lists.push(list)?;
        self.heads.push_reserved(head);
        Ok(())
    }
}
