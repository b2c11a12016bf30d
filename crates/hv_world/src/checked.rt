//! What a text spells, with its first fault: what has both is gone through once.

ghost use Rattle.std.specs.Prelude.{◌≡◌, ◌++◌, [], ◌∷◌, None, IfOk, OnOk};
ghost use Rattle.hv_world.specs.Faults.{earlier};

use crate::fault::{StaticFault, earlier};
use hv_text::Memory;
use std::alloc::Global;

/// What a text spells, over numbers, and its first fault. Where it has one, the numbers of names
/// that are not declared mean nothing.
#[derive(Drop)]
pub(crate) struct Checked<T> {
    pub value: T,
    pub fault: Option<StaticFault>,
}

impl<T> Checked<T> {
    /// A value with its first fault.
    pub(crate) fn new(value: T, fault: Option<StaticFault>) -> Checked<T>
        ensures value { result.value ≡ value }
        ensures fault { result.fault ≡ fault }
    {
        Checked { value, fault }
    }
}

impl<T: Drop> Checked<Vec<T>> {
    /// No values and no fault, with room for so many values.
    ///
    /// # Errors
    ///
    /// `Memory` where the room was refused.
    pub(crate) fn with_capacity(alloc: Global, room: usize) -> Result<Checked<Vec<T>>, Memory>
        ensures value { IfOk result (λ c. c.value.items ≡ []) }
        ensures fault { IfOk result (λ c. c.fault ≡ None) }
    {
        let value = Vec::with_capacity(alloc, room)?;
        Ok(Checked { value, fault: None })
    }

    /// Puts a value behind others; its fault is the first of all where it stands before theirs.
    ///
    /// # Errors
    ///
    /// `Memory` where a growth was refused.
    pub(crate) fn push(&mut self, item: Checked<T>) -> Result<(), Memory>
        ensures value { OnOk result
            (self.new.value.items ≡ self.old.value.items ++ item.value ∷ []) }
        ensures fault { OnOk result (self.new.fault ≡ earlier self.old.fault item.fault) }
    {
        self.fault = earlier(self.fault, item.fault);
        self.value.push(item.value)?;
        Ok(())
    }
}
