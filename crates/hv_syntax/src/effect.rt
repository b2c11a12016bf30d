//! Effects.

ghost use Rattle.std.specs.Prelude.{◌≡◌, map};
ghost use Rattle.hv_syntax.specs.Values.{no_items, effect};
ghost use Rattle.hv_syntax.specs.Views.{item_view, effect_view};

use crate::literal::LiteralText;
use crate::variable::VariableText;
use std::alloc::Global;

/// An item of an effect: one thing that it brings about.
#[derive(Drop)]
pub enum ItemText<'s> {
    /// The literal becomes true.
    Literal(LiteralText<'s>),
    /// All of these items, for all objects of the types of these variables.
    Forall(Vec<VariableText<'s>>, Vec<ItemText<'s>>),
}

/// What an action brings about: all of its items.
#[derive(Drop)]
pub struct EffectText<'s> {
    items: Vec<ItemText<'s>>,
}

impl<'s> EffectText<'s> {
    /// The effect of these items.
    pub fn new(items: Vec<ItemText<'s>>) -> EffectText<'s>
        ensures { effect_view result ≡ effect (map item_view items.entry.items) }
    {
        EffectText { items }
    }

    /// The effect that brings nothing about.
    pub fn nothing(alloc: Global) -> EffectText<'s>
        ensures { effect_view result ≡ no_items }
    {
        EffectText {
            items: Vec::new(alloc),
        }
    }

    /// The items, as written.
    pub fn items(&self) -> &[ItemText<'s>]
        ensures { effect (map item_view result.now) ≡ effect_view self.now }
    {
        &self.items
    }
}
