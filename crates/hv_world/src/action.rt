//! Actions.

ghost use Rattle.std.specs.Prelude.{◌≡◌, map};
ghost use Rattle.hv_text.specs.Names.{text_of};
ghost use Rattle.hv_world.specs.Values.{effects_of};
ghost use Rattle.hv_world.specs.Views.{type_number, formula_view, effect_view};
ghost use Rattle.hv_world.specs.SectionViews.{action_view};

use crate::effect::Effect;
use crate::formula::Formula;
use crate::id::TypeId;
use hv_text::Name;

/// An action: where its precondition holds, it may be done, and brings its effects about.
#[derive(Drop)]
pub struct Action<'s> {
    pub(crate) name: Name<'s>,
    pub(crate) parameters: Vec<TypeId>,
    pub(crate) precondition: Formula,
    pub(crate) effect: Vec<Effect>,
}

impl<'s> Action<'s> {
    /// Its name.
    pub fn name(&self) -> Name<'s>
        ensures { text_of result ≡ (action_view self.now).name }
    {
        self.name
    }

    /// The types of its parameters, as written.
    pub fn parameters(&self) -> &[TypeId]
        ensures { map type_number result.now ≡ (action_view self.now).parameters }
    {
        &self.parameters
    }

    /// When it may be done.
    pub fn precondition(&self) -> &Formula
        ensures { formula_view result.now ≡ (action_view self.now).precondition }
    {
        &self.precondition
    }

    /// Its effects, as written.
    pub fn effect(&self) -> &[Effect]
        ensures { effects_of (map effect_view result.now) ≡ (action_view self.now).effect }
    {
        &self.effect
    }
}
