//! Tasks.

ghost use Rattle.std.specs.Prelude.{◌≡◌, map};
ghost use Rattle.hv_text.specs.Names.{text_of};
ghost use Rattle.hv_world.specs.Views.{type_number};
ghost use Rattle.hv_world.specs.SectionViews.{task_view};

use crate::id::TypeId;
use hv_text::Name;

/// A task that methods decompose.
#[derive(Drop)]
pub struct Task<'s> {
    pub(crate) name: Name<'s>,
    pub(crate) parameters: Vec<TypeId>,
}

impl<'s> Task<'s> {
    /// Its name.
    pub fn name(&self) -> Name<'s>
        ensures { text_of result ≡ (task_view self.now).name }
    {
        self.name
    }

    /// The types of its parameters, as written.
    pub fn parameters(&self) -> &[TypeId]
        ensures { map type_number result.now ≡ (task_view self.now).parameters }
    {
        &self.parameters
    }
}
