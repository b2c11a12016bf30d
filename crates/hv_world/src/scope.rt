//! The variables in scope.

ghost use Rattle.std.specs.Prelude.{◌≡◌, ◌+◌, Some, IfSome, IfOk};
ghost use Rattle.hv_text.specs.Names.{text_of};
ghost use Rattle.hv_world.specs.Scopes.{size, variable_in};
ghost use Rattle.hv_world.specs.Names.{number_or};
ghost use Rattle.hv_world.specs.inside.Tables.{scope_view};

use crate::names::{Names, place_among};
use hv_syntax::VariableText;
use hv_text::{Memory, Name};

/// The parameters of a section and how many they are, or the variables of a quantifier or an effect
/// inside it.
#[derive(Clone, Copy)]
pub(crate) enum Scope<'a, 's> {
    Parameters(&'a Names<'s>, usize),
    Inside(&'a Scope<'a, 's>, &'a [VariableText<'s>]),
}

impl<'a, 's> Scope<'a, 's> {
    /// How many variables are in scope, where a number can say so.
    pub(crate) fn size(&self) -> Option<usize>
        ensures { IfSome result (λ n. n ≡ size (scope_view self.now)) }
    {
        match self {
            Scope::Parameters(_, count) => Some(*count),
            Scope::Inside(outer, variables) => outer.size()?.checked_add(variables.len()),
        }
    }

    /// The number of a variable that was found in scope; of one that was not, the number behind the
    /// last.
    ///
    /// # Errors
    ///
    /// `Memory` where no number can say how many variables are in scope.
    pub(crate) fn number_of(&self, found: Option<usize>) -> Result<usize, Memory>
        ensures { IfOk result (λ v. v ≡ number_or (size (scope_view self.now)) found) }
    {
        match found {
            Some(number) => Ok(number),
            None => self.size().ok_or(Memory),
        }
    }

    /// The number of a variable that is in scope; one of the innermost quantifier hides one of its
    /// name further out.
    ///
    /// # Errors
    ///
    /// `Memory` where no number can say how many variables are in scope.
    pub(crate) fn place(&self, name: Name<'s>) -> Result<Option<usize>, Memory>
        ensures { IfOk result (λ o. o ≡ variable_in (scope_view self.now) (text_of name.entry)) }
    {
        match *self {
            Scope::Parameters(names, _) => Ok(names.place(name)),
            Scope::Inside(outer, variables) => match place_among(variables, name) {
                Some(place) => outer.past(place),
                None => outer.place(name),
            },
        }
    }

    /// As `place`, where the place behind another parameter's is looked at before all.
    ///
    /// # Errors
    ///
    /// `Memory` where no number can say how many variables are in scope.
    pub(crate) fn place_behind(
        &self,
        other: Option<usize>,
        name: Name<'s>,
    ) -> Result<Option<usize>, Memory>
        ensures { IfOk result (λ o. o ≡ variable_in (scope_view self.now) (text_of name.entry)) }
    {
        match *self {
            Scope::Parameters(names, _) => Ok(names.place_behind(other, name)),
            Scope::Inside(_, _) => self.place(name),
        }
    }

    // The number so far past the variables in scope.
    fn past(&self, place: usize) -> Result<Option<usize>, Memory>
        ensures { IfOk result (λ o. o ≡ Some (size (scope_view self.now) + place)) }
    {
        let Some(size) = self.size() else {
            return Err(Memory);
        };
        match size.checked_add(place) {
            Some(number) => Ok(Some(number)),
            None => Err(Memory),
        }
    }
}
