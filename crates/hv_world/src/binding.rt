//! Which objects the variables have. A binding lies on the stack of the quantifier that made it.

ghost use Rattle.std.specs.Prelude.{◌≡◌, ◌+◌, Some, map, length, option_map, slice_get, MatchResult};
ghost use Rattle.hv_world.specs.Bindings.{objects_in, object_number};

use crate::id::ObjectId;

/// The objects of variables: those given, or those of a binding and of one variable more.
#[derive(Clone, Copy)]
pub enum Binding<'a> {
    Given(&'a [ObjectId]),
    With(&'a Binding<'a>, ObjectId),
}

// The object of a number, or by how much the number is past the objects.
fn given(objects: &[ObjectId], number: usize) -> Result<ObjectId, usize>
    ensures { MatchResult result (λ o. slice_get (map object_number objects.now) number ≡ Some o.0)
        (λ past. past + length objects.now ≡ number) }
{
    if number < objects.len() {
        Ok(objects[number])
    } else {
        Err(number - objects.len())
    }
}

// The object of a variable, or by how much its number is past those of the binding.
fn find(binding: &Binding<'_>, variable: usize) -> Result<ObjectId, usize>
    ensures { MatchResult result (λ o. slice_get (objects_in binding.now) variable ≡ Some o.0)
        (λ past. past + length (objects_in binding.now) ≡ variable) }
{
    match binding {
        Binding::Given(objects) => given(objects, variable),
        Binding::With(before, object) => match find(before, variable) {
            Ok(found) => Ok(found),
            Err(0) => Ok(*object),
            Err(past) => Err(past - 1),
        },
    }
}

impl Binding<'_> {
    /// The object of a variable, if the binding has one.
    pub fn object(&self, variable: usize) -> Option<ObjectId>
        ensures { option_map object_number result ≡ slice_get (objects_in self.now) variable }
    {
        find(self, variable).ok()
    }
}
