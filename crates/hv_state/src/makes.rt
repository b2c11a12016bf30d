//! Whether effects make atoms true, or false, at all.

ghost use Rattle.std.specs.Prelude.{◌≡◌, false};
ghost use Rattle.hv_state.specs.inside.Parts.{MakesNothing, MakeNothing};

use hv_world::Effect;

// Whether an effect may make an atom true, or false. No object is looked at.
#[cycle(makes)]
fn makes(effect: &Effect, is_true: bool) -> bool
    ensures { result ≡ false → MakesNothing is_true effect.now }
{
    match effect {
        Effect::Becomes(becomes, _) => *becomes == is_true,
        Effect::Forall(_, effects) => one_makes(effects, is_true),
    }
}

/// Whether one of several effects may make an atom true, or false. No object is looked at.
#[cycle(makes)]
pub(crate) fn one_makes(effects: &[Effect], is_true: bool) -> bool
    ensures { result ≡ false → MakeNothing is_true effects.now }
{
    for effect in effects {
        if makes(effect, is_true) {
            return true;
        }
    }
    false
}
