//! How many candidates a node may have at most.

ghost use Rattle.std.specs.Prelude.{◌≡◌, ◌↔◌, ◌*◌, ◌<◌, ℕ, map, IsTrue, length, slice_index};
ghost use Rattle.hv_world.specs.MethodViews.{method_view};
ghost use Rattle.hv_world.specs.WorldViews.{world_view};
ghost use Rattle.hv_plan.specs.BuiltTrees.{tree_view};
ghost use Rattle.hv_plan.specs.PlanTrees.{IsTreeIn};
ghost use Rattle.hv_match.specs.Counts.{capped, factorial, product, AreChoicesOf, AreSoMany, CountIs, CountIsAt, TellsIfAbove};
ghost use Rattle.hv_match.specs.inside.Numbers.{in_64_bits, TimesChoices};

use crate::matcher::Matcher;
use hv_plan::Tree;
use hv_world::{Method, TypeId, World};

// A factor more. None stands for a number that 64 bits do not hold; times 0 it is 0 all the same.
fn times(number: Option<u64>, factor: u64) -> Option<u64>
    ensures { (n : ℕ) → number ≡ in_64_bits n → result ≡ in_64_bits (n * factor) }
{
    match number {
        Some(number) => number.checked_mul(factor),
        None => { if factor == 0 { Some(0) } else { None } }
    }
}

// As many factors more as there are orders of so many things.
fn times_factorial(number: Option<u64>, size: usize) -> Option<u64>
    ensures { (n : ℕ) → number ≡ in_64_bits n → result ≡ in_64_bits (n * factorial size) }
{
    let mut product = number;
    for below in 0..size {
        product = times(product, below as u64 + 1);
    }
    product
}

// In how many orders the alike may stand, class by class.
fn orders(sizes: &[usize]) -> Option<u64>
    ensures { result ≡ in_64_bits (product (map factorial sizes.now)) }
{
    let mut product = Some(1u64);
    for size in sizes {
        product = times_factorial(product, *size);
    }
    product
}

// How many objects are of a type.
fn many(world: &World<'_>, of: TypeId) -> usize
    ensures { AreSoMany (world_view world.now) of.0 result }
{
    world.objects_of(of).len()
}

// The type of the parameter of a number.
fn type_of(method: &Method<'_>, parameter: usize) -> TypeId
    requires { parameter < length (method_view method.now).parameters }
    ensures { result.0 ≡ slice_index (method_view method.now).parameters parameter }
{
    method.parameters()[parameter]
}

// How many objects the parameter of a number may have.
fn choices(world: &World<'_>, method: &Method<'_>, parameter: usize) -> usize
    requires { parameter < length (method_view method.now).parameters }
    ensures { AreChoicesOf (world_view world.now) (method_view method.now) parameter result }
{
    many(world, type_of(method, parameter))
}

// As many factors more as there are free parameters.
fn times_choices(number: Option<u64>, world: &World<'_>, method: &Method<'_>) -> Option<u64>
    ensures { TimesChoices (world_view world.now) (method_view method.now) number result }
{
    let mut product = number;
    for parameter in method.free_parameters() {
        product = times(product, choices(world, method, *parameter) as u64);
    }
    product
}

/// The count of a method, if 64 bits hold it.
pub(crate) fn exact_count(world: &World<'_>, method: &Method<'_>) -> Option<u64>
    ensures { CountIs (world_view world.now) (method_view method.now) (λ k. result ≡ in_64_bits k) }
{
    times_choices(orders(method.network().class_sizes()), world, method)
}

// The count, or the greatest `u64` where it is greater.
fn or_greatest(count: Option<u64>) -> u64
    ensures { (k : ℕ) → count ≡ in_64_bits k → result ≡ capped k }
{
    match count {
        Some(count) => count,
        None => u64::MAX,
    }
}

// Whether the count is greater than a limit.
fn is_greater(count: Option<u64>, limit: u64) -> bool
    ensures { (k : ℕ) → count ≡ in_64_bits k → IsTrue result ↔ (limit < k) }
{
    match count {
        Some(count) => limit < count,
        None => true,
    }
}

/// How many candidates a node may have at most, by its method alone: for each class of alike
/// subtasks the factorial of its size, times for each free parameter the number of objects of its
/// type. A greater number than a `u64` holds counts as the greatest that it does.
pub fn count(matcher: &Matcher<'_>, tree: &Tree, node: u32) -> u64
    requires tree { IsTreeIn matcher.now (tree_view tree.now) }
    requires node { node < length (tree_view tree.now).nodes }
    ensures { CountIsAt matcher.now (tree_view tree.now) node (λ k. result ≡ capped k) }
{
    let (_, table) = matcher.node_and_table(tree, node);
    or_greatest(table.count)
}

/// Whether the count of a node, however great it is, is greater than a limit.
pub fn exceeds(matcher: &Matcher<'_>, tree: &Tree, node: u32, limit: u64) -> bool
    requires tree { IsTreeIn matcher.now (tree_view tree.now) }
    requires node { node < length (tree_view tree.now).nodes }
    ensures { TellsIfAbove matcher.now (tree_view tree.now) node limit result }
{
    let (_, table) = matcher.node_and_table(tree, node);
    is_greater(table.count, limit)
}
