//! Numbers in place of names.

/// The number of a type, by first sight; that of `object` is 0.
#[derive(Clone, Copy, Debug, Default, PartialEq, Eq)]
pub struct TypeId(pub usize);

/// The number of a constant or an object, by first sight.
#[derive(Clone, Copy, Debug, PartialEq, Eq)]
pub struct ObjectId(pub usize);

/// The number of a predicate, in the order of the text.
#[derive(Clone, Copy, Debug, PartialEq, Eq)]
pub struct PredicateId(pub usize);

/// The number of a task that methods decompose, in the order of the text.
#[derive(Clone, Copy, Debug, PartialEq, Eq)]
pub struct TaskId(pub usize);

/// The number of an action, in the order of the text.
#[derive(Clone, Copy, Debug, PartialEq, Eq)]
pub struct ActionId(pub usize);

/// The number of a method, in the order of the text.
#[derive(Clone, Copy, Debug, PartialEq, Eq)]
pub struct MethodId(pub usize);

/// What a subtask is to do: tasks and actions share one space of names.
#[derive(Clone, Copy, Debug, PartialEq, Eq)]
pub enum TaskName {
    /// A task that methods decompose.
    Compound(TaskId),
    /// An action.
    Primitive(ActionId),
}
