//! Numbers for the names of a text; what is checked there is gone through once, and a name looked
//! up once for its number and its fault. A type, an object, a variable or a label that is not
//! declared gets the number behind the last, and a predicate or a task that is not declared the
//! number 0; neither is in a world, since it is a static fault.

pub(crate) mod effects;
pub(crate) mod formulas;
pub(crate) mod lists;
pub(crate) mod literals;
pub(crate) mod networks;
pub(crate) mod sections;
pub(crate) mod terms;
pub(crate) mod types;
