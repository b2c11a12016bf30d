//! The world of a domain and a problem: every name has a number.

#![tactic(auto)]

mod action;
mod alike;
mod bases;
mod binding;
mod build;
mod check;
mod checked;
mod effect;
mod facts;
mod fault;
mod formula;
mod grounding;
mod id;
mod intern;
mod labels;
mod laws;
mod lists;
mod method;
mod names;
mod nested;
mod network;
mod numbered;
mod order;
mod range;
mod scope;
mod seed;
mod tables;
mod task;
mod types;
mod world;

pub use action::Action;
pub use alike::{
    classes_are_counted, fixed_positions_are_found, free_parameters_are_found,
    instances_keep_their_key, keys_tell_classes,
};
pub use binding::Binding;
pub use effect::Effect;
pub use facts::{Fact, Facts, FactsLeft};
pub use fault::{Side, StaticFault, StaticKind};
pub use formula::{Atom, Constraint, Formula, Subtask, Term};
pub use grounding::{GroundAction, GroundActions};
pub use id::{ActionId, MethodId, ObjectId, PredicateId, TaskId, TaskName, TypeId};
pub use laws::{
    a_world_or_a_fault, cycles_are_found, cyclic_orders_are_faults, declarations_go_by_place,
    eithers_are_unions, names_are_found, orders_are_decided, static_worlds_are_bound,
    types_are_decided,
};
pub use method::Method;
pub use network::Network;
pub use order::Order;
pub use range::Range;
pub use task::Task;
pub use world::World;
