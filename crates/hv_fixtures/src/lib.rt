//! What tests share: the worked texts, and a reader and a writer that falter.
#![tactic(auto)]

mod faltering;
mod texts;

pub use faltering::{Falter, FalteringReader, FalteringWriter};
pub use texts::{
    CHAIN, CHAIN_ONCE, CYCLE, DOMAINS, EMPTY, EXCHANGE, EXCHANGE_ONCE, FLIP, FLIP_ONCE, IN_ORDER,
    LINES, LOOK, LOOK_AT_ANY, LOOK_AT_EACH, MIDDLE, MIDDLE_REVERSED, MIDDLE_UNORDERED, NO_RELIC,
    NO_RELIC_EXISTS, NO_RELIC_FOR_MANY, NO_TASK, ONE, ORDERS, PLAIN, PLAN1, PROBLEMS, RELIC_EXISTS,
    THREE, THREE_WITH_GOAL, TRANSPORT, TWENTY, TWENTY_ONE, TWO, UP_DOWN, UP_DOWN_FOR_UP,
    UP_DOWN_UP, UP_DOWN_WITHOUT_GOAL, WIDE, WIDE_APART,
};
