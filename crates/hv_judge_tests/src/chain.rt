//! A plan whose tree is as deep as it has lines: no recursion follows it.

use crate::judged::written;
use hv_fixtures::{CHAIN, CHAIN_ONCE};
use std::alloc::Global;
use std::fmt::Write;
use std::test::Fail;

const LINES: u32 = 100_000;

// A task that is decomposed into itself, line by line, and at last into nothing.
fn chain(alloc: Global, lines: u32) -> Result<String, Fail> {
    let mut plan = String::new(alloc);
    writeln!(plan, "==>")?;
    writeln!(plan, "root 1")?;
    for line in 1..lines {
        writeln!(plan, "{} t -> m {}", line, line + 1)?;
    }
    writeln!(plan, "{} t -> e", lines)?;
    writeln!(plan, "<==")?;
    Ok(plan)
}

#[test]
fn a_long_chain_is_judged(rt: HostRuntime) -> Result<(), Fail> {
    let alloc = rt.alloc();
    let plan = chain(alloc, LINES)?;
    let verdict = written(alloc, CHAIN, CHAIN_ONCE, plan.as_bytes(), 1, false)?;
    assert_eq!(rt; verdict.as_str(), "solves\n");
    Ok(())
}
