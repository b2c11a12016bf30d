//! What `run` writes of texts in memory.

use hv_fixtures::{TWO, UP_DOWN};
use hv_judge::run;
use hv_text::{FromMemory, ToMemory};
use std::alloc::Global;
use std::test::Fail;

/// A plan of two actions, one after the other.
pub(crate) const UP_THEN_DOWN: &[u8] = b"==>\n1 up\n2 down\nroot 2 1\n<==\n";

/// What `run` writes.
pub(crate) fn written(
    alloc: Global,
    domain: &[u8],
    problem: &[u8],
    plan: &[u8],
    limit: u64,
    explain: bool,
) -> Result<String, Fail> {
    let mut out = ToMemory::new(alloc);
    let mut domain = FromMemory::new(domain);
    let mut problem = FromMemory::new(problem);
    let mut plan = FromMemory::new(plan);
    run(
        alloc,
        &mut domain,
        &mut problem,
        &mut plan,
        limit,
        explain,
        &mut out,
    )?;
    Ok(String::from_utf8_lossy(alloc, out.written())?)
}

#[test]
fn limits_and_certificates(rt: HostRuntime) -> Result<(), Fail> {
    for (limit, explain, wanted) in [
        (1, true, "solves\nroot children 1 2 objects\n"),
        (1, false, "solves\n"),
        (0, true, "undecided line 4\n"),
    ] {
        let verdict = written(rt.alloc(), TWO, UP_DOWN, UP_THEN_DOWN, limit, explain)?;
        assert_eq!(rt; verdict.as_str(), wanted);
    }
    Ok(())
}
