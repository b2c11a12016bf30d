//! Certificates that are checked as texts: how many formulas that takes.

use crate::check::{TWO_PARENTS, UP_AND_DOWN};
use crate::judged::UP_THEN_DOWN;
use hv_fixtures::{
    MIDDLE, MIDDLE_UNORDERED, ONE, PLAN1, TRANSPORT, TWO, UP_DOWN, UP_DOWN_FOR_UP,
    UP_DOWN_WITHOUT_GOAL,
};
use hv_judge::{Recheck, examine, recheck};
use std::test::Fail;

/// The certificate of the plan of `transport`.
pub(crate) const DELIVERED: &str = "solves\nroot children 10 objects\n\
    10 children 11 1 12 3 objects p1 t1 a b pre 0\n11 children objects t1 a pre 0\n\
    12 children 2 objects t1 a b pre 1\n";

/// The certificate of a plan of two actions, one after the other.
pub(crate) const ONE_THEN_TWO: &[u8] = b"solves\nroot children 1 2 objects\n";

// The actions, the decomposition lines and the goal.
#[test]
fn a_certificate_takes_each_formula_once(rt: HostRuntime) -> Result<(), Fail> {
    let alloc = rt.alloc();
    for (domain, problem, plan, certificate, evaluated) in [
        (TRANSPORT, ONE, PLAN1, DELIVERED.as_bytes(), 7),
        (TWO, UP_DOWN, UP_THEN_DOWN, ONE_THEN_TWO, 3),
        (TWO, UP_DOWN_WITHOUT_GOAL, UP_THEN_DOWN, ONE_THEN_TWO, 2),
    ] {
        let wanted = Recheck {
            certified: true,
            evaluated,
        };
        assert_eq!(rt; recheck(alloc, domain, problem, plan, certificate)?, wanted);
    }
    Ok(())
}

const DOWN_THEN_UP: &[u8] = b"==>\n2 down\n1 up\nroot 1 2\n<==\n";

const OFF_AT_TWO: &[u8] = b"solves\nroot children 10 11 objects\n\
    10 children 1 2 objects pre 0\n11 children objects pre 2\n";

// The first action is inapplicable; a line is a child twice; the goal is false; the precondition of
// the last line is. There are no more formulas than actions, decomposition lines and the goal.
#[test]
fn what_is_not_certified_takes_no_more(rt: HostRuntime) -> Result<(), Fail> {
    let alloc = rt.alloc();
    for (domain, problem, plan, certificate, most) in [
        (TWO, UP_DOWN, DOWN_THEN_UP, ONE_THEN_TWO, 3),
        (TWO, UP_DOWN, TWO_PARENTS, ONE_THEN_TWO, 3),
        (TWO, UP_DOWN_FOR_UP, UP_THEN_DOWN, ONE_THEN_TWO, 3),
        (MIDDLE, MIDDLE_UNORDERED, UP_AND_DOWN, OFF_AT_TWO, 5),
    ] {
        let found = recheck(alloc, domain, problem, plan, certificate)?;
        assert!(rt; !found.certified);
        assert!(rt; found.evaluated <= most);
    }
    Ok(())
}

const LINE_LEFT_OUT: &[u8] = b"solves\nroot children 10 objects\n\
    10 children 11 1 12 3 objects p1 t1 a b pre 0\n12 children 2 objects t1 a b pre 1\n";

const LAST_LEFT_OUT: &[u8] = b"solves\nroot children 10 objects\n\
    10 children 11 1 12 3 objects p1 t1 a b pre 0\n11 children objects t1 a pre 0\n";

const ONE_TOO_MANY: &[u8] = b"solves\nroot children 10 objects\n\
    10 children 11 1 12 3 objects p1 t1 a b pre 0\n11 children objects t1 a pre 0\n\
    12 children 2 objects t1 a b pre 1\n13 children objects pre 1\n";

const OTHER_ROOT: &[u8] = b"solves\nroot children 11 objects\n\
    10 children 11 1 12 3 objects p1 t1 a b pre 0\n11 children objects t1 a pre 0\n\
    12 children 2 objects t1 a b pre 1\n";

const CHILD_TWICE: &[u8] = b"solves\nroot children 10 objects\n\
    10 children 11 1 12 12 objects p1 t1 a b pre 0\n11 children objects t1 a pre 0\n\
    12 children 2 objects t1 a b pre 1\n";

const UNKNOWN_OBJECT: &[u8] = b"solves\nroot children 10 objects\n\
    10 children 11 1 12 3 objects p1 t1 a b pre 0\n11 children objects t9 a pre 0\n\
    12 children 2 objects t1 a b pre 1\n";

const NOT_YET_TRUE: &[u8] = b"solves\nroot children 10 objects\n\
    10 children 11 1 12 3 objects p1 t1 a b pre 0\n11 children objects t1 a pre 0\n\
    12 children 2 objects t1 a b pre 3\n";

const TOO_EARLY: &[u8] = b"solves\nroot children 10 objects\n\
    10 children 11 1 12 3 objects p1 t1 a b pre 0\n11 children objects t1 a pre 0\n\
    12 children 2 objects t1 a b pre 0\n";

// Ids first, then what a line says by itself, then the order, for which the line of the
// method is told.
#[test]
fn the_line_that_does_not_fit(rt: HostRuntime) -> Result<(), Fail> {
    let alloc = rt.alloc();
    for (certificate, line) in [
        (LINE_LEFT_OUT, 4),
        (LAST_LEFT_OUT, 5),
        (ONE_TOO_MANY, 6),
        (OTHER_ROOT, 2),
        (CHILD_TWICE, 3),
        (UNKNOWN_OBJECT, 4),
        (NOT_YET_TRUE, 5),
        (TOO_EARLY, 3),
    ] {
        let found = examine(alloc, TRANSPORT, ONE, PLAN1, certificate)?;
        assert!(rt; !found.recheck.certified);
        assert_eq!(rt; found.misfit, Some(line));
    }
    Ok(())
}

// A right certificate, and plans that none helps.
#[test]
fn no_line_that_does_not_fit(rt: HostRuntime) -> Result<(), Fail> {
    let alloc = rt.alloc();
    for (domain, problem, plan, certificate) in [
        (TRANSPORT, ONE, PLAN1, DELIVERED.as_bytes()),
        (TWO, UP_DOWN, DOWN_THEN_UP, ONE_THEN_TWO),
        (TWO, UP_DOWN, TWO_PARENTS, ONE_THEN_TWO),
        (TWO, UP_DOWN_FOR_UP, UP_THEN_DOWN, ONE_THEN_TWO),
    ] {
        let found = examine(alloc, domain, problem, plan, certificate)?;
        assert_eq!(rt; found.misfit, None);
    }
    Ok(())
}
