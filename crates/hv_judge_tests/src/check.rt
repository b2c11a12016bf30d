//! Certificates that are checked.

use crate::judged::UP_THEN_DOWN;
use hv_fixtures::{
    EXCHANGE, EXCHANGE_ONCE, MIDDLE, MIDDLE_UNORDERED, ONE, PLAN1, TRANSPORT, TWO, UP_DOWN,
};
use hv_judge::{Certificate, CheckFault, Choice, Which, check};
use hv_text::Name;
use std::alloc::Global;
use std::test::Fail;

// A choice as it is written: the ids of children, and the names of objects.
#[derive(Clone, Copy)]
struct Said(&'static [u64], &'static [&'static str]);

// What a certificate says of a decomposition line: its id, its choice and its index.
#[derive(Clone, Copy)]
struct Line(u64, Said, u32);

fn choice(alloc: Global, said: &Said) -> Result<Choice<'static>, Fail> {
    let mut objects = Vec::new(alloc);
    for word in said.1 {
        if let Some(name) = Name::new(word.as_bytes()) {
            objects.push(name)?;
        }
    }
    let children = Vec::from_slice(alloc, said.0)?;
    Ok(Choice { children, objects })
}

fn certificate(alloc: Global, root: Said, lines: &[Line]) -> Result<Certificate<'static>, Fail> {
    let root = choice(alloc, &root)?;
    let mut said = Vec::new(alloc);
    for line in lines {
        said.push((line.0, choice(alloc, &line.1)?, line.2))?;
    }
    Ok(Certificate { root, lines: said })
}

const DELIVER: Line = Line(10, Said(&[11, 1, 12, 3], &["p1", "T1", "a", "b"]), 0);

const STAY: Line = Line(11, Said(&[], &["t1", "a"]), 0);

// What is said of the drive of the package, with this index.
fn drive(at: u32) -> Line {
    Line(12, Said(&[2], &["t1", "a", "b"]), at)
}

// How these lines are checked for the plan of `transport`.
fn transported(alloc: Global, lines: &[Line]) -> Result<Option<bool>, Fail> {
    let given = certificate(alloc, Said(&[10], &[]), lines)?;
    Ok(check(alloc, TRANSPORT, ONE, PLAN1, &given).ok())
}

// The package is loaded before the drive begins, and the drive ends before it is unloaded.
#[test]
fn certificates_of_transport(rt: HostRuntime) -> Result<(), Fail> {
    for (at, wanted) in [(0, false), (1, true), (2, false), (u32::MAX, false)] {
        let lines = [DELIVER, STAY, drive(at)];
        assert_eq!(rt; transported(rt.alloc(), &lines)?, Some(wanted));
    }
    Ok(())
}

#[test]
fn lines_missing_extra_or_in_another_order(rt: HostRuntime) -> Result<(), Fail> {
    let alloc = rt.alloc();
    let drive = drive(1);
    assert_eq!(rt; transported(alloc, &[DELIVER, drive])?, Some(false));
    assert_eq!(rt;
        transported(alloc, &[DELIVER, STAY, drive, drive])?,
        Some(false)
    );
    assert_eq!(rt; transported(alloc, &[DELIVER, drive, STAY])?, Some(false));
    assert_eq!(rt; transported(alloc, &[])?, Some(false));
    Ok(())
}

/// A plan in which a task is done in the middle of another.
pub(crate) const UP_AND_DOWN: &[u8] =
    b"==>\n1 up\n2 down\nroot 10 11\n10 x -> m-x 1 2\n11 y -> m-y\n<==\n";

#[test]
fn certificates_of_middle(rt: HostRuntime) -> Result<(), Fail> {
    let alloc = rt.alloc();
    for (children, at, wanted) in [
        (&[10, 11], 1, true),
        (&[10, 11], 2, false),
        (&[11, 10], 1, false),
    ] {
        let lines = [
            Line(10, Said(&[1, 2], &[]), 0),
            Line(11, Said(&[], &[]), at),
        ];
        let given = certificate(alloc, Said(children, &[]), &lines)?;
        assert_eq!(rt;
            check(alloc, MIDDLE, MIDDLE_UNORDERED, UP_AND_DOWN, &given),
            Ok(wanted)
        );
    }
    Ok(())
}

const BOTH_LOOK: &[u8] = b"==>\n1 first\n2 second\n3 last\nroot 10 1 2 3\n\
    10 both -> m-both 20 21\n20 look o1 -> m-look\n21 look o2 -> m-look\n<==\n";

// The line of `o1` needs the state after the action that sees it, and `last` is after both lines.
#[test]
fn certificates_of_exchange(rt: HostRuntime) -> Result<(), Fail> {
    let alloc = rt.alloc();
    for (both, first, second, wanted) in [
        (Line(10, Said(&[21, 20], &["o2", "o1"]), 1), 2, 1, true),
        (Line(10, Said(&[20, 21], &["o1", "o2"]), 0), 2, 3, false),
    ] {
        let lines = [
            both,
            Line(20, Said(&[], &["o1"]), first),
            Line(21, Said(&[], &["o2"]), second),
        ];
        let given = certificate(alloc, Said(&[10, 1, 2, 3], &[]), &lines)?;
        assert_eq!(rt;
            check(alloc, EXCHANGE, EXCHANGE_ONCE, BOTH_LOOK, &given),
            Ok(wanted)
        );
    }
    Ok(())
}

/// A plan in which a line is a child twice.
pub(crate) const TWO_PARENTS: &[u8] = b"==>\n1 up\n2 down\nroot 1 2 2\n<==\n";

#[test]
fn plans_that_are_rejected_or_no_tree(rt: HostRuntime) -> Result<(), Fail> {
    let alloc = rt.alloc();
    let given = certificate(alloc, Said(&[1, 2], &[]), &[])?;
    assert_eq!(rt; check(alloc, TWO, UP_DOWN, UP_THEN_DOWN, &given), Ok(true));
    assert_eq!(rt; check(alloc, TWO, UP_DOWN, TWO_PARENTS, &given), Ok(false));
    let rejected = check(alloc, TWO, UP_DOWN, b"", &given);
    assert!(rt; matches!(rejected, Err(CheckFault::Rejected(Which::Plan, _))));
    Ok(())
}
