//! Texts that are printed anew, or rejected.

use crate::rechecked::DELIVERED;
use hv_judge::{Printed, Which, run_print};
use hv_text::{FromMemory, ToMemory};
use std::alloc::Global;
use std::test::Fail;

// What `run_print` writes.
fn printed(alloc: Global, which: Which, text: &str) -> Result<(Printed, String), Fail> {
    let mut out = ToMemory::new(alloc);
    let end = run_print(
        alloc,
        which,
        &mut FromMemory::new(text.as_bytes()),
        &mut out,
    )?;
    Ok((end, String::from_utf8_lossy(alloc, out.written())?))
}

const PRINTED_TEXTS: [(Which, &str, &str); 6] = [
    (
        Which::Domain,
        "(define (domain FLIP) (:predicates (P)) (:action Flip :effect (p)))\n",
        "(define (domain flip)\n(:predicates (p))\n(:action flip :parameters () :precondition () :effect (and (p)))\n)\n",
    ),
    (
        Which::Domain,
        "(define (domain d) (:types a b - c d) (:constants))",
        "(define (domain d)\n(:types a - c b - c d - object)\n)\n",
    ),
    (
        Which::Problem,
        "(define (problem E) (:domain Transport) (:htn :tasks (l (go)) :order (l < l)) (:init (not (p))))",
        "(define (problem e)\n(:domain transport)\n(:htn :parameters () :subtasks (and (l (go))) :ordering (and (< l l)))\n(:init (not (p)))\n)\n",
    ),
    (
        Which::Plan,
        "before\n==>\nroot 007\n; note\n007 (DRIVE T1 A B)\n<==\n",
        "==>\n7 drive t1 a b\nroot 7\n<==\n",
    ),
    (
        Which::Plan,
        "==>\n10 ( Deliver P B ) -> M-Deliver 007 11\nroot 10 00\n007 (DRIVE T1 A B) ; first\n0 stay -> m\n11 drop\n<==\n",
        "==>\n7 drive t1 a b\n11 drop\nroot 10 0\n10 deliver p b -> m-deliver 7 11\n0 stay -> m\n<==\n",
    ),
    (Which::Certificate, DELIVERED, DELIVERED),
];

// What was printed is printed as it is.
#[test]
fn prints_texts(rt: HostRuntime) -> Result<(), Fail> {
    let alloc = rt.alloc();
    for (which, text, wanted) in PRINTED_TEXTS {
        let (end, once) = printed(alloc, which, text)?;
        assert_eq!(rt; end, Printed::Done);
        assert_eq!(rt; once.as_str(), wanted, "{text}");
        let (_, twice) = printed(alloc, which, once.as_str())?;
        assert_eq!(rt; twice.as_str(), wanted, "{text}");
    }
    Ok(())
}

#[test]
fn rejects_texts_that_are_not_printed(rt: HostRuntime) -> Result<(), Fail> {
    let alloc = rt.alloc();
    for (which, text, wanted) in [
        (
            Which::Domain,
            "(define (domain d) (:types a -) (:foo))",
            "rejected domain 14 BadShape 1:20\n",
        ),
        (
            Which::Domain,
            "(define (domain d) (:types) (:types x))",
            "rejected domain 12 RepeatedSection 1:29\n",
        ),
        (
            Which::Domain,
            "(define (domain d) (:functions))",
            "rejected domain 15 Unsupported 1:20\n",
        ),
        (
            Which::Problem,
            "(define (problem p) (:domain d) (:init))",
            "rejected problem 13 MissingSection 1:1\n",
        ),
        (Which::Problem, "", "rejected problem 10 NotDefine 1:1\n"),
        (
            Which::Plan,
            "==>\nroot x\n<==\n",
            "rejected plan 42 BadLine line 2\n",
        ),
        (
            Which::Certificate,
            "solves\n",
            "rejected certificate 70 BadCertificate line 2\n",
        ),
    ] {
        let (end, line) = printed(alloc, which, text)?;
        assert_eq!(rt; end, Printed::Rejected);
        assert_eq!(rt; line.as_str(), wanted, "{text}");
    }
    Ok(())
}
