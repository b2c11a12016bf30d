//! Verdicts, checks of certificates and printed texts, over readers and writers that falter: at
//! some reads and writes, and at each in turn.

ghost use Rattle.std.specs.Prelude.{◌≡◌};
ghost use Rattle.hv_fixtures.specs.Faltering.{writes_failed};

use crate::judged::UP_THEN_DOWN;
use crate::rechecked::ONE_THEN_TWO;
use hv_fixtures::{Falter, FalteringReader, FalteringWriter, TWO, UP_DOWN};
use hv_judge::{Kind, Printed, RecheckKind, RunFault, Which, run, run_print, run_recheck};
use std::alloc::Global;
use std::test::Fail;

// What `run` answers where the reader of each text gives one byte a call and may fail
// at one of them.
fn run_slowly(
    alloc: Global,
    reads: [Option<usize>; 3],
    out: &mut FalteringWriter,
) -> Result<Kind, RunFault>
    requires { writes_failed out.old ≡ 0 }
{
    let mut domain = FalteringReader::new(TWO, reads[0]);
    let mut problem = FalteringReader::new(UP_DOWN, reads[1]);
    let mut plan = FalteringReader::new(UP_THEN_DOWN, reads[2]);
    run(alloc, &mut domain, &mut problem, &mut plan, 1, true, out)
}

#[test]
fn readers_that_falter(rt: HostRuntime) -> Result<(), Fail> {
    let alloc = rt.alloc();
    for (reads, wanted, text) in [
        (
            [None, None, None],
            Ok(Kind::Solves),
            "solves\nroot children 1 2 objects\n",
        ),
        (
            [Some(0), None, None],
            Err(RunFault::Read(Which::Domain)),
            "",
        ),
        (
            [Some(40), Some(0), None],
            Err(RunFault::Read(Which::Domain)),
            "",
        ),
        (
            [None, Some(50), Some(0)],
            Err(RunFault::Read(Which::Problem)),
            "",
        ),
        ([None, None, Some(29)], Err(RunFault::Read(Which::Plan)), ""),
    ] {
        let mut out = FalteringWriter::new(alloc, None, Falter::Fails);
        let ended = run_slowly(alloc, reads, &mut out);
        assert_eq!(rt; ended, wanted);
        assert!(rt; out.written() == text.as_bytes());
    }
    Ok(())
}

#[test]
fn writers_that_falter(rt: HostRuntime) -> Result<(), Fail> {
    let alloc = rt.alloc();
    for (writes, falter, text) in [
        (0, Falter::Fails, ""),
        (0, Falter::TakesNothing, ""),
        (5, Falter::Fails, "solve"),
        (9, Falter::TakesNothing, "solves\nro"),
    ] {
        let mut out = FalteringWriter::new(alloc, Some(writes), falter);
        let ended = run_slowly(alloc, [None, None, None], &mut out);
        assert_eq!(rt; ended, Err(RunFault::Write));
        assert!(rt; out.written() == text.as_bytes());
    }
    Ok(())
}

// What `run_recheck` answers where the reader of each text gives one byte a call and may fail at
// one of them.
fn recheck_slowly(
    alloc: Global,
    reads: [Option<usize>; 4],
    out: &mut FalteringWriter,
) -> Result<RecheckKind, RunFault>
    requires { writes_failed out.old ≡ 0 }
{
    let mut domain = FalteringReader::new(TWO, reads[0]);
    let mut problem = FalteringReader::new(UP_DOWN, reads[1]);
    let mut plan = FalteringReader::new(UP_THEN_DOWN, reads[2]);
    let mut certificate = FalteringReader::new(ONE_THEN_TWO, reads[3]);
    run_recheck(
        alloc,
        &mut domain,
        &mut problem,
        &mut plan,
        &mut certificate,
        out,
    )
}

// Where a reader fails behind some of a text, what it gave is not taken for the whole.
#[test]
fn readers_of_a_certificate_that_falter(rt: HostRuntime) -> Result<(), Fail> {
    let alloc = rt.alloc();
    for (reads, wanted, text) in [
        (
            [None, None, None, None],
            Ok(RecheckKind::Certified),
            "certified\n",
        ),
        (
            [Some(40), None, None, Some(0)],
            Err(RunFault::Read(Which::Domain)),
            "",
        ),
        (
            [None, Some(50), Some(0), None],
            Err(RunFault::Read(Which::Problem)),
            "",
        ),
        (
            [None, None, Some(29), Some(0)],
            Err(RunFault::Read(Which::Plan)),
            "",
        ),
        (
            [None, None, None, Some(7)],
            Err(RunFault::Read(Which::Certificate)),
            "",
        ),
        (
            [None, None, None, Some(33)],
            Err(RunFault::Read(Which::Certificate)),
            "",
        ),
    ] {
        let mut out = FalteringWriter::new(alloc, None, Falter::Fails);
        let ended = recheck_slowly(alloc, reads, &mut out);
        assert_eq!(rt; ended, wanted);
        assert!(rt; out.written() == text.as_bytes());
    }
    Ok(())
}

#[test]
fn writers_of_what_was_found_that_falter(rt: HostRuntime) -> Result<(), Fail> {
    let alloc = rt.alloc();
    for (writes, falter, text) in [
        (0, Falter::TakesNothing, ""),
        (5, Falter::Fails, "certi"),
        (9, Falter::TakesNothing, "certified"),
    ] {
        let mut out = FalteringWriter::new(alloc, Some(writes), falter);
        let ended = recheck_slowly(alloc, [None, None, None, None], &mut out);
        assert_eq!(rt; ended, Err(RunFault::Write));
        assert!(rt; out.written() == text.as_bytes());
    }
    Ok(())
}

// A read that fails of one text alone, behind so many that go well.
fn failing_at(which: Which, good_reads: usize) -> [Option<usize>; 4] {
    match which {
        Which::Domain => [Some(good_reads), None, None, None],
        Which::Problem => [None, Some(good_reads), None, None],
        Which::Plan => [None, None, Some(good_reads), None],
        Which::Certificate => [None, None, None, Some(good_reads)],
    }
}

// Whether `run` blames a text of so many bytes wherever a read of it fails, and writes nothing.
fn is_blamed(alloc: Global, which: Which, length: usize) -> bool {
    for good_reads in 0..=length {
        let [domain, problem, plan, _] = failing_at(which, good_reads);
        let mut out = FalteringWriter::new(alloc, None, Falter::Fails);
        let ended = run_slowly(alloc, [domain, problem, plan], &mut out);
        if ended != Err(RunFault::Read(which)) || !out.written().is_empty() {
            return false;
        }
    }
    true
}

// The same of `run_recheck`.
fn is_blamed_by_a_check(alloc: Global, which: Which, length: usize) -> bool {
    for good_reads in 0..=length {
        let mut out = FalteringWriter::new(alloc, None, Falter::Fails);
        let ended = recheck_slowly(alloc, failing_at(which, good_reads), &mut out);
        if ended != Err(RunFault::Read(which)) || !out.written().is_empty() {
            return false;
        }
    }
    true
}

#[test]
fn each_read_fails_in_turn(rt: HostRuntime) {
    let alloc = rt.alloc();
    assert!(rt; is_blamed(alloc, Which::Domain, TWO.len()));
    assert!(rt; is_blamed(alloc, Which::Problem, UP_DOWN.len()));
    assert!(rt; is_blamed(alloc, Which::Plan, UP_THEN_DOWN.len()));
}

#[test]
fn each_read_of_a_check_fails_in_turn(rt: HostRuntime) {
    let alloc = rt.alloc();
    assert!(rt; is_blamed_by_a_check(alloc, Which::Domain, TWO.len()));
    assert!(rt; is_blamed_by_a_check(alloc, Which::Problem, UP_DOWN.len()));
    assert!(rt; is_blamed_by_a_check(alloc, Which::Plan, UP_THEN_DOWN.len()));
    assert!(rt; is_blamed_by_a_check(alloc, Which::Certificate, ONE_THEN_TWO.len()));
}

// Whether a writer that falters behind each number of bytes in turn has just these of a text.
fn are_written_up_to_there(alloc: Global, text: &[u8], falter: Falter) -> bool {
    for good_writes in 0..text.len() {
        let mut out = FalteringWriter::new(alloc, Some(good_writes), falter);
        let ended = run_slowly(alloc, [None, None, None], &mut out);
        if ended != Err(RunFault::Write) || out.written() != &text[..good_writes] {
            return false;
        }
    }
    true
}

// The same of what `run_recheck` writes.
fn is_found_up_to_there(alloc: Global, text: &[u8], falter: Falter) -> bool {
    for good_writes in 0..text.len() {
        let mut out = FalteringWriter::new(alloc, Some(good_writes), falter);
        let ended = recheck_slowly(alloc, [None, None, None, None], &mut out);
        if ended != Err(RunFault::Write) || out.written() != &text[..good_writes] {
            return false;
        }
    }
    true
}

#[test]
fn each_write_fails_in_turn(rt: HostRuntime) {
    let alloc = rt.alloc();
    for falter in [Falter::Fails, Falter::TakesNothing] {
        let solved = b"solves\nroot children 1 2 objects\n";
        assert!(rt; are_written_up_to_there(alloc, solved, falter));
        assert!(rt; is_found_up_to_there(alloc, b"certified\n", falter));
    }
}

// What `run_print` answers where the reader gives one byte a call and may fail at one of them.
fn print_slowly(
    alloc: Global,
    which: Which,
    text: &[u8],
    reads: Option<usize>,
    out: &mut FalteringWriter,
) -> Result<Printed, RunFault>
    requires { writes_failed out.old ≡ 0 }
{
    run_print(alloc, which, &mut FalteringReader::new(text, reads), out)
}

// Whether each read of a text that is to be printed fails in turn.
fn is_blamed_in_printing(alloc: Global, which: Which, text: &[u8]) -> bool {
    for good_reads in 0..=text.len() {
        let mut out = FalteringWriter::new(alloc, None, Falter::Fails);
        let ended = print_slowly(alloc, which, text, Some(good_reads), &mut out);
        if ended != Err(RunFault::Read(which)) || !out.written().is_empty() {
            return false;
        }
    }
    true
}

// Whether each write of a text that is printed as it is falters in turn, behind what was written.
fn is_printed_up_to_there(alloc: Global, which: Which, text: &[u8], falter: Falter) -> bool {
    for good_writes in 0..text.len() {
        let mut out = FalteringWriter::new(alloc, Some(good_writes), falter);
        let ended = print_slowly(alloc, which, text, None, &mut out);
        if ended != Err(RunFault::Write) || out.written() != &text[..good_writes] {
            return false;
        }
    }
    true
}

#[test]
fn each_read_and_write_of_a_text_to_print_fails_in_turn(rt: HostRuntime) {
    let alloc = rt.alloc();
    for (which, text) in [
        (
            Which::Domain,
            b"(define (domain d)\n(:predicates (p))\n)\n".as_slice(),
        ),
        (Which::Plan, b"==>\n7 drive t1 a b\nroot 7\n<==\n"),
        (Which::Certificate, ONE_THEN_TWO),
    ] {
        assert!(rt; is_blamed_in_printing(alloc, which, text));
        assert!(rt; is_printed_up_to_there(alloc, which, text, Falter::Fails));
        assert!(rt; is_printed_up_to_there(alloc, which, text, Falter::TakesNothing));
    }
}
