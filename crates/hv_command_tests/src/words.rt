use hv_command::{Job, JobFault, Mode, job};
use std::alloc::{AllocError, Global};
use std::test::Fail;

// The job that the words name, if they name one.
fn named<'a>(alloc: Global, words: &'a [&'a str]) -> Option<Job> {
    job(alloc, words).ok()
}

// Whether the words are refused for their own sake.
fn is_refused<'a>(alloc: Global, words: &'a [&'a str]) -> bool {
    matches!(job(alloc, words), Err(JobFault::Words(_)))
}

fn job_with(
    alloc: Global,
    mode: Mode,
    files: &[&str],
    limit: u64,
    explain: bool,
) -> Result<Option<Job>, AllocError> {
    let mut names = Vec::new(alloc);
    for file in files {
        names.push(String::from_str(alloc, file)?)?;
    }
    Ok(Some(Job {
        mode,
        files: names,
        limit,
        explain,
        misfit: false,
    }))
}

// A job of words that give no limit and ask for no certificate.
fn plain(alloc: Global, mode: Mode, files: &[&str]) -> Result<Option<Job>, AllocError> {
    job_with(alloc, mode, files, 1_000_000, false)
}

// The same job, asked for the line that does not fit.
fn with_misfit(job: Option<Job>) -> Option<Job> {
    let job = job?;
    Some(Job {
        misfit: true,
        ..job
    })
}

#[test]
fn words_that_ask_for_a_verdict(rt: HostRuntime) -> Result<(), Fail> {
    let alloc = rt.alloc();
    let files = ["d", "p", "q"];
    assert_eq!(rt;
        named(alloc, &["hddlv", "judge", "d", "p", "q"]),
        plain(alloc, Mode::Judge, &files)?
    );
    assert_eq!(rt;
        named(
            alloc,
            &["hddlv", "judge", "--limit", "9", "--explain", "d", "p", "q"]
        ),
        job_with(alloc, Mode::Judge, &files, 9, true)?
    );
    assert_eq!(rt;
        named(alloc, &["hddlv", "judge", "d", "--limit=5", "p", "q"]),
        job_with(alloc, Mode::Judge, &files, 5, false)?
    );
    assert_eq!(rt;
        named(alloc, &["hddlv", "judge", "d", "p", "q", "--explain"]),
        job_with(alloc, Mode::Judge, &files, 1_000_000, true)?
    );
    assert_eq!(rt;
        named(alloc, &["hddlv", "judge", "--limit=+5", "d", "p", "q"]),
        job_with(alloc, Mode::Judge, &files, 5, false)?
    );
    let most = "18446744073709551615";
    assert_eq!(rt;
        named(alloc, &["hddlv", "judge", "--limit", most, "d", "p", "q"]),
        job_with(alloc, Mode::Judge, &files, u64::MAX, false)?
    );
    Ok(())
}

#[test]
fn words_that_ask_for_a_recheck(rt: HostRuntime) -> Result<(), Fail> {
    let alloc = rt.alloc();
    assert_eq!(rt;
        named(alloc, &["hddlv", "recheck", "d", "p", "q", "c"]),
        plain(alloc, Mode::Recheck, &["d", "p", "q", "c"])?
    );
    assert_eq!(rt;
        named(alloc, &["hddlv", "recheck", "--misfit", "d", "p", "q", "c"]),
        with_misfit(plain(alloc, Mode::Recheck, &["d", "p", "q", "c"])?)
    );
    assert!(rt; is_refused(alloc, &["hddlv", "judge", "--misfit", "d", "p", "q"]));
    assert!(rt; is_refused(alloc, &["hddlv", "recheck"]));
    assert!(rt; is_refused(alloc, &["hddlv", "recheck", "d", "p", "q"]));
    assert!(rt; is_refused(alloc, &["hddlv", "recheck", "d", "p", "q", "c", "r"]));
    assert!(rt;
        is_refused(
            alloc,
            &["hddlv", "recheck", "--explain", "d", "p", "q", "c"]
        )
    );
    assert!(rt;
        is_refused(
            alloc,
            &["hddlv", "recheck", "--limit", "9", "d", "p", "q", "c"]
        )
    );
    Ok(())
}

#[test]
fn words_that_ask_for_a_canonical_text(rt: HostRuntime) -> Result<(), Fail> {
    let alloc = rt.alloc();
    for (command, mode) in [
        ("print-domain", Mode::PrintDomain),
        ("print-problem", Mode::PrintProblem),
        ("print-plan", Mode::PrintPlan),
    ] {
        assert_eq!(rt;
            named(alloc, &["hddlv", command, "f"]),
            plain(alloc, mode, &["f"])?
        );
        assert!(rt; is_refused(alloc, &["hddlv", command]));
        assert!(rt; is_refused(alloc, &["hddlv", command, "f", "g"]));
        assert!(rt; is_refused(alloc, &["hddlv", command, "--explain", "f"]));
        assert!(rt; is_refused(alloc, &["hddlv", command, "--limit", "9", "f"]));
    }
    Ok(())
}

#[test]
fn words_that_are_refused(rt: HostRuntime) -> Result<(), Fail> {
    let alloc = rt.alloc();
    assert!(rt; is_refused(alloc, &[]));
    assert!(rt; is_refused(alloc, &["hddlv"]));
    assert!(rt; is_refused(alloc, &["hddlv", "--help"]));
    assert!(rt; is_refused(alloc, &["hddlv", "--version"]));
    assert!(rt; is_refused(alloc, &["hddlv", "solve", "d", "p", "q"]));
    assert!(rt; is_refused(alloc, &["hddlv", "judge", "d", "p"]));
    assert!(rt; is_refused(alloc, &["hddlv", "judge", "d", "p", "q", "r"]));
    for limit in ["x", "", "1.5", "-1", "18446744073709551616"] {
        assert!(rt; is_refused(alloc, &["hddlv", "judge", "--limit", limit, "d", "p", "q"]));
    }
    assert!(rt; is_refused(alloc, &["hddlv", "judge", "--limit=-1", "d", "p", "q"]));
    assert!(rt;
        is_refused(
            alloc,
            &[
                "hddlv", "judge", "--limit", "9", "--limit", "9", "d", "p", "q"
            ]
        )
    );
    Ok(())
}
