use crate::end::{End, status, write_end};
use hv_judge::{Kind, Printed, RecheckKind};
use hv_text::ToMemory;
use std::test::Fail;

#[test]
fn ends(rt: HostRuntime) -> Result<(), Fail> {
    for (end, wanted, line) in [
        (End::Judged(Kind::Solves), 0, ""),
        (End::Judged(Kind::Fails), 1, ""),
        (End::Judged(Kind::Undecided), 2, ""),
        (End::Judged(Kind::Rejected), 3, ""),
        (End::Rechecked(RecheckKind::Certified), 0, ""),
        (End::Rechecked(RecheckKind::NotCertified), 1, ""),
        (End::Rechecked(RecheckKind::Rejected), 3, ""),
        (End::Printed(Printed::Done), 0, ""),
        (End::Printed(Printed::Rejected), 3, ""),
        (End::Words, 4, ""),
        (
            End::NotUtf8,
            4,
            "hddlv: a word of the command line is not UTF-8\n",
        ),
        (
            End::Missing,
            4,
            "hddlv: the command line lacks a command or a value\n",
        ),
        (End::CannotRead("a b"), 5, "hddlv: cannot read a b\n"),
        (End::CannotWrite, 5, "hddlv: cannot write\n"),
        (End::OutOfMemory, 5, "hddlv: out of memory\n"),
    ] {
        assert_eq!(rt; status(&end), wanted);
        let mut out = ToMemory::new(rt.alloc());
        write_end(&end, &mut out)?;
        assert!(rt; out.written() == line.as_bytes());
    }
    Ok(())
}
