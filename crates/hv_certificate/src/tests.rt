use crate::{CertFault, Certificate, Choice, print_cert, read_cert};
use hv_text::Name;
use std::alloc::Global;
use std::test::Fail;

const TRANSPORT: &[u8] =
    b"solves\nroot children 10 objects\n10 children 11 1 12 3 objects p1 t1 a b pre 0\n11 children objects t1 a pre 0\n12 children 2 objects t1 a b pre 1\n";

// The fault of a text, where it has one.
fn fault(alloc: Global, text: &[u8]) -> Option<CertFault> {
    read_cert(alloc, text).err()
}

// The text of the certificate whose text this is, where it is one's.
fn printed(alloc: Global, text: &[u8]) -> Option<Vec<u8>> {
    let certificate = read_cert(alloc, text).ok()?;
    let mut out = Vec::new(alloc);
    print_cert(&certificate, &mut out).ok()?;
    Some(out)
}

// Whether a text is a certificate's, and is printed as it stands.
fn is_canonical(alloc: Global, text: &[u8]) -> bool {
    match printed(alloc, text) {
        Some(out) => out.as_slice() == text,
        None => false,
    }
}

fn bad(line: u32) -> Option<CertFault> {
    Some(CertFault::BadCertificate(line))
}

#[test]
fn certificates_are_read_and_printed(rt: HostRuntime) -> Result<(), Fail> {
    let alloc = rt.alloc();
    assert!(rt; is_canonical(alloc, TRANSPORT));
    assert!(rt; is_canonical(alloc, b"solves\nroot children objects\n"));
    assert!(rt;
        is_canonical(
            alloc,
            b"solves\nroot children 0 18446744073709551615 objects ->\n"
        )
    );
    assert!(rt;
        is_canonical(
            alloc,
            b"solves\nroot children objects\n7 children objects objects pre 3 pre pre 4294967295\n"
        )
    );
    Ok(())
}

#[test]
fn the_first_line_that_is_not_of_its_form(rt: HostRuntime) -> Result<(), Fail> {
    let alloc = rt.alloc();
    assert_eq!(rt;
        fault(
            alloc,
            b"solves\nroot children 10 objects\n10 children 11  1 12 3 objects p1 t1 a b pre 0\n"
        ),
        bad(3)
    );
    assert_eq!(rt;
        fault(
            alloc,
            b"solves\nroot children 010 objects\n10 children 11 1 12 3 objects p1 t1 a b pre 0\n"
        ),
        bad(2)
    );
    assert_eq!(rt;
        fault(
            alloc,
            b"solves\nroot children 10 objects\n10 children 11 1 12 3 objects P1 t1 a b pre 0\n"
        ),
        bad(3)
    );
    assert_eq!(rt; fault(alloc, &TRANSPORT[..TRANSPORT.len() - 1]), bad(5));
    assert_eq!(rt; fault(alloc, b"solves\n"), bad(2));
    assert_eq!(rt; fault(alloc, b""), bad(1));
    Ok(())
}

#[test]
fn lines_of_no_form(rt: HostRuntime) -> Result<(), Fail> {
    let alloc = rt.alloc();
    assert_eq!(rt; fault(alloc, b"solves"), bad(1));
    assert_eq!(rt; fault(alloc, b"Solves\n"), bad(1));
    assert_eq!(rt; fault(alloc, b"solves \nroot children objects\n"), bad(1));
    assert_eq!(rt;
        fault(
            alloc,
            b"solves\nroot children 18446744073709551616 objects\n"
        ),
        bad(2)
    );
    assert_eq!(rt; fault(alloc, b"solves\nroot children +1 objects\n"), bad(2));
    assert_eq!(rt; fault(alloc, b"solves\nroot children objects \n"), bad(2));
    assert_eq!(rt; fault(alloc, b"solves\nroot children objects\n\n"), bad(3));
    assert_eq!(rt;
        fault(
            alloc,
            b"solves\nroot children objects\n1 children objects pre 4294967296\n"
        ),
        bad(3)
    );
    assert_eq!(rt;
        fault(
            alloc,
            b"solves\nroot children objects\n1 children objects pre 00\n"
        ),
        bad(3)
    );
    assert_eq!(rt;
        fault(
            alloc,
            b"solves\nroot children objects\n1 children objects a\n"
        ),
        bad(3)
    );
    assert_eq!(rt;
        fault(
            alloc,
            b"solves\nroot children objects\n1 children objects a;b pre 0\n"
        ),
        bad(3)
    );
    assert_eq!(rt;
        fault(
            alloc,
            b"solves\nroot children objects\n1 children objects pre 0\r\n"
        ),
        bad(3)
    );
    Ok(())
}

#[test]
fn names_are_printed_in_lower_case(rt: HostRuntime) -> Result<(), Fail> {
    let alloc = rt.alloc();
    let mut objects = Vec::new(alloc);
    if let Some(name) = Name::new(b"P1") {
        objects.push(name)?;
    }
    let children = Vec::from_slice(alloc, &[1])?;
    let root = Choice { children, objects };
    let lines = Vec::new(alloc);
    let mut out = Vec::from_slice(alloc, b">")?;
    assert!(rt; print_cert(&Certificate { root, lines }, &mut out).is_ok());
    assert_eq!(rt;
        out.as_slice(),
        b">solves\nroot children 1 objects p1\n".as_slice()
    );
    Ok(())
}
