//! Words, expressions, names and places of texts; bytes that come in and go out.

use hv_fixtures::{Falter, FalteringReader, FalteringWriter};
use hv_text::{
    Cursor, FromMemory, Hints, Lists, Name, ReadFault, Span, TextKind, ToMemory, WriteFault, place,
    read_all, read_sexps, read_words, write_all,
};
use indexmap::IndexMap;
use std::alloc::Global;
use std::test::Fail;

#[test]
fn reads_words(rt: HostRuntime) -> Result<(), Fail> {
    let words = read_words(rt.alloc(), b"(define ; (x\n  (Domain f))")?;
    assert_eq!(rt; words.len(), 7);
    Ok(())
}

#[test]
fn reads_expressions(rt: HostRuntime) -> Result<(), Fail> {
    let es = read_sexps(rt.alloc(), b"a (b ()) ; c\n d")?;
    assert_eq!(rt; es.len(), 3);
    Ok(())
}

#[test]
fn reads_expressions_one_at_a_time(rt: HostRuntime) -> Result<(), Fail> {
    let Some(start) = Cursor::new(b"a (b ()) ; c\n d") else {
        assert!(rt; false);
        return Ok(());
    };
    let (es, end) = start.read_rest(rt.alloc())?;
    assert_eq!(rt; es.len(), 3);
    assert!(rt; end.is_over());
    Ok(())
}

// Whether the expressions of a text, one at a time, lead to its end.
fn are_read_to_the_end(alloc: Global, text: &[u8]) -> Result<bool, Fail> {
    let Some(start) = Cursor::new(text) else {
        return Ok(false);
    };
    let (_es, end) = start.read_rest(alloc)?;
    Ok(end.is_over())
}

#[test]
fn a_cursor_stops_at_a_fault(rt: HostRuntime) -> Result<(), Fail> {
    let alloc = rt.alloc();
    assert!(rt; are_read_to_the_end(alloc, b"a (b) ; c")?);
    assert!(rt; !are_read_to_the_end(alloc, b"(a (b) (c")?);
    assert!(rt; !are_read_to_the_end(alloc, b"a ) b")?);
    assert!(rt; !are_read_to_the_end(alloc, b"a \x01")?);
    Ok(())
}

#[test]
fn keeps_lists_in_one(rt: HostRuntime) -> Result<(), Fail> {
    let mut lists = Lists::with_capacity(rt.alloc(), 3)?;
    lists.push(&[1u32, 2])?;
    lists.push(&[])?;
    lists.push(&[3])?;
    assert_eq!(rt; (lists.len(), lists.item_count()), (3, 3));
    assert!(rt; lists.at(0) == [1u32, 2].as_slice());
    assert!(rt; lists.at(1).is_empty());
    assert!(rt; lists.at(2) == [3u32].as_slice());
    assert!(rt; lists.at(3).is_empty());
    Ok(())
}

#[test]
fn hints_of_names(rt: HostRuntime) -> Result<(), Fail> {
    let names = [
        Name::of_word(b"pick-up"),
        Name::of_word(b"put-down"),
        Name::of_word(b"stack"),
    ];
    let mut hints = Hints::with_room(rt.alloc(), names.len())?;
    for place in 0..names.len() {
        hints.note(names[place], place);
    }
    for place in 0..names.len() {
        let [first, second] = hints.of(names[place]);
        assert!(rt; first == place || second == place);
    }
    Ok(())
}

#[test]
fn finds_the_first_fault(rt: HostRuntime) {
    let kind = |text: &[u8]| read_sexps(rt.alloc(), text)
        .err()
        .map(|f| (f.kind, f.span.start));
    assert_eq!(rt; kind(b"(a"), Some((TextKind::Unclosed, 0)));
    assert_eq!(rt; kind(b"(a (b) (c"), Some((TextKind::Unclosed, 7)));
    assert_eq!(rt; kind(b"(a) )"), Some((TextKind::Unopened, 4)));
    assert_eq!(rt; kind(b"((a)\x01"), Some((TextKind::BadByte, 4)));
    assert_eq!(rt; kind(b";\x01\n"), None);
    let deep = [b'('; 257];
    assert_eq!(rt; kind(&deep), Some((TextKind::TooDeep, 256)));
    assert_eq!(rt; kind(&deep[..256]), Some((TextKind::Unclosed, 255)));
}

#[test]
fn places(rt: HostRuntime) {
    assert_eq!(rt; place(b"ab\ncd", Span { start: 4, past: 5 }), (2, 2));
}

#[test]
fn finds_a_name_by_another_spelling(rt: HostRuntime) -> Result<(), Fail> {
    let mut numbers: IndexMap<Name<'_>, u32> = IndexMap::new(rt.alloc());
    if let Some(name) = Name::new(b"Truck-1") {
        numbers.insert(name, 7)?;
    }
    let number = Name::new(b"tRUCK-1").and_then(|name| numbers.get(&name).copied());
    assert_eq!(rt; number, Some(7));
    Ok(())
}

#[test]
fn reads_all_or_tells_why_not(rt: HostRuntime) {
    let read = |reads_before: Option<usize>, limit: usize| {
        let mut reader = FalteringReader::new(b"abc", reads_before);
        read_all(rt.alloc(), &mut reader, limit).map(|bytes| bytes.len())
    };
    assert_eq!(rt; read(None, 3), Ok(3));
    assert_eq!(rt; read(None, 2), Err(ReadFault::TooLong));
    assert_eq!(rt; read(Some(0), 3), Err(ReadFault::Device));
    assert_eq!(rt; read(Some(3), 3), Err(ReadFault::Device));
}

#[test]
fn writes_a_beginning_where_a_write_falters(rt: HostRuntime) {
    let mut broken = FalteringWriter::new(rt.alloc(), Some(2), Falter::Fails);
    assert_eq!(rt; write_all(&mut broken, b"abc"), Err(WriteFault::Device));
    assert!(rt; broken.written() == b"ab".as_slice());
    let mut full = FalteringWriter::new(rt.alloc(), Some(1), Falter::TakesNothing);
    assert_eq!(rt; write_all(&mut full, b"abc"), Err(WriteFault::Device));
    assert!(rt; full.written() == b"a".as_slice());
}

#[test]
fn copies_memory(rt: HostRuntime) -> Result<(), Fail> {
    let bytes = read_all(rt.alloc(), &mut FromMemory::new(b"abc"), 3)?;
    let mut out = ToMemory::new(rt.alloc());
    write_all(&mut out, &bytes)?;
    assert!(rt; out.written() == b"abc".as_slice());
    Ok(())
}
