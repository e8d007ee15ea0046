//! A text that is put on a page, and one whose write fails in mid-stream; words and numbers both ways.

use std::test::Fail;
use un_frame::{Class, Lane};
use un_io::{MemSink, WriteFault};
use un_text::*;

#[test]
fn a_text_is_put(rt: HostRuntime) -> Result<(), Fail> {
    let mut sink = MemSink::make(rt.alloc(), 99, 99, Vec::new(rt.alloc()))?;
    let mut page = Page::blank();
    page.put(&mut sink, b"frame");
    page.reserve(&mut sink, 64);
    word(&mut page.pending, lane_word(Lane::Inward));
    number(&mut page.pending, 7);
    page.put(&mut sink, b" ");
    page.put_hex(&mut sink, &[0x0a, 0xff]);
    assert_eq!(rt; sink.held().len(), 0);
    assert_eq!(rt; page.finish(&mut sink), Ok(()));
    assert_eq!(rt; sink.held(), b"frame in 7 0aff".as_slice());
    Ok(())
}

#[test]
fn a_failed_write_is_told_at_the_end(rt: HostRuntime) -> Result<(), Fail> {
    let mut sink = MemSink::make(rt.alloc(), 99, 4, Vec::from_slice(rt.alloc(), &[1])?)?;
    let mut page = Page::blank();
    page.put(&mut sink, b"class ecm\n");
    page.reserve(&mut sink, 8192);
    page.put(&mut sink, b"frames 0\n");
    assert_eq!(rt; page.finish(&mut sink), Err(WriteFault));
    assert_eq!(rt; sink.held(), b"clas".as_slice());
    Ok(())
}

#[test]
fn words_and_numbers_are_read(rt: HostRuntime) -> Result<(), Fail> {
    assert_eq!(rt; class_named(class_word(Class::Ncm16)), Some(Class::Ncm16));
    assert_eq!(rt; lane_named(b"inward"), None);
    assert_eq!(rt;
        (short(b"4294967295"), short(b"4294967296"), short(b"01")),
        (Some(u32::MAX), None, None)
    );
    assert_eq!(rt; long(b"18446744073709551616"), None);
    assert_eq!(rt;
        cut_word(b"a b c"),
        (b"a".as_slice(), Some(b"b c".as_slice()))
    );
    Ok(())
}
