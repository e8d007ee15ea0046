//! Each public call once.

use std::test::Fail;
use un_facts::{between, copies_add_up, count, spans};

#[test]
fn numbers_stand_in_ranges(rt: HostRuntime) -> Result<(), Fail> {
    copies_add_up();
    assert!(rt;
        between(2048, 4096, 4096),
        "a range ends before its high end"
    );
    assert!(rt;
        !spans(3, 5, 5) && spans(3, 5, 3),
        "a span holds its end or not its first"
    );
    assert_eq!(rt; (count(true), count(false)), (1, 0));
    Ok(())
}
