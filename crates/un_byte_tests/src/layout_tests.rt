//! Places and sizes worked out by hand.

use un_layout::{align, closed_size, place};

#[test]
#[tactic(auto, unfolding(un_frame::specs::NtbForm::least_place, un_frame::specs::NtbForm::least_multiple, un_frame::specs::NtbForm::closed_size))]
fn places_datagrams(rt: HostRuntime) {
    assert_eq!(rt;
        (place(12, 4, 0), place(14, 4, 0), place(15, 4, 0)),
        (14, 14, 18)
    );
    assert_eq!(rt; (place(16, 32, 14), place(12, 1, 0)), (32, 12));
    assert_eq!(rt; (align(74, 4), align(76, 4), align(0, 64)), (76, 76, 0));
    assert_eq!(rt;
        (closed_size(74, 1, 8, 4, 4), closed_size(78, 1, 16, 8, 4)),
        (92, 112)
    );
}
