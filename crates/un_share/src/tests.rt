//! The rounds of the eleven actors.

use crate::roles::{action_of, role_of};
use std::test::Fail;
use un_frame::Lane::{Inward, Outward};
use un_journal::Action;

#[test]
fn each_actor_has_its_round(rt: HostRuntime) -> Result<(), Fail> {
    for sender in 0..4 {
        let even = Action::Offer {
            lane: Outward,
            sender,
        };
        let odd = Action::Offer {
            lane: Inward,
            sender,
        };
        assert_eq!(rt; action_of(role_of(sender), 6), even);
        assert_eq!(rt; action_of(role_of(sender), 7), odd);
    }
    let rounds = [
        (4, 9, Action::Tick { lane: Outward }),
        (5, 9, Action::Tick { lane: Inward }),
        (6, 9, Action::Move { lane: Outward }),
        (7, 9, Action::Move { lane: Inward }),
        (8, 4, Action::TxDone { lane: Outward }),
        (8, 5, Action::RxDone { lane: Inward }),
        (8, 6, Action::Deliver { lane: Inward }),
        (8, 7, Action::Refill { lane: Inward }),
        (9, 4, Action::TxDone { lane: Inward }),
        (9, 5, Action::RxDone { lane: Outward }),
        (9, 6, Action::Deliver { lane: Outward }),
        (9, 7, Action::Refill { lane: Outward }),
        (10, 6, Action::Control { force: true }),
        (10, 7, Action::Unlink { lane: Outward }),
        (10, 8, Action::Unlink { lane: Inward }),
        (10, 9, Action::ClearHalt { lane: Outward }),
        (10, 10, Action::ClearHalt { lane: Inward }),
        (10, 11, Action::Settle),
    ];
    for (actor, turn, action) in rounds {
        assert_eq!(rt; action_of(role_of(actor), turn), action);
    }
    Ok(())
}
