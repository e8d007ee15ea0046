//! Each of the gadget's ends has its own lane's requests.

ghost use Rattle.un_frame.specs.Params.{Agree, AreInRange};

use std::test::Fail;
use un_endpoint::{RxEnd, TxEnd};
use un_frame::{Class, Params};
use un_gadget::make;

/// The parameters of a link of EEM whose four pools differ in size.
fn params() -> Params
    ensures in_range { AreInRange result }
    ensures agree { Agree result }
{
    Params {
        tx_out: 1,
        rx_out: 2,
        tx_in: 3,
        rx_in: 4,
        ..Params::of_class(Class::Eem)
    }
}

#[test]
fn ends_have_their_requests(rt: HostRuntime) -> Result<(), Fail> {
    let params = params();
    let (tx, rx) = make(rt.alloc(), &params)?;
    assert_eq!(rt; (tx.home(), rx.home()), (3, 2));
    Ok(())
}
