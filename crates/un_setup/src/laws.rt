//! The law of the set-up, the contract of a call with an empty body.

ghost use Rattle.un_frame.specs.Params.{AreInRange};
ghost use Rattle.un_frame.specs.declared.params.Params.{Params};
ghost use Rattle.un_setup.specs.Exchanges.{ExchangeSucceeds};

/// A new device whose parameters are in their ranges answers each step of the host, without a stall. What crosses are the
/// exchanges of its class, it is then set up, and has the notifications of its class to send.
pub fn exchanges_succeed()
    ensures { (p : Params) → AreInRange p → ExchangeSucceeds p }
{}
