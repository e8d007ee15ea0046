//! What crosses the control endpoint.

ghost use Rattle.std.specs.Prelude.{◌≡◌};

use std::marker::Model;
use thiserror::Error;
use un_classreq::{Setup, Why};
use un_frame::Bytes;

/// A set-up packet, and the bytes that crossed with it in either direction.
#[derive(Drop)]
pub struct Exchange {
    pub setup: Setup,
    pub payload: Bytes,
}

/// Why no more crossed.
#[derive(Clone, Copy, Debug, PartialEq, Eq, Error)]
pub enum ExchangeFault {
    /// The device stalled at a step.
    #[error("the device stalled: {0:?}")]
    Stalled(Why),
    /// Memory ran out.
    #[error("out of memory")]
    NoMemory,
}

/// Exchanges in their order, which a contract sees as their list.
#[derive(Drop)]
pub struct Exchanges {
    items: Vec<Exchange>,
}

impl Model for Exchanges {
    ghost use Rattle.std.specs.Prelude.{List};
    ghost use Rattle.un_setup.specs.declared.exchange.Exchange.{Exchange};

    ghost Value = { List Exchange };

    ghost view = { λ e. e.items.items };
}

impl Exchanges {
    /// Keeps these exchanges.
    pub(crate) fn make(items: Vec<Exchange>) -> Exchanges
        ensures { result ≡ items.items }
    {
        Exchanges { items }
    }

    /// Lends all of them.
    pub fn as_slice(&self) -> &[Exchange]
        ensures { result.now ≡ self.now }
    {
        &self.items
    }
}

/// Notifications in their order, which a contract sees as the list of their bytes.
#[derive(Drop)]
pub struct Notes {
    items: Vec<Bytes>,
}

impl Model for Notes {
    ghost use Rattle.std.specs.Prelude.{ℕ, List};

    ghost Value = { List (List ℕ) };

    ghost view = { λ n. n.items.items };
}

impl Notes {
    /// Keeps these notifications.
    pub(crate) fn make(items: Vec<Bytes>) -> Notes
        ensures { result ≡ items.items }
    {
        Notes { items }
    }

    /// Lends all of them.
    pub fn as_slice(&self) -> &[Bytes]
        ensures { result.now ≡ self.now }
    {
        &self.items
    }
}
