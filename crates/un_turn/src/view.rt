//! What a seat knows.

use std::collections::LinkedList;
use un_journal::{FlightKey, Line};

/// What a seat knows of its turn. No value of it is made: contracts alone speak of it. `S` is the type of
/// the machine's script.
pub struct View<S> {
    /// The machine's script; a seat that was joined away has none.
    pub script: Option<S>,
    /// The shares of the whole turn.
    pub total: u64,
    /// The seat's own shares.
    pub shares: u64,
    /// The holds in which a call was made.
    pub calls: u64,
    /// The tries that found the turn held.
    pub losses: u64,
    /// The beginning of the machine's history that it has seen: lines with their bytes.
    pub seen: LinkedList<(Line, LinkedList<u8>)>,
    /// What a seat that was joined to it had seen, until the two are compared.
    pub heard: LinkedList<(Line, LinkedList<u8>)>,
    /// Whether it holds the turn.
    pub holds: bool,
    /// Where it holds the turn, the machine's history when it entered.
    pub entry: LinkedList<(Line, LinkedList<u8>)>,
    /// The flights that were taken with it and are still out.
    pub known: LinkedList<FlightKey>,
    /// Where it holds the turn, the flights that were out when it entered.
    pub flying: LinkedList<FlightKey>,
}
