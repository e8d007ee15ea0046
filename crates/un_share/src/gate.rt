//! Gates: what a test hangs on the workers.

use std::sync::Wait;

/// What a test hangs on the workers, to put their holds in an order. It gets no access to the machine, changes
/// nothing of it and can't fail. A gate that never returns keeps its worker from returning.
pub trait Gate {
    /// Before a worker's turn: the worker `actor` (0 to 10) is about to ask for its hold number `turn`, which counts from 0.
    fn before<R: Wait>(&self, rt: &R, actor: u32, turn: u64);

    /// While the completion `actor` (6 or 7) has a flight in hand, outside the turn and before it copies.
    fn holding<R: Wait>(&self, rt: &R, actor: u32);
}

/// The gate that holds nobody back.
#[derive(Drop)]
pub struct OpenGate;

impl Gate for OpenGate {
    fn before<R: Wait>(&self, _rt: &R, _actor: u32, _turn: u64) {}

    fn holding<R: Wait>(&self, _rt: &R, _actor: u32) {}
}
