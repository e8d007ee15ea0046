//! A source and a sink in memory that fail where they are told to.

ghost use Rattle.std.specs.Prelude.{◌≡◌, ◌<◌, ◌≤◌, ◌-◌, min, length, IfOk, OnErr, Some, [], is_err};
ghost use Rattle.std.specs.Io.KnownBytes.{ReadConsumes, WriteAppends};
ghost use Rattle.std.specs.Prelude.{◌||◌, nat_le};
ghost use Rattle.un_facts.specs.Lists.{is_one_of};
ghost use Rattle.un_io.specs.Io.{Rose};
ghost use Rattle.un_io.specs.Memory.{Supply, Store, count_after};

use crate::copy::give;
use crate::traits::{Failed, Sink, Source};
use std::alloc::{AllocError, Global};
use std::marker::Model;

/// Gives bytes from memory, a piece in each call, and fails at the calls that were named.
#[derive(Drop)]
pub struct MemSource {
    bytes: Vec<u8>,
    at: usize,
    piece: usize,
    failing: Vec<u64>,
    calls: u64,
    faults: u64,
}

impl Model for MemSource {
    ghost use Rattle.std.specs.Prelude.{◌≤◌, drop, vec_len};
    ghost use Rattle.un_io.specs.Memory.{Supply};

    ghost Value = { Supply };

    ghost view = { λ s. record { left = drop s.at s.bytes.items; piece = s.piece; failing = s.failing.items; calls = s.calls; faults = s.faults } };

    ghost invariant = { λ s. (s.at ≤ vec_len s.bytes) × (1 ≤ s.piece) };
}

impl MemSource {
    /// A source of these bytes that gives at most `piece` (at least 1) of them in a call. The calls whose numbers, from 0, are in
    /// `failing` fail; a call that fails is counted as a call and as a fault.
    pub fn make(bytes: Vec<u8>, piece: usize, failing: Vec<u64>) -> MemSource
        requires { 1 ≤ piece }
        ensures { result ≡ record { left = bytes.items; piece = piece; failing = failing.items; calls = 0; faults = 0 } }
    {
        MemSource {
            bytes,
            at: 0,
            piece,
            failing,
            calls: 0,
            faults: 0,
        }
    }
}

impl Source for MemSource {
    ghost faults = { λ s. s.faults };

    ghost left = { λ s. Some s.left };

    fn read(&mut self, buf: &mut [u8]) -> Result<usize, Failed>
        requires { 0 < length buf.old }
        ensures bound { IfOk result (λ n. n ≤ length buf.new) }
        ensures bytes { ReadConsumes (Some self.old.left) (Some self.new.left) result buf.new }
        ensures never_falls { self.old.faults ≤ self.new.faults }
        ensures cause { OnErr result (Rose self.old.faults self.new.faults) }

        ensures fails { is_err result ≡ is_one_of self.old.calls self.old.failing }
        ensures size { IfOk result (λ n. n ≡ min (min self.old.piece (length buf.new)) (length self.old.left)) }
        ensures call { self.new.calls ≡ count_after self.old.calls }
        ensures kept { (self.new.piece ≡ self.old.piece) × (self.new.failing ≡ self.old.failing) }
    {
        let fails = self.failing.contains(&self.calls);
        self.calls = self.calls.saturating_add(1);
        if fails {
            self.faults = self.faults.saturating_add(1);
            return Err(Failed);
        }
        let count = give(&self.bytes[self.at..], self.piece, buf);
        self.at += count;
        Ok(count)
    }
}

/// Holds bytes in memory, takes a piece in each call, and fails at the calls that were named and where it is full.
#[derive(Drop)]
pub struct MemSink {
    bytes: Vec<u8>,
    room: usize,
    piece: usize,
    failing: Vec<u64>,
    calls: u64,
    faults: u64,
}

impl Model for MemSink {
    ghost use Rattle.std.specs.Prelude.{◌≤◌, vec_len, vec_capacity};
    ghost use Rattle.un_io.specs.Memory.{Store};

    ghost Value = { Store };

    ghost view = { λ s. record { held = s.bytes.items; room = s.room; piece = s.piece; failing = s.failing.items; calls = s.calls; faults = s.faults } };

    ghost invariant = { λ s. (vec_len s.bytes ≤ s.room) × (s.room ≤ vec_capacity s.bytes) × (1 ≤ s.piece) };
}

impl MemSink {
    /// A sink that holds nothing and has `room` bytes of memory. The calls whose numbers, from 0, are in `failing` fail, and so
    /// does each call when `room` bytes are held; a call that fails is counted as a call and as a fault. Every other call takes at
    /// most `piece` (at least 1) bytes, and at most the room that is left. The error is want of memory.
    pub fn make(
        alloc: Global,
        room: usize,
        piece: usize,
        failing: Vec<u64>,
    ) -> Result<MemSink, AllocError>
        requires { 1 ≤ piece }
        ensures { IfOk result (λ sink. sink ≡ record { held = []; room = room; piece = piece; failing = failing.items; calls = 0; faults = 0 }) }
    {
        let bytes = Vec::with_capacity(alloc, room)?;
        Ok(MemSink {
            bytes,
            room,
            piece,
            failing,
            calls: 0,
            faults: 0,
        })
    }

    /// The bytes that it holds.
    pub fn held(&self) -> &[u8]
        ensures { result.now ≡ self.now.held }
    {
        &self.bytes
    }
}

impl Sink for MemSink {
    ghost faults = { λ s. s.faults };

    ghost held = { λ s. Some s.held };

    fn write(&mut self, bytes: &[u8]) -> Result<usize, Failed>
        requires { 0 < length bytes.now }
        ensures bound { IfOk result (λ n. (1 ≤ n) × (n ≤ length bytes.now)) }
        ensures bytes { WriteAppends (Some self.old.held) (Some self.new.held) result bytes.now }
        ensures never_falls { self.old.faults ≤ self.new.faults }
        ensures cause { OnErr result (Rose self.old.faults self.new.faults) }

        ensures fails { is_err result ≡ is_one_of self.old.calls self.old.failing || nat_le self.old.room (length self.old.held) }
        ensures size { IfOk result (λ n. n ≡ min (min self.old.piece (length bytes.now)) (self.old.room - length self.old.held)) }
        ensures call { self.new.calls ≡ count_after self.old.calls }
        ensures kept { (self.new.room ≡ self.old.room) × (self.new.piece ≡ self.old.piece) × (self.new.failing ≡ self.old.failing) }
    {
        let fails = self.failing.contains(&self.calls);
        self.calls = self.calls.saturating_add(1);
        if fails || self.bytes.len() >= self.room {
            self.faults = self.faults.saturating_add(1);
            return Err(Failed);
        }
        let count = self
            .piece
            .min(bytes.len())
            .min(self.room - self.bytes.len());
        if self.bytes.extend_from_slice(&bytes[..count]).is_err() {
            unreachable!();
        }
        Ok(count)
    }
}
