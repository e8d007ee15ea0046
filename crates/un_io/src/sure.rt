//! A source and a sink that never fail.

ghost use Rattle.std.specs.Prelude.{◌≡◌, ◌<◌, ◌≤◌, ◌+◌, length, min, IfOk, OnErr, IsOk, Some, None};
ghost use Rattle.std.specs.Io.KnownBytes.{ReadConsumes, WriteAppends};
ghost use Rattle.un_io.specs.Io.{LAST_COUNT};

use crate::copy::give;
use crate::traits::{Failed, Sink, Source};
use std::marker::Model;

/// Gives bytes from memory; the code gives in each call as many as the buffer has room for. Its count is 0 for good: it never fails.
#[derive(Drop)]
pub struct SureSource {
    bytes: Vec<u8>,
    at: usize,
}

impl Model for SureSource {
    ghost use Rattle.std.specs.Prelude.{◌≤◌, ℕ, List, drop, vec_len};

    ghost Value = { List ℕ };

    ghost view = { λ s. drop s.at s.bytes.items };

    ghost invariant = { λ s. s.at ≤ vec_len s.bytes };
}

impl SureSource {
    /// A source of these bytes.
    pub fn make(bytes: Vec<u8>) -> SureSource
        ensures { result ≡ bytes.items }
    {
        SureSource { bytes, at: 0 }
    }
}

impl Source for SureSource {
    ghost faults = { λ _. 0 };

    ghost left = { λ s. Some s };

    fn read(&mut self, buf: &mut [u8]) -> Result<usize, Failed>
        requires { 0 < length buf.old }
        ensures bound { IfOk result (λ n. n ≤ length buf.new) }
        ensures bytes { ReadConsumes (Some self.old) (Some self.new) result buf.new }
        ensures ok { IsOk result }
    {
        let count = give(&self.bytes[self.at..], usize::MAX, buf);
        self.at += count;
        Ok(count)
    }
}

/// Tells only how many bytes it was given; the code takes all of them in each call, and keeps none. Its count is 0 for good: it never
/// fails.
#[derive(Drop)]
pub struct SureSink {
    given: u64,
}

impl SureSink {
    /// A sink that was given nothing.
    pub fn make() -> SureSink
        ensures { result.given ≡ 0 }
    {
        SureSink { given: 0 }
    }

    /// How many bytes it was given in all calls; the greatest u64 where there were more.
    pub fn given(&self) -> u64
        ensures { result ≡ self.now.given }
    {
        self.given
    }
}

impl Sink for SureSink {
    ghost faults = { λ _. 0 };

    ghost held = { λ _. None };

    fn write(&mut self, bytes: &[u8]) -> Result<usize, Failed>
        requires { 0 < length bytes.now }
        ensures bound { IfOk result (λ n. (1 ≤ n) × (n ≤ length bytes.now)) }
        ensures ok { IsOk result }
        ensures given { self.new.given ≡ min (self.old.given + length bytes.now) LAST_COUNT }
    {
        self.given = self.given.saturating_add(bytes.len() as u64);
        Ok(bytes.len())
    }
}
