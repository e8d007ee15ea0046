//! A walk over descriptors.

ghost use Rattle.std.specs.Prelude.{◌≡◌, ◌<◌, ◌≤◌, ◌∷◌, [], length, MatchOption, IfOk};
ghost use Rattle.un_desc.specs.Walk.{IsWalk, IsWalked, descriptors_of, length_at, least_length, walk_from};

use crate::descriptor::{Descriptor, describe, least};
use crate::function::DescFault;
use std::marker::Model;

/// The length of the descriptor at the front of `bytes`, which stands at the byte `at` of the whole.
#[tactic(auto, unfolding(crate::specs::Walk::length_at))]
fn length(bytes: &[u8], at: u64) -> Result<usize, DescFault>
    ensures length { result ≡ length_at at bytes.now }
    ensures two { IfOk result (λ size. 2 ≤ size) }
    ensures least { IfOk result (λ size. least_length bytes.now ≤ size) }
    ensures whole { IfOk result (λ size. size ≤ length bytes.now) }
{
    if bytes.len() < 2 {
        return Err(DescFault::Truncated { at });
    }
    let size = bytes[0] as usize;
    if size < least(bytes) {
        return Err(DescFault::BadLength { at });
    }
    if size > bytes.len() {
        return Err(DescFault::Truncated { at });
    }
    Ok(size)
}

/// Walks over all descriptors, and answers the first fault.
#[tactic(auto, using(crate::proofs::WalkLemmas::checked_none, crate::proofs::WalkLemmas::checked_more, crate::proofs::WalkLemmas::checked_all, crate::proofs::WalkLemmas::checked_bad))]
fn check(bytes: &[u8]) -> Result<(), DescFault>
    ensures { IsWalk result (walk_from 0 bytes.now) }
{
    let mut rest = bytes;
    let mut at = 0;
    while !rest.is_empty() {
        let size = length(rest, at)?;
        at += size as u64;
        let (_, more) = rest.split_at(size);
        rest = more;
    }
    Ok(())
}

/// The first descriptor, and the bytes behind it.
fn cut(bytes: &[u8]) -> (Descriptor, &[u8])
    requires walked { IsWalked bytes.now }
    requires some { 0 < length bytes.now }
    ensures walked { IsWalked result.1.now }
    ensures cut { descriptors_of bytes.now ≡ result.0 ∷ descriptors_of result.1.now }
{
    let descriptor = describe(bytes);
    let (_, rest) = bytes.split_at(bytes[0] as usize);
    (descriptor, rest)
}

/// Descriptors without a fault, which a contract sees as their list. They are read from the bytes one after the other,
/// and nothing is copied.
#[derive(Drop)]
pub struct Descriptors<'a> {
    rest: &'a [u8],
}

impl<'a> Model for Descriptors<'a> {
    ghost use Rattle.std.specs.Prelude.{List};
    ghost use Rattle.un_desc.specs.declared.descriptor.Descriptor.{Descriptor};
    ghost use Rattle.un_desc.specs.Walk.{IsWalked, descriptors_of};

    ghost Value = { List Descriptor };

    ghost view = { λ d. descriptors_of d.rest.now };

    ghost invariant = { λ d. IsWalked d.rest.now };
}

impl<'a> Descriptors<'a> {
    /// All descriptors of `bytes`, or the first fault.
    pub fn walk(bytes: &'a [u8]) -> Result<Descriptors<'a>, DescFault>
        ensures { result ≡ walk_from 0 bytes.now }
    {
        check(bytes)?;
        Ok(Descriptors { rest: bytes })
    }

    /// The same descriptors once more.
    pub fn again(&self) -> Descriptors<'a>
        ensures { result ≡ self.now }
    {
        Descriptors { rest: self.rest }
    }

    /// The next descriptor, or `None` where none is left.
    pub fn next(&mut self) -> Option<Descriptor>
        ensures { MatchOption result ((self.old ≡ []) × (self.new ≡ [])) (λ d. self.old ≡ d ∷ self.new) }
    {
        if self.rest.is_empty() {
            return None;
        }
        let (next, rest) = cut(self.rest);
        self.rest = rest;
        Some(next)
    }
}
