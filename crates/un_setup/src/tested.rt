//! Whether the parameters of a link agree.

ghost use Rattle.std.specs.Prelude.{◌≡◌, ◌+◌, ◌<◌, ◌≤◌, ◌∷◌, [], OnOk};
ghost use Rattle.un_facts.specs.Lists.{is_one_of};
ghost use Rattle.un_frame.specs.Ntb.{Format};
ghost use Rattle.un_frame.specs.NtbForm.{datagram_place};
ghost use Rattle.un_frame.specs.Blocks.{layout_of};
ghost use Rattle.un_frame.specs.Params.{AreInRange};
ghost use Rattle.un_setup.specs.Agreement.{blocks_tested, has_alignment, has_divisor, holds_one, tested_as};

use crate::agreement::SetupFault;
use un_frame::{Class, Params};
use un_layout::{closed_size, place};

/// Whether the divisor is a power of two from 1 to 64, and the remainder below it.
fn has_divisor(params: &Params) -> bool
    ensures { result ≡ Rattle.un_setup.specs.Agreement.has_divisor params.now }
{
    is_power(params.divisor) && params.remainder < params.divisor
}

/// Whether a number is a power of two from 1 to 64.
fn is_power(number: u32) -> bool
    ensures { result ≡ is_one_of number (1 ∷ 2 ∷ 4 ∷ 8 ∷ 16 ∷ 32 ∷ 64 ∷ []) }
{
    [1, 2, 4, 8, 16, 32, 64]
        .iter()
        .any(|power| *power == number)
}

/// Whether the alignment is a power of two from 4 to 64.
fn has_alignment(params: &Params) -> bool
    ensures { result ≡ Rattle.un_setup.specs.Agreement.has_alignment params.now }
{
    let alignment = params.alignment;
    [4, 8, 16, 32, 64].iter().any(|power| *power == alignment)
}

/// The bytes of a block with one frame of the largest size, by the sizes of the format's header, its table's head and a
/// pair of it.
#[tactic(auto, using(un_frame::proofs::NtbFormLemmas::least_multiple_near), unfolding(un_frame::specs::NtbForm::least_place))]
fn one_frame(params: &Params, header: u32, head: u32, pair: u32) -> u32
    requires range { AreInRange params.now }
    requires below { params.now.remainder < params.now.divisor }
    requires sizes { (header ≤ 16) × (head ≤ 16) × (pair ≤ 8) }
    ensures { (f : Format) → f.header ≡ header → f.head ≡ head → f.pair ≡ pair → result ≡ Rattle.un_frame.specs.NtbForm.closed_size f params.now.alignment (datagram_place (layout_of params.now) f.header + params.now.segment) 1 }
{
    let at = place(header, params.divisor, params.remainder);
    closed_size(at + params.segment, 1, head, pair, params.alignment)
}

/// Tests the parameters of a block format, in the order of the faults.
#[tactic(auto, unfolding(crate::specs::Agreement::blocks_tested))]
fn test_blocks(params: &Params, header: u32, head: u32, pair: u32) -> Result<(), SetupFault>
    requires range { AreInRange params.now }
    requires sizes { (header ≤ 16) × (head ≤ 16) × (pair ≤ 8) }
    ensures { (f : Format) → f.header ≡ header → f.head ≡ head → f.pair ≡ pair → result ≡ blocks_tested f params.now }
{
    if !has_divisor(params) {
        return Err(SetupFault::BadDivisor {
            divisor: params.divisor,
            remainder: params.remainder,
        });
    }
    if !has_alignment(params) {
        return Err(SetupFault::BadAlignment {
            alignment: params.alignment,
        });
    }
    if one_frame(params, header, head, pair) > params.block {
        return Err(SetupFault::NoFit {
            segment: params.segment,
            block: params.block,
        });
    }
    Ok(())
}

/// Tests the parameters of a link: those of NCM by the format of its blocks, and those of the other classes not at all.
pub fn test(params: &Params) -> Result<(), SetupFault>
    requires { AreInRange params.now }
    ensures { result ≡ tested_as params.now.class params.now }
{
    match params.class {
        Class::Ecm | Class::Eem | Class::Rndis => Ok(()),
        Class::Ncm16 => test_blocks(params, 12, 8, 4),
        Class::Ncm32 => test_blocks(params, 16, 16, 8),
    }
}
