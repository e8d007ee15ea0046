//! What the host sends, in order.

ghost use Rattle.std.specs.Prelude.{◌≡◌, ◌++◌, ◌∷◌, [], IfOk, OnOk};
ghost use Rattle.un_classreq.specs.Setup as SetupBytes;
ghost use Rattle.un_frame.specs.Bytes.{number_bytes};
ghost use Rattle.un_frame.specs.Params.{AreInRange};
ghost use Rattle.un_setup.specs.Exchanges.{steps_of};

use crate::exchange::Exchange;
use byteorder::{ByteOrder, LittleEndian};
use std::alloc::{AllocError, Global};
use un_classreq::Setup;
use un_frame::{Bytes, Class, Params};

/// A set-up packet.
fn packet(request_type: u8, request: u8, value: u16, index: u16, length: u16) -> Setup
    ensures { result ≡ SetupBytes.packet request_type request value index length }
{
    Setup {
        request_type,
        request,
        value,
        index,
        length,
    }
}

/// Appends a step with the bytes that the host sends after the packet.
fn push(steps: &mut Vec<Exchange>, setup: Setup, payload: Vec<u8>) -> Result<(), AllocError>
    ensures { OnOk result (steps.new.items ≡ steps.old.items ++ record { setup = setup; payload = payload.items } ∷ []) }
{
    steps.push(Exchange {
        setup,
        payload: Bytes::make(payload),
    })?;
    Ok(())
}

/// The two bytes of a number, the lowest first.
#[tactic(auto, unfolding(un_frame::specs::Bytes::number_bytes))]
fn short(alloc: Global, number: u16) -> Result<Vec<u8>, AllocError>
    ensures { IfOk result (λ v. v.items ≡ number_bytes 2 number) }
{
    let mut bytes = [0u8; 2];
    LittleEndian::write_u16(&mut bytes, number);
    Vec::from_slice(alloc, &bytes)
}

/// The four bytes of a number, the lowest first.
#[tactic(auto, unfolding(un_frame::specs::Bytes::number_bytes))]
fn long(alloc: Global, number: u32) -> Result<Vec<u8>, AllocError>
    ensures { IfOk result (λ v. v.items ≡ number_bytes 4 number) }
{
    let mut bytes = [0u8; 4];
    LittleEndian::write_u32(&mut bytes, number);
    Vec::from_slice(alloc, &bytes)
}

/// The steps of EEM.
fn eem(alloc: Global) -> Result<Vec<Exchange>, AllocError>
    ensures { IfOk result (λ v. v.items ≡ Rattle.un_setup.specs.Exchanges.eem_steps) }
{
    let mut steps = Vec::with_capacity(alloc, 2)?;
    push(
        &mut steps,
        packet(0x80, 0x06, 0x0200, 0, 255),
        Vec::new(alloc),
    )?;
    push(&mut steps, packet(0x00, 0x09, 1, 0, 0), Vec::new(alloc))?;
    Ok(steps)
}

/// The steps of ECM.
fn ecm(alloc: Global, filter: u8) -> Result<Vec<Exchange>, AllocError>
    ensures { IfOk result (λ v. v.items ≡ Rattle.un_setup.specs.Exchanges.ecm_steps filter) }
{
    let mut steps = Vec::with_capacity(alloc, 4)?;
    push(
        &mut steps,
        packet(0x80, 0x06, 0x0200, 0, 255),
        Vec::new(alloc),
    )?;
    push(&mut steps, packet(0x00, 0x09, 1, 0, 0), Vec::new(alloc))?;
    push(
        &mut steps,
        packet(0x21, 0x43, u16::from(filter), 0, 0),
        Vec::new(alloc),
    )?;
    push(&mut steps, packet(0x01, 0x0b, 1, 1, 0), Vec::new(alloc))?;
    Ok(steps)
}

/// The steps of NCM, with the number of a block format.
fn ncm(
    alloc: Global,
    format: u16,
    block: u32,
    segment: u16,
    filter: u8,
) -> Result<Vec<Exchange>, AllocError>
    ensures { IfOk result (λ v. v.items ≡ Rattle.un_setup.specs.Exchanges.ncm_steps format block segment filter) }
{
    let mut steps = Vec::with_capacity(alloc, 8)?;
    push(
        &mut steps,
        packet(0x80, 0x06, 0x0200, 0, 255),
        Vec::new(alloc),
    )?;
    push(&mut steps, packet(0x00, 0x09, 1, 0, 0), Vec::new(alloc))?;
    push(&mut steps, packet(0xa1, 0x80, 0, 0, 28), Vec::new(alloc))?;
    push(
        &mut steps,
        packet(0x21, 0x84, format, 0, 0),
        Vec::new(alloc),
    )?;
    push(&mut steps, packet(0x21, 0x86, 0, 0, 4), long(alloc, block)?)?;
    push(
        &mut steps,
        packet(0x21, 0x88, 0, 0, 2),
        short(alloc, segment)?,
    )?;
    push(
        &mut steps,
        packet(0x21, 0x43, u16::from(filter), 0, 0),
        Vec::new(alloc),
    )?;
    push(&mut steps, packet(0x01, 0x0b, 1, 1, 0), Vec::new(alloc))?;
    Ok(steps)
}

/// What the host sends to a device of these parameters; in RNDIS, whose control messages stay out of this project, nothing.
pub fn steps(alloc: Global, params: &Params) -> Result<Vec<Exchange>, AllocError>
    requires { AreInRange params.now }
    ensures { IfOk result (λ v. v.items ≡ steps_of params.now) }
{
    let segment = params.segment as u16;
    match params.class {
        Class::Ecm => ecm(alloc, params.filter),
        Class::Eem => eem(alloc),
        Class::Ncm16 => ncm(alloc, 0, params.block, segment, params.filter),
        Class::Ncm32 => ncm(alloc, 1, params.block, segment, params.filter),
        Class::Rndis => Ok(Vec::new(alloc)),
    }
}
