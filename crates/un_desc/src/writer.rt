//! The configuration that the gadget offers.

ghost use Rattle.std.specs.Prelude.{◌≡◌, ◌++◌, ◌^◌, ◌<◌, OnOk, IfOk, Ok};
ghost use Rattle.un_desc.specs.Configuration.{configuration, configuration_bytes, interface_bytes, endpoint_bytes, header_bytes, union_bytes, ethernet_bytes, ncm_bytes, notification_bytes, IsDescribed, ecm_configuration, eem_configuration, ncm_configuration, function};
ghost use Rattle.un_desc.specs.Reading.{function_of};
ghost use Rattle.un_frame.specs.Bytes.{number_bytes};
ghost use Rattle.un_frame.specs.Params.{AreInRange};

use byteorder::{ByteOrder, LittleEndian};
use std::alloc::{AllocError, Global};
use un_frame::{Bytes, Class, Params};

/// The bytes of a number of 16 bits, the lowest first.
#[tactic(auto, unfolding(un_frame::specs::Bytes::number_bytes))]
fn low_bytes(number: u16) -> [u8; 2]
    ensures { result ≡ number_bytes 2 number }
{
    let mut bytes = [0u8; 2];
    LittleEndian::write_u16(&mut bytes, number);
    bytes
}

/// A configuration descriptor: so many bytes in all, and so many interfaces.
#[tactic(auto, unfolding(un_frame::specs::Bytes::number_bytes))]
fn configuration(total: u16, interfaces: u8) -> [u8; 9]
    ensures { result ≡ configuration_bytes total interfaces }
{
    let [low, high] = low_bytes(total);
    [9, 0x02, low, high, interfaces, 1, 0, 0x80, 50]
}

/// An interface descriptor.
fn interface(
    number: u8,
    setting: u8,
    endpoints: u8,
    class: u8,
    subclass: u8,
    protocol: u8,
) -> [u8; 9]
    ensures { result ≡ interface_bytes number setting endpoints class subclass protocol }
{
    [
        9, 0x04, number, setting, endpoints, class, subclass, protocol, 0,
    ]
}

/// An endpoint descriptor.
#[tactic(auto, unfolding(un_frame::specs::Bytes::number_bytes))]
fn endpoint(address: u8, attributes: u8, size: u16, interval: u8) -> [u8; 7]
    ensures { result ≡ endpoint_bytes address attributes size interval }
{
    let [low, high] = low_bytes(size);
    [7, 0x05, address, attributes, low, high, interval]
}

/// The header of the functional descriptors.
fn header_functional() -> [u8; 5]
    ensures { result ≡ header_bytes }
{
    [5, 0x24, 0x00, 0x10, 0x01]
}

/// The union of a control interface and a data interface.
fn union_functional(control: u8, interface: u8) -> [u8; 5]
    ensures { result ≡ union_bytes control interface }
{
    [5, 0x24, 0x06, control, interface]
}

/// The Ethernet descriptor, with the longest frame.
#[tactic(auto, unfolding(un_frame::specs::Bytes::number_bytes))]
fn ethernet_functional(segment: u16) -> [u8; 13]
    ensures { result ≡ ethernet_bytes segment }
{
    let [low, high] = low_bytes(segment);
    [13, 0x24, 0x0f, 1, 0, 0, 0, 0, low, high, 0, 0, 0]
}

/// The NCM descriptor.
fn ncm_functional() -> [u8; 6]
    ensures { result ≡ ncm_bytes }
{
    [6, 0x24, 0x1a, 0x00, 0x01, 9]
}

/// Appends a descriptor.
fn push(bytes: &mut Vec<u8>, descriptor: &[u8]) -> Result<(), AllocError>
    ensures { OnOk result (bytes.new.items ≡ bytes.old.items ++ descriptor.now) }
{
    bytes.extend_from_slice(descriptor)
}

/// The configuration of ECM.
fn ecm(alloc: Global, segment: u16, packet: u16) -> Result<Vec<u8>, AllocError>
    ensures { IfOk result (λ v. v.items ≡ ecm_configuration segment packet) }
{
    let mut bytes = Vec::with_capacity(alloc, 80)?;
    push(&mut bytes, &configuration(80, 2))?;
    push(&mut bytes, &interface(0, 0, 1, COMMUNICATIONS, 0x06, 0))?;
    push(&mut bytes, &header_functional())?;
    push(&mut bytes, &union_functional(0, 1))?;
    push(&mut bytes, &ethernet_functional(segment))?;
    push(&mut bytes, &endpoint(0x82, 3, 16, 9))?;
    push(&mut bytes, &interface(1, 0, 0, DATA, 0, 0))?;
    push(&mut bytes, &interface(1, 1, 2, DATA, 0, 0))?;
    push(&mut bytes, &endpoint(BULK_IN, 2, packet, 0))?;
    push(&mut bytes, &endpoint(BULK_OUT, 2, packet, 0))?;
    Ok(bytes)
}

/// The configuration of NCM.
fn ncm(alloc: Global, segment: u16, packet: u16) -> Result<Vec<u8>, AllocError>
    ensures { IfOk result (λ v. v.items ≡ ncm_configuration segment packet) }
{
    let mut bytes = Vec::with_capacity(alloc, 86)?;
    push(&mut bytes, &configuration(86, 2))?;
    push(&mut bytes, &interface(0, 0, 1, COMMUNICATIONS, 0x0d, 0))?;
    push(&mut bytes, &header_functional())?;
    push(&mut bytes, &union_functional(0, 1))?;
    push(&mut bytes, &ethernet_functional(segment))?;
    push(&mut bytes, &ncm_functional())?;
    push(&mut bytes, &endpoint(0x82, 3, 16, 9))?;
    push(&mut bytes, &interface(1, 0, 0, DATA, 0, 1))?;
    push(&mut bytes, &interface(1, 1, 2, DATA, 0, 1))?;
    push(&mut bytes, &endpoint(BULK_IN, 2, packet, 0))?;
    push(&mut bytes, &endpoint(BULK_OUT, 2, packet, 0))?;
    Ok(bytes)
}

/// The configuration of EEM.
fn eem(alloc: Global, packet: u16) -> Result<Vec<u8>, AllocError>
    ensures { IfOk result (λ v. v.items ≡ eem_configuration packet) }
{
    let mut bytes = Vec::with_capacity(alloc, 32)?;
    push(&mut bytes, &configuration(32, 1))?;
    push(&mut bytes, &interface(0, 0, 2, COMMUNICATIONS, 0x0c, 7))?;
    push(&mut bytes, &endpoint(BULK_IN, 2, packet, 0))?;
    push(&mut bytes, &endpoint(BULK_OUT, 2, packet, 0))?;
    Ok(bytes)
}

/// The configuration of a class that has one.
#[tactic(auto, using(crate::proofs::Built::packet_small), unfolding(crate::specs::Configuration::configuration))]
fn whole(alloc: Global, params: &Params) -> Result<Vec<u8>, AllocError>
    requires range { AreInRange params.now }
    requires described { IsDescribed params.now.class }
    ensures { IfOk result (λ v. v.items ≡ Rattle.un_desc.specs.Configuration.configuration params.now) }
{
    let segment = params.segment as u16;
    let packet = params.packet as u16;
    match params.class {
        Class::Ecm => ecm(alloc, segment, packet),
        Class::Eem => eem(alloc, packet),
        Class::Ncm16 | Class::Ncm32 => ncm(alloc, segment, packet),
        Class::Rndis => unreachable!(),
    }
}

/// The configuration that the gadget of a link offers, by its class, segment and packet size: 80 bytes for ECM, 86 for NCM,
/// 32 for EEM. The parameters are in their ranges, and the class isn't RNDIS, whose descriptors stay out of this project. An
/// error is want of memory. What `read` makes of the bytes is the function of these parameters.
pub fn build(alloc: Global, params: &Params) -> Result<Bytes, AllocError>
    requires range { AreInRange params.now }
    requires described { IsDescribed params.now.class }
    ensures bytes { IfOk result (λ b. b ≡ Rattle.un_desc.specs.Configuration.configuration params.now) }
    ensures read_back { IfOk result (λ b. function_of b ≡ Ok (function params.now)) }
{
    Ok(Bytes::make(whole(alloc, params)?))
}

/// The class code of an interface for control, Communications (CDC 1.2, 4.2).
const COMMUNICATIONS: u8 = 0x02;

/// The class code of an interface for data (CDC 1.2, 4.5).
const DATA: u8 = 0x0a;

/// The address of the bulk IN endpoint.
const BULK_IN: u8 = 0x81;

/// The address of the bulk OUT endpoint.
const BULK_OUT: u8 = 0x01;
