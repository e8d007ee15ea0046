//! One descriptor, from its bytes.

ghost use Rattle.std.specs.Prelude.{◌≡◌, ◌≤◌, length};
ghost use Rattle.un_desc.specs.Reading.{control_in, ethernet_in, header_in, in_in, ncm_in, out_in, union_in};
ghost use Rattle.un_desc.specs.Walk.{descriptor_of, least_length};

use byteorder::{ByteOrder, LittleEndian};

/// An interface descriptor (USB 2.0, 9.6.5).
#[derive(Clone, Copy, Debug)]
pub struct Interface {
    pub number: u8,
    pub setting: u8,
    pub class: u8,
    pub subclass: u8,
}

/// An endpoint descriptor (USB 2.0, 9.6.6).
#[derive(Clone, Copy, Debug)]
pub struct Endpoint {
    pub address: u8,
    pub attributes: u8,
    pub size: u16,
}

/// A descriptor, as far as a host reads it.
#[derive(Clone, Copy, Debug)]
pub enum Descriptor {
    AnInterface(Interface),
    AnEndpoint(Endpoint),
    /// With the release of CDC (CDC 1.2, 5.2.3.1).
    Header(u16),
    /// With the number of its first data interface (CDC 1.2, 5.2.3.2).
    Union(u8),
    /// With the longest frame (ECM 1.2, 5.4).
    Ethernet(u16),
    /// With the capabilities (NCM 1.0, 5.2.1).
    Ncm(u8),
    /// Of a type or subtype that a host skips.
    Other,
}

impl Endpoint {
    /// Whether it is a bulk endpoint: 2 in the lowest two bits of its attributes.
    fn is_bulk(self) -> bool
        ensures { result ≡ Rattle.un_desc.specs.Reading.is_bulk self }
    {
        self.attributes % 4 == 2
    }

    /// Whether it is from the device to the host: bit 7 of its address.
    fn is_in(self) -> bool
        ensures { result ≡ Rattle.un_desc.specs.Reading.is_in self }
    {
        self.address >= 0x80
    }
}

/// What a descriptor is read as, where it is of that kind.
impl Descriptor {
    /// Whether it is an interface.
    pub fn is_interface(self) -> bool
        ensures { result ≡ Rattle.un_desc.specs.Reading.is_interface self }
    {
        matches!(self, Descriptor::AnInterface(_))
    }

    /// A control interface: one of class Communications.
    pub fn control(self) -> Option<Interface>
        ensures { result ≡ control_in self }
    {
        match self {
            Descriptor::AnInterface(interface) if interface.class == COMMUNICATIONS => {
                Some(interface)
            }
            _ => None,
        }
    }

    /// The release of a header.
    pub fn header(self) -> Option<u16>
        ensures { result ≡ header_in self }
    {
        match self {
            Descriptor::Header(release) => Some(release),
            _ => None,
        }
    }

    /// The data interface of a union.
    pub fn union(self) -> Option<u8>
        ensures { result ≡ union_in self }
    {
        match self {
            Descriptor::Union(interface) => Some(interface),
            _ => None,
        }
    }

    /// The longest frame of an Ethernet descriptor.
    pub fn ethernet(self) -> Option<u16>
        ensures { result ≡ ethernet_in self }
    {
        match self {
            Descriptor::Ethernet(segment) => Some(segment),
            _ => None,
        }
    }

    /// The capabilities of an NCM descriptor.
    pub fn ncm(self) -> Option<u8>
        ensures { result ≡ ncm_in self }
    {
        match self {
            Descriptor::Ncm(capabilities) => Some(capabilities),
            _ => None,
        }
    }

    /// A bulk IN endpoint.
    pub fn bulk_in(self) -> Option<Endpoint>
        ensures { result ≡ in_in self }
    {
        match self {
            Descriptor::AnEndpoint(endpoint) if endpoint.is_bulk() && endpoint.is_in() => {
                Some(endpoint)
            }
            _ => None,
        }
    }

    /// A bulk OUT endpoint.
    pub fn bulk_out(self) -> Option<Endpoint>
        ensures { result ≡ out_in self }
    {
        match self {
            Descriptor::AnEndpoint(endpoint) if endpoint.is_bulk() && !endpoint.is_in() => {
                Some(endpoint)
            }
            _ => None,
        }
    }
}

/// The class code of a control interface, Communications (CDC 1.2, 4.2).
const COMMUNICATIONS: u8 = 0x02;

const CONFIGURATION: u8 = 0x02;

const INTERFACE: u8 = 0x04;

const ENDPOINT: u8 = 0x05;

const FUNCTIONAL: u8 = 0x24;

const HEADER: u8 = 0x00;

const UNION: u8 = 0x06;

const ETHERNET: u8 = 0x0f;

const NCM: u8 = 0x1a;

/// The least length of a functional descriptor of this subtype; `None` is one that has no byte for it.
fn least_functional(subtype: Option<u8>) -> usize
    ensures { result ≡ Rattle.un_desc.specs.Walk.least_functional subtype }
{
    match subtype {
        Some(HEADER) | Some(UNION) => 5,
        Some(ETHERNET) => 13,
        Some(NCM) => 6,
        _ => 3,
    }
}

/// The least length of the descriptor at the front, by its type.
#[tactic(auto, unfolding(crate::specs::Walk::least_length))]
pub fn least(bytes: &[u8]) -> usize
    requires { 2 ≤ length bytes.now }
    ensures least { result ≡ least_length bytes.now }
    ensures two { 2 ≤ result }
{
    match bytes[1] {
        CONFIGURATION | INTERFACE => 9,
        ENDPOINT => 7,
        FUNCTIONAL => least_functional(bytes.get(2).copied()),
        _ => 2,
    }
}

/// The functional descriptor at the front.
#[tactic(auto, unfolding(un_frame::specs::Bytes::number_at))]
fn functional(bytes: &[u8]) -> Descriptor
    requires least { Rattle.un_desc.specs.Walk.least_functional (Rattle.std.specs.Prelude.slice_get bytes.now 2) ≤ length bytes.now }
    requires three { 3 ≤ length bytes.now }
    ensures { result ≡ Rattle.un_desc.specs.Walk.functional bytes.now }
{
    match bytes[2] {
        HEADER => Descriptor::Header(LittleEndian::read_u16(&bytes[3..])),
        UNION => Descriptor::Union(bytes[4]),
        ETHERNET => Descriptor::Ethernet(LittleEndian::read_u16(&bytes[8..])),
        NCM => Descriptor::Ncm(bytes[5]),
        _ => Descriptor::Other,
    }
}

/// The descriptor at the front, which is all there.
#[tactic(auto, unfolding(un_frame::specs::Bytes::number_at, crate::specs::Walk::descriptor_of, crate::specs::Walk::least_length))]
pub fn describe(bytes: &[u8]) -> Descriptor
    requires two { 2 ≤ length bytes.now }
    requires whole { least_length bytes.now ≤ length bytes.now }
    ensures { result ≡ descriptor_of bytes.now }
{
    match bytes[1] {
        INTERFACE => Descriptor::AnInterface(Interface {
            number: bytes[2],
            setting: bytes[3],
            class: bytes[5],
            subclass: bytes[6],
        }),
        ENDPOINT => Descriptor::AnEndpoint(Endpoint {
            address: bytes[2],
            attributes: bytes[3],
            size: LittleEndian::read_u16(&bytes[4..]),
        }),
        FUNCTIONAL => functional(bytes),
        _ => Descriptor::Other,
    }
}
