//! The requests that the device knows.

ghost use Rattle.std.specs.Prelude.{◌≡◌, IsTrue, IfOk};
ghost use Rattle.un_classreq.specs.Control.{has_length, is_asked, named};
ghost use Rattle.un_classreq.specs.Requests.{ntb_parameters, row};
ghost use Rattle.un_frame.specs.Params.{AreInRange};

use crate::bytes::{push_long, push_short};
use crate::setup::Setup;
use crate::state::State;
use byteorder::{ByteOrder, LittleEndian};
use std::alloc::{AllocError, Global};
use un_facts::between;
use un_frame::{Class, Params};

/// A request that the device knows.
#[derive(Clone, Copy, Debug)]
pub enum Request {
    GetDescriptor,
    SetConfiguration,
    SetInterface,
    SetPacketFilter,
    GetNtbParameters,
    GetNtbFormat,
    SetNtbFormat,
    GetNtbInputSize,
    SetNtbInputSize,
    GetMaxDatagramSize,
    SetMaxDatagramSize,
}

/// The classes that have a request.
#[derive(Clone, Copy, Debug)]
pub enum Classes {
    All,
    EcmAndNcm,
    NcmAlone,
}

/// How a request is told, and where and when it may come. `None` asks for nothing.
#[derive(Clone, Copy, Debug)]
pub struct Columns {
    pub request_type: u8,
    pub request: u8,
    pub classes: Classes,
    pub index: u16,
    /// The length field.
    pub length: Option<u16>,
    /// The alternate setting that the device is in.
    pub setting: Option<u16>,
}

/// Columns in the order of the table.
fn told(
    request_type: u8,
    request: u8,
    classes: Classes,
    index: u16,
    length: Option<u16>,
    setting: Option<u16>,
) -> Columns
    ensures { result ≡ Rattle.un_classreq.specs.Requests.told request_type request classes index length setting }
{
    Columns {
        request_type,
        request,
        classes,
        index,
        length,
        setting,
    }
}

impl Classes {
    /// Whether a class is among them.
    fn serves(self, class: Class) -> bool
        ensures { result ≡ Rattle.un_classreq.specs.Control.serves self class }
    {
        match self {
            Classes::All => true,
            Classes::EcmAndNcm => class != Class::Eem && class != Class::Rndis,
            Classes::NcmAlone => class == Class::Ncm16 || class == Class::Ncm32,
        }
    }
}

impl Columns {
    /// Whether a set-up packet tells this request, of a class that has it.
    fn tells(self, setup: &Setup, class: Class) -> bool
        ensures { result ≡ Rattle.un_classreq.specs.Control.tells setup.now class self }
    {
        self.request_type == setup.request_type
            && self.request == setup.request
            && self.classes.serves(class)
    }

    /// Whether the length field is as the table asks, and to the device so many bytes were sent.
    #[tactic(auto, unfolding(crate::specs::Control::has_length))]
    pub fn has_length(self, setup: &Setup, payload: &[u8]) -> bool
        ensures { result ≡ has_length self setup.now payload.now }
    {
        asked(self.length, setup.length)
            && (self.request_type >= 0x80 || payload.len() == setup.length as usize)
    }

    /// Whether the device is in the alternate setting that the table asks for.
    pub fn has_setting(self, setting: u16) -> bool
        ensures { result ≡ is_asked self.setting setting }
    {
        asked(self.setting, setting)
    }
}

/// Whether a number is the one that is asked for, if one is.
fn asked(wanted: Option<u16>, number: u16) -> bool
    ensures { result ≡ is_asked wanted number }
{
    match wanted {
        Some(wanted) => number == wanted,
        None => true,
    }
}

/// The state, where it is allowed.
fn allowed(holds: bool, next: State) -> Option<State>
    ensures { result ≡ Rattle.un_classreq.specs.Requests.if_allowed holds next }
{
    if holds { Some(next) } else { None }
}

/// The highest number of a block format: NTB32 is 1, and NTB16 0.
fn last_format(class: Class) -> u16
    ensures { result ≡ Rattle.un_classreq.specs.Requests.last_format class }
{
    match class {
        Class::Ncm32 => 1,
        _ => 0,
    }
}

/// The formats of a class, bit by bit: bit 0 is NTB16, bit 1 NTB32.
fn formats(class: Class) -> u16
    ensures { result ≡ Rattle.un_classreq.specs.Requests.formats_of class }
{
    match class {
        Class::Ncm32 => 3,
        _ => 1,
    }
}

const REQUESTS: [Request; 11] = [
    Request::GetDescriptor,
    Request::SetConfiguration,
    Request::SetInterface,
    Request::SetPacketFilter,
    Request::GetNtbParameters,
    Request::GetNtbFormat,
    Request::SetNtbFormat,
    Request::GetNtbInputSize,
    Request::SetNtbInputSize,
    Request::GetMaxDatagramSize,
    Request::SetMaxDatagramSize,
];

impl Request {
    /// How it is told, and where and when it may come.
    pub fn columns(self) -> Columns
        ensures { result ≡ (row self).columns }
    {
        use Classes::{All, EcmAndNcm, NcmAlone};
        match self {
            Request::GetDescriptor => told(0x80, 0x06, All, 0, None, None),
            Request::SetConfiguration => told(0x00, 0x09, All, 0, Some(0), None),
            Request::SetInterface => told(0x01, 0x0b, EcmAndNcm, 1, Some(0), None),
            Request::SetPacketFilter => told(0x21, 0x43, EcmAndNcm, 0, Some(0), None),
            Request::GetNtbParameters => told(0xa1, 0x80, NcmAlone, 0, None, None),
            Request::GetNtbFormat => told(0xa1, 0x83, NcmAlone, 0, None, None),
            Request::SetNtbFormat => told(0x21, 0x84, NcmAlone, 0, Some(0), Some(0)),
            Request::GetNtbInputSize => told(0xa1, 0x85, NcmAlone, 0, None, None),
            Request::SetNtbInputSize => told(0x21, 0x86, NcmAlone, 0, Some(4), Some(0)),
            Request::GetMaxDatagramSize => told(0xa1, 0x87, NcmAlone, 0, None, None),
            Request::SetMaxDatagramSize => told(0x21, 0x88, NcmAlone, 0, Some(2), Some(0)),
        }
    }

    /// The request that a set-up packet tells, of a class that has it.
    #[tactic(auto, unfolding(crate::specs::Control::named))]
    pub fn named(class: Class, setup: &Setup) -> Option<Request>
        ensures { result ≡ named class setup.now }
    {
        REQUESTS
            .iter()
            .copied()
            .find(|request| request.columns().tells(setup, class))
    }

    /// The state after it, where its value and its payload are allowed.
    #[tactic(auto, unfolding(crate::specs::Control::has_length, un_frame::specs::Bytes::number_at))]
    pub fn next(self, params: &Params, state: State, setup: &Setup, payload: &[u8]) -> Option<State>
        requires { IsTrue (has_length (row self).columns setup.now payload.now) }
        ensures { result ≡ (row self).next params.now state setup.now.value payload.now }
    {
        let value = setup.value;
        match self {
            Request::GetDescriptor => allowed(value == 0x0200, state),
            Request::SetConfiguration => {
                let next = State {
                    configuration: value,
                    setting: 0,
                    ..state
                };
                allowed(value <= 1, next)
            }
            Request::SetInterface => allowed(
                value <= 1,
                State {
                    setting: value,
                    ..state
                },
            ),
            Request::SetPacketFilter => allowed(
                value <= 0x1f,
                State {
                    filter: value,
                    ..state
                },
            ),
            Request::SetNtbFormat => allowed(
                value <= last_format(params.class),
                State {
                    format: value,
                    ..state
                },
            ),
            Request::SetNtbInputSize => {
                let input_size = LittleEndian::read_u32(payload);
                allowed(
                    between(2048, params.block, input_size),
                    State {
                        input_size,
                        ..state
                    },
                )
            }
            Request::SetMaxDatagramSize => {
                let datagram_size = LittleEndian::read_u16(payload);
                allowed(
                    between(60, params.segment, u32::from(datagram_size)),
                    State {
                        datagram_size,
                        ..state
                    },
                )
            }
            Request::GetNtbParameters
            | Request::GetNtbFormat
            | Request::GetNtbInputSize
            | Request::GetMaxDatagramSize => Some(state),
        }
    }
}

/// The NTB parameters of a device, 28 bytes (NCM 1.0, table 6-3).
#[tactic(auto)]
pub fn parameters(alloc: Global, params: &Params) -> Result<Vec<u8>, AllocError>
    requires { AreInRange params.now }
    ensures { IfOk result (λ v. v.items ≡ ntb_parameters params.now) }
{
    let mut bytes = Vec::with_capacity(alloc, 28)?;
    push_short(&mut bytes, 28)?;
    push_short(&mut bytes, formats(params.class))?;
    push_long(&mut bytes, params.block)?;
    push_short(&mut bytes, params.divisor as u16)?;
    push_short(&mut bytes, params.remainder as u16)?;
    push_short(&mut bytes, params.alignment as u16)?;
    push_short(&mut bytes, 0)?;
    push_long(&mut bytes, params.block)?;
    push_short(&mut bytes, params.divisor as u16)?;
    push_short(&mut bytes, params.remainder as u16)?;
    push_short(&mut bytes, params.alignment as u16)?;
    push_short(&mut bytes, params.datagrams as u16)?;
    Ok(bytes)
}
