//! The device.

ghost use Rattle.std.specs.Prelude.{◌≡◌, IfOk};
ghost use Rattle.un_classreq.specs.Control.{judged};
ghost use Rattle.un_classreq.specs.Requests.{row};
ghost use Rattle.un_desc.specs.Configuration.{IsDescribed, configuration};
ghost use Rattle.un_frame.specs.Params.{AreInRange};

use crate::bytes::{push_long, push_short};
use crate::notes::connection;
use crate::request::{Request, parameters};
use crate::setup::Setup;
use crate::state::State;
use std::alloc::{AllocError, Global};
use std::marker::Model;
use un_frame::{Bytes, Class, Params};

/// Why the device stalls: the first of these that applies.
#[derive(Clone, Copy, Debug, PartialEq, Eq)]
pub enum Why {
    /// It doesn't know the request, or not in its class.
    Unknown,
    /// The index is another than the request's.
    Index,
    /// The length field is another than the request's, or to the device another number of bytes was sent.
    Length,
    /// The data interface is in another alternate setting than the request's.
    State,
    /// The value or the payload isn't allowed.
    Value,
}

/// What the device answers to a set-up packet.
#[derive(Drop)]
pub enum Reply {
    /// The request was carried out; these bytes go to the host, none where it is to the device.
    Sent(Bytes),
    /// The request was refused, and the device is as it was.
    Stall(Why),
    /// Memory ran out for the bytes to the host, and the device is as it was.
    NoMemory,
}

/// A request that is accepted, and the state after it.
#[derive(Clone, Copy, Debug)]
pub struct Accepted {
    pub request: Request,
    pub next: State,
}

/// The request of a set-up packet and the state after it, or the first reason to stall.
#[tactic(auto, unfolding(crate::specs::Control::judged))]
fn judge(params: &Params, state: State, setup: &Setup, payload: &[u8]) -> Result<Accepted, Why>
    ensures { result ≡ judged params.now state setup.now payload.now }
{
    let Some(request) = Request::named(params.class, setup) else {
        return Err(Why::Unknown);
    };
    let columns = request.columns();
    if setup.index != columns.index {
        return Err(Why::Index);
    }
    if !columns.has_length(setup, payload) {
        return Err(Why::Length);
    }
    if !columns.has_setting(state.setting) {
        return Err(Why::State);
    }
    let Some(next) = request.next(params, state, setup, payload) else {
        return Err(Why::Value);
    };
    Ok(Accepted { request, next })
}

/// What a request sends, before it is cut; `descriptors` are the configuration.
fn whole_reply(
    alloc: Global,
    request: Request,
    params: &Params,
    state: State,
    descriptors: &[u8],
) -> Result<Vec<u8>, AllocError>
    requires range { AreInRange params.now }
    requires descriptors { descriptors.now ≡ configuration params.now }
    ensures { IfOk result (λ v. v.items ≡ (row request).reply params.now state) }
{
    let mut bytes = Vec::new(alloc);
    match request {
        Request::GetDescriptor => bytes.extend_from_slice(descriptors)?,
        Request::GetNtbParameters => return parameters(alloc, params),
        Request::GetNtbFormat => push_short(&mut bytes, state.format)?,
        Request::GetNtbInputSize => push_long(&mut bytes, state.input_size)?,
        Request::GetMaxDatagramSize => push_short(&mut bytes, state.datagram_size)?,
        Request::SetConfiguration
        | Request::SetInterface
        | Request::SetPacketFilter
        | Request::SetNtbFormat
        | Request::SetNtbInputSize
        | Request::SetMaxDatagramSize => {}
    }
    Ok(bytes)
}

/// The control side of the gadget: its descriptors, its parameters and its state. A contract sees the parameters and the
/// state.
#[derive(Drop)]
pub struct Device {
    params: Params,
    state: State,
    descriptors: Bytes,
}

impl Model for Device {
    ghost use Rattle.std.specs.Prelude.{◌≡◌};
    ghost use Rattle.un_classreq.specs.Control.{Gadget};
    ghost use Rattle.un_desc.specs.Configuration.{configuration};
    ghost use Rattle.un_frame.specs.Params.{AreInRange};

    ghost Value = { Gadget };

    ghost view = { λ d. record { params = d.params; state = d.state } };

    ghost invariant = { λ d. AreInRange d.params × (d.descriptors ≡ configuration d.params) };
}

impl Device {
    ghost use Rattle.un_classreq.specs.Control.{Answers, controlled, first_gadget};
    ghost use Rattle.un_classreq.specs.Notes.{notes_of};

    /// A device with these parameters, which are in their ranges: with its configuration at hand and in no configuration,
    /// setting 0, filter 0, format 0, and the sizes of the parameters. The class isn't RNDIS, whose control messages stay out of
    /// this project. An error is want of memory.
    pub fn make(alloc: Global, params: &Params) -> Result<Device, AllocError>
        requires range { AreInRange params.now }
        requires described { IsDescribed params.now.class }
        ensures { IfOk result (λ d. d ≡ first_gadget params.now) }
    {
        let descriptors = un_desc::build(alloc, params)?;
        Ok(Device {
            params: *params,
            state: State {
                configuration: 0,
                setting: 0,
                filter: 0,
                format: 0,
                input_size: params.block,
                datagram_size: params.segment as u16,
            },
            descriptors,
        })
    }

    /// Answers a set-up packet; `payload` is what the host sends after it, where the request is to the device.
    ///
    /// `Sent` comes where the table of requests has it for this class, with this index, length, alternate setting and
    /// value; its effect is done, and the bytes are those of the table, at most as many as the length field says. Else
    /// `Stall` comes, with the first reason. `NoMemory` comes only where memory ran out for the bytes. After `Stall` and
    /// `NoMemory` the device is as it was.
    pub fn control(&mut self, alloc: Global, setup: &Setup, payload: &[u8]) -> Reply
        ensures { Answers (controlled self.old setup.now payload.now) self.old self.new result }
    {
        let accepted = match judge(&self.params, self.state, setup, payload) {
            Ok(accepted) => accepted,
            Err(why) => return Reply::Stall(why),
        };
        let whole = whole_reply(
            alloc,
            accepted.request,
            &self.params,
            self.state,
            self.descriptors.as_slice(),
        );
        let Ok(mut bytes) = whole else {
            return Reply::NoMemory;
        };
        bytes.truncate(setup.length as usize);
        self.state = accepted.next;
        Reply::Sent(Bytes::make(bytes))
    }

    /// The notifications that the device sends in its state, in their order: with the data interface in alternate setting
    /// 1 a device of ECM or NCM sends CONNECTION_SPEED_CHANGE, of 480,000,000 bits each second in both directions (ECM 1.2,
    /// 6.3.3), and then NETWORK_CONNECTION (ECM 1.2, 6.3.1). In setting 0 it sends none, and a device of EEM none at all. An
    /// error is want of memory.
    pub fn notes(&self, alloc: Global) -> Result<Vec<Bytes>, AllocError>
        ensures { IfOk result (λ v. v.items ≡ notes_of self.now) }
    {
        if self.state.setting != 1 {
            return Ok(Vec::new(alloc));
        }
        match self.params.class {
            Class::Eem | Class::Rndis => Ok(Vec::new(alloc)),
            Class::Ecm | Class::Ncm16 | Class::Ncm32 => connection(alloc),
        }
    }
}
