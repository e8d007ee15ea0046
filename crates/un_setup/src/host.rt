//! The host's side of the set-up.

ghost use Rattle.std.specs.Prelude.{◌≡◌, IfOk, IfErr, Ok};
ghost use Rattle.un_desc.specs.Configuration;
ghost use Rattle.un_desc.specs.Configuration.{IsDescribed};
ghost use Rattle.un_desc.specs.Reading.{function_of};
ghost use Rattle.un_frame.specs.Params.{AreInRange};
ghost use Rattle.un_frame.specs.declared.params.Class.TheVariants.{Rndis};
ghost use Rattle.un_setup.specs.Agreement.{Decides, Gives, IsSetUp, agreed_of, agreement};
ghost use Rattle.un_setup.specs.Exchanges.{HasStopped, Stalls, crossing, exchanged};

use crate::agreement::{Agreed, SetupFault};
use crate::exchange::{Exchange, ExchangeFault, Exchanges, Notes};
use crate::steps::steps;
use crate::tested::test;
use std::alloc::{AllocError, Global};
use un_classreq::{Device, Reply};
use un_desc::{Function, FunctionKind};
use un_frame::{Bytes, Class, Params};

/// Takes a step of the host at a device, and answers what crossed. At an error the device is as it was.
#[tactic(auto, unfolding(crate::specs::Exchanges::crossing))]
fn cross(alloc: Global, device: &mut Device, step: &Exchange) -> Result<Exchange, ExchangeFault>
    ensures crossed { IfOk result (λ e. crossing device.old step.now ≡ Ok (record { gadget = device.new; exchange = e })) }
    ensures stopped { IfErr result (λ fault. (device.new ≡ device.old) × Stalls (crossing device.old step.now) fault) }
{
    let Ok(sent) = Vec::from_slice(alloc, step.payload.as_slice()) else {
        return Err(ExchangeFault::NoMemory);
    };
    let reply = match device.control(alloc, &step.setup, step.payload.as_slice()) {
        Reply::Sent(bytes) => bytes,
        Reply::Stall(why) => return Err(ExchangeFault::Stalled(why)),
        Reply::NoMemory => return Err(ExchangeFault::NoMemory),
    };
    let payload = if step.setup.request_type >= 0x80 {
        reply
    } else {
        Bytes::make(sent)
    };
    Ok(Exchange {
        setup: step.setup,
        payload,
    })
}

/// Takes the steps of a host in turn at a device, and answers what crossed: each set-up packet with the device's bytes, where
/// it asks for some, and else with the host's. Nothing is known of the device but what it answers. `Stalled` comes only
/// where the device stalls at a step, with its reason, and `NoMemory` only where memory ran out, at whichever step; the device is
/// then as the steps before left it.
pub fn exchange_steps(
    alloc: Global,
    device: &mut Device,
    steps: &[Exchange],
) -> Result<Exchanges, ExchangeFault>
    ensures crossed { IfOk result (λ es. exchanged device.old steps.now ≡ Ok (record { gadget = device.new; exchanges = es })) }
    ensures stalled { IfErr result (λ fault. Stalls (exchanged device.old steps.now) fault) }
    ensures stopped { IfErr result (λ fault. HasStopped device.old device.new steps.now) }
{
    let Ok(mut done) = Vec::with_capacity(alloc, steps.len()) else {
        return Err(ExchangeFault::NoMemory);
    };
    for step in steps {
        let crossed = match cross(alloc, device, step) {
            Ok(crossed) => crossed,
            Err(fault) => return Err(fault),
        };
        let Ok(()) = done.push(crossed) else {
            return Err(ExchangeFault::NoMemory);
        };
    }
    Ok(Exchanges::make(done))
}

/// The function that the host reads from the configuration that crossed.
fn described(configuration: &[u8], params: &Params) -> Function
    requires range { AreInRange params.now }
    requires described { IsDescribed params.now.class }
    requires crossed { configuration.now ≡ Rattle.un_desc.specs.Configuration.configuration params.now }
    ensures function { result ≡ Rattle.un_desc.specs.Configuration.function params.now }
    ensures read { function_of configuration.now ≡ Ok result }
{
    match un_desc::read(configuration) {
        Ok(function) => function,
        Err(_) => unreachable!(),
    }
}

/// Sets a new device of these parameters up, and answers what is agreed on. An error is want of memory.
fn set_device_up(alloc: Global, params: &Params) -> Result<Agreed, AllocError>
    requires range { AreInRange params.now }
    requires described { IsDescribed params.now.class }
    ensures agreed { IfOk result (λ a. a ≡ agreement params.now) }
    ensures set_up { IfOk result (λ a. IsSetUp params.now a) }
{
    let mut device = Device::make(alloc, params)?;
    let steps = steps(alloc, params)?;
    let exchanges = match exchange_steps(alloc, &mut device, &steps) {
        Ok(exchanges) => exchanges,
        Err(ExchangeFault::Stalled(_)) => unreachable!(),
        Err(ExchangeFault::NoMemory) => return Err(AllocError),
    };
    let function = described(exchanges.as_slice()[0].payload.as_slice(), params);
    let notes = device.notes(alloc)?;
    Ok(Agreed {
        params: *params,
        function,
        exchanges,
        notes: Notes::make(notes),
    })
}

/// What is agreed on in RNDIS: the function that the parameters say, without an exchange.
fn agreed_at_once(alloc: Global, params: &Params) -> Agreed
    requires { params.now.class ≡ Rndis }
    ensures agreed { result ≡ agreement params.now }
    ensures set_up { IsSetUp params.now result }
{
    let function = Function {
        kind: FunctionKind::Rndis,
        control: 0,
        segment: params.segment,
        capabilities: 0,
        interface: 0,
        setting: 0,
        bulk_in: 0,
        bulk_out: 0,
        packet: params.packet,
    };
    Agreed {
        params: *params,
        function,
        exchanges: Exchanges::make(Vec::new(alloc)),
        notes: Notes::make(Vec::new(alloc)),
    }
}

/// Sets a link of these parameters up, by a new device where its class has one here. An error is want of memory.
fn set_up(alloc: Global, params: &Params) -> Result<Agreed, AllocError>
    requires { AreInRange params.now }
    ensures agreed { IfOk result (λ a. a ≡ agreement params.now) }
    ensures set_up { IfOk result (λ a. IsSetUp params.now a) }
{
    match params.class {
        Class::Rndis => Ok(agreed_at_once(alloc, params)),
        Class::Ecm | Class::Eem | Class::Ncm16 | Class::Ncm32 => set_device_up(alloc, params),
    }
}

/// Sets a link up: tests the parameters, which are in their ranges, and then lets a host and a new device exchange the
/// requests that a host sends to its class, one by one. In the answer is what crossed, the function that the host read from
/// the configuration that crossed, and the notifications that the device then sends: each is what a device of these
/// parameters answers to the host's steps in turn (`set_up`), and is as the tables of the class say (`agreed`). In RNDIS, whose
/// set-up stays out of this project, nothing is exchanged or notified, and the function is the one that the parameters say.
///
/// Of NCM `BadDivisor` comes exactly where the divisor isn't a power of two from 1 to 64 or the remainder isn't below it;
/// else `BadAlignment` exactly where the alignment isn't a power of two from 4 to 64; else `NoFit` exactly where a block
/// with one frame of `segment` bytes is larger than `block`. `NoMemory` comes only where there is an agreement and memory
/// ran out. ECM, EEM and RNDIS agree on any parameters.
#[tactic(auto, unfolding(crate::specs::Agreement::agreed_of))]
pub fn agree(alloc: Global, params: &Params) -> Result<Agreed, SetupFault>
    requires { AreInRange params.now }
    ensures agreed { Gives result (agreed_of params.now) }
    ensures set_up { IfOk result (λ a. IsSetUp params.now a) }
    ensures decides { Decides result params.now }
{
    test(params)?;
    match set_up(alloc, params) {
        Ok(agreed) => Ok(agreed),
        Err(_) => Err(SetupFault::NoMemory),
    }
}
