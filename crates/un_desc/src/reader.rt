//! A function from the bytes of a configuration.

ghost use Rattle.std.specs.Prelude.{◌≡◌};
ghost use Rattle.std.specs.Prelude.{Err};
ghost use Rattle.un_desc.specs.declared.function.DescFault.TheVariants.{Missing};
ghost use Rattle.un_desc.specs.Reading.{function_of, parts_of};

use crate::function::{DescFault, Function, FunctionKind, Part};
use crate::parts::{Parts, Setting, found, working_setting};
use crate::walk::Descriptors;

/// A part is missing.
fn missing(part: Part) -> Result<Function, DescFault>
    ensures { result ≡ Err (Missing part) }
{
    Err(DescFault::Missing { part })
}

/// The function with these bulk endpoints.
fn function(
    kind: FunctionKind,
    control: u8,
    segment: u32,
    capabilities: u8,
    interface: u8,
    setting: Setting,
) -> Function
    ensures { result ≡ Rattle.un_desc.specs.Reading.function_with kind control segment capabilities interface setting }
{
    Function {
        kind,
        control,
        segment,
        capabilities,
        interface,
        setting: setting.setting,
        bulk_in: setting.bulk_in.address,
        bulk_out: setting.bulk_out.address,
        packet: u32::from(setting.bulk_in.size % 2048),
    }
}

/// A function of EEM, whose one interface is for control and data.
fn read_eem(descriptors: &Descriptors<'_>, control: u8) -> Result<Function, DescFault>
    ensures { result ≡ Rattle.un_desc.specs.Reading.read_eem descriptors.now control }
{
    let Some(setting) = working_setting(descriptors, control) else {
        return missing(Part::Endpoints);
    };
    Ok(function(FunctionKind::Eem, control, 0, 0, control, setting))
}

/// A function of ECM.
fn read_ecm(descriptors: &Descriptors<'_>, parts: Parts, control: u8) -> Result<Function, DescFault>
    requires { parts ≡ parts_of descriptors.now }
    ensures { result ≡ Rattle.un_desc.specs.Reading.read_ecm descriptors.now control }
{
    if parts.header.is_none() {
        return missing(Part::Header);
    }
    let Some(interface) = parts.union else {
        return missing(Part::Union);
    };
    let Some(segment) = parts.ethernet else {
        return missing(Part::Ethernet);
    };
    let Some(setting) = working_setting(descriptors, interface) else {
        return missing(Part::Endpoints);
    };
    Ok(function(
        FunctionKind::Ecm,
        control,
        u32::from(segment),
        0,
        interface,
        setting,
    ))
}

/// A function of NCM.
fn read_ncm(descriptors: &Descriptors<'_>, parts: Parts, control: u8) -> Result<Function, DescFault>
    requires { parts ≡ parts_of descriptors.now }
    ensures { result ≡ Rattle.un_desc.specs.Reading.read_ncm descriptors.now control }
{
    if parts.header.is_none() {
        return missing(Part::Header);
    }
    let Some(interface) = parts.union else {
        return missing(Part::Union);
    };
    let Some(segment) = parts.ethernet else {
        return missing(Part::Ethernet);
    };
    let Some(capabilities) = parts.ncm else {
        return missing(Part::Ncm);
    };
    let Some(setting) = working_setting(descriptors, interface) else {
        return missing(Part::Endpoints);
    };
    Ok(function(
        FunctionKind::Ncm,
        control,
        u32::from(segment),
        capabilities,
        interface,
        setting,
    ))
}

/// The function that descriptors describe, or the first part that is missing.
#[tactic(auto, unfolding(crate::specs::Reading::described))]
fn described(descriptors: &Descriptors<'_>) -> Result<Function, DescFault>
    ensures { result ≡ Rattle.un_desc.specs.Reading.described descriptors.now }
{
    let parts = found(descriptors);
    let Some(control) = parts.control else {
        return missing(Part::Control);
    };
    match control.subclass {
        0x06 => read_ecm(descriptors, parts, control.number),
        0x0c => read_eem(descriptors, control.number),
        0x0d => read_ncm(descriptors, parts, control.number),
        class => Err(DescFault::Unknown { class }),
    }
}

/// Reads the function that a configuration describes, as a host does (this project's own order of checks; the descriptors
/// are those of USB 2.0 chapter 9, CDC 1.2, ECM 1.2, EEM 1.0 and NCM 1.0).
///
/// An error is the first fault of a walk over all descriptors: `Truncated` where fewer than 2 bytes are left for the next
/// or it goes past the end, `BadLength` where its length is below 2 or too short for its type. Types that aren't known are
/// skipped. After the walk it is the first of these: `Missing` a control interface; `Unknown` subclass of the first; of ECM
/// and NCM `Missing` header, union, Ethernet and (NCM) NCM descriptor; `Missing` endpoints, where no interface descriptor
/// of the data interface's number has a bulk IN and a bulk OUT endpoint before the next interface descriptor.
/// It takes no memory. A function that it answers is of ECM, EEM or NCM, and never of RNDIS.
#[tactic(auto, unfolding(crate::specs::Reading::function_of))]
pub fn read(bytes: &[u8]) -> Result<Function, DescFault>
    ensures { result ≡ function_of bytes.now }
{
    let descriptors = Descriptors::walk(bytes)?;
    described(&descriptors)
}
