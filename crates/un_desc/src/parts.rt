//! The parts of a function among its descriptors.

ghost use Rattle.std.specs.Prelude.{◌≡◌};
ghost use Rattle.un_desc.specs.Reading.{bulk_of, ends_in, merged, merged_bulk, parts_in, parts_of, setting_of};

use crate::descriptor::{Descriptor, Endpoint, Interface};
use crate::walk::Descriptors;

/// What was read of the first descriptor of each kind.
#[derive(Clone, Copy, Debug)]
pub struct Parts {
    pub control: Option<Interface>,
    pub header: Option<u16>,
    pub union: Option<u8>,
    pub ethernet: Option<u16>,
    pub ncm: Option<u8>,
}

/// The first bulk endpoints of an interface.
#[derive(Clone, Copy, Debug)]
pub struct Bulk {
    pub bulk_in: Option<Endpoint>,
    pub bulk_out: Option<Endpoint>,
}

/// An alternate setting with both bulk endpoints.
#[derive(Clone, Copy, Debug)]
pub struct Setting {
    pub setting: u8,
    pub bulk_in: Endpoint,
    pub bulk_out: Endpoint,
}

impl Parts {
    /// The parts so far and those of the next descriptor; the first of each kind counts.
    fn with(self, descriptor: Descriptor) -> Parts
        ensures { result ≡ merged self (parts_in descriptor) }
    {
        Parts {
            control: self.control.or(descriptor.control()),
            header: self.header.or(descriptor.header()),
            union: self.union.or(descriptor.union()),
            ethernet: self.ethernet.or(descriptor.ethernet()),
            ncm: self.ncm.or(descriptor.ncm()),
        }
    }
}

/// The first of each kind.
#[tactic(auto, using(crate::proofs::PartLemmas::merged_end, crate::proofs::PartLemmas::merged_more))]
pub fn found(descriptors: &Descriptors<'_>) -> Parts
    ensures { result ≡ parts_of descriptors.now }
{
    let mut parts = Parts {
        control: None,
        header: None,
        union: None,
        ethernet: None,
        ncm: None,
    };
    let mut rest = descriptors.again();
    while let Some(descriptor) = rest.next() {
        parts = parts.with(descriptor);
    }
    parts
}

impl Bulk {
    /// The endpoints so far and that of the next descriptor; the first of each direction counts.
    fn with(self, descriptor: Descriptor) -> Bulk
        ensures { result ≡ merged_bulk self (ends_in descriptor) }
    {
        Bulk {
            bulk_in: self.bulk_in.or(descriptor.bulk_in()),
            bulk_out: self.bulk_out.or(descriptor.bulk_out()),
        }
    }
}

/// The first bulk endpoints before the next interface.
#[tactic(auto, using(crate::proofs::PartLemmas::bulk_end, crate::proofs::PartLemmas::bulk_next, crate::proofs::PartLemmas::bulk_more))]
fn own_bulk(descriptors: &Descriptors<'_>) -> Bulk
    ensures { result ≡ bulk_of descriptors.now }
{
    let mut found = Bulk {
        bulk_in: None,
        bulk_out: None,
    };
    let mut rest = descriptors.again();
    while let Some(descriptor) = rest.next() {
        if descriptor.is_interface() {
            return found;
        }
        found = found.with(descriptor);
    }
    found
}

/// The setting of an interface, where its number is this and it has both bulk endpoints among the descriptors that follow it. Only then are these read.
fn setting_here(number: u8, descriptor: Descriptor, following: &Descriptors<'_>) -> Option<Setting>
    ensures { result ≡ Rattle.un_desc.specs.Reading.setting_here number descriptor (bulk_of following.now) }
{
    let Descriptor::AnInterface(interface) = descriptor else {
        return None;
    };
    if interface.number != number {
        return None;
    }
    let bulk = own_bulk(following);
    Some(Setting {
        setting: interface.setting,
        bulk_in: bulk.bulk_in?,
        bulk_out: bulk.bulk_out?,
    })
}

/// The first setting of the interface of this number that has both bulk endpoints.
#[tactic(auto, using(crate::proofs::PartLemmas::setting_end, crate::proofs::PartLemmas::setting_none, crate::proofs::PartLemmas::setting_some))]
pub fn working_setting(descriptors: &Descriptors<'_>, number: u8) -> Option<Setting>
    ensures { result ≡ setting_of number descriptors.now }
{
    let mut rest = descriptors.again();
    while let Some(descriptor) = rest.next() {
        let found = setting_here(number, descriptor, &rest);
        if found.is_some() {
            return found;
        }
    }
    None
}
