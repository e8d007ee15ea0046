//! Classes and faults as numbers, which a caller in C has names for.

ghost use Rattle.std.specs.Prelude.{◌≡◌};
ghost use Rattle.un_c.specs.Numbers;

use un_frame::{Class, Kind};

/// The class of a number, from 0 to 4.
pub fn class_numbered(number: u32) -> Option<Class>
    ensures { result ≡ Numbers.class_numbered number }
{
    if number == 0 {
        Some(Class::Ecm)
    } else if number == 1 {
        Some(Class::Eem)
    } else if number == 2 {
        Some(Class::Ncm16)
    } else if number == 3 {
        Some(Class::Ncm32)
    } else if number == 4 {
        Some(Class::Rndis)
    } else {
        None
    }
}

/// The number of a kind of fault, from 1 to 14.
pub fn kind_number(kind: Kind) -> u32
    ensures { result ≡ Numbers.kind_number kind }
{
    match kind {
        Kind::Truncated => 1,
        Kind::BadSentinel => 2,
        Kind::CrcPacket => 3,
        Kind::ShortFrame => 4,
        Kind::BadSignature => 5,
        Kind::BadHeaderLength => 6,
        Kind::BadBlockLength => 7,
        Kind::BadNdpIndex => 8,
        Kind::BadNdpLength => 9,
        Kind::CrcTable => 10,
        Kind::NdpLoop => 11,
        Kind::BadEntry => 12,
        Kind::BadMessageType => 13,
        Kind::BadMessageLength => 14,
    }
}
