//! What a host learns from a configuration, and why one is refused.

/// The kind of a networking function, by the subclass of its control interface where a configuration describes it.
#[derive(Clone, Copy, Debug, PartialEq, Eq)]
pub enum FunctionKind {
    /// Ethernet Control Model, subclass 0x06 (ECM 1.2, 4.2).
    Ecm,
    /// Ethernet Emulation Model, subclass 0x0c (EEM 1.0, 4).
    Eem,
    /// Network Control Model, subclass 0x0d (NCM 1.0, 4.2).
    Ncm,
    /// RNDIS, whose descriptors this crate neither writes nor reads: `read` never gives it.
    Rndis,
}

/// A networking function, as a configuration describes it. One of RNDIS, which no configuration describes here, has its kind,
/// its segment and its packet alone, and 0 elsewhere.
#[derive(Clone, Copy, Debug, PartialEq, Eq)]
pub struct Function {
    /// Which of these it is.
    pub kind: FunctionKind,
    /// The number of the control interface.
    pub control: u8,
    /// The longest frame, in bytes, as the Ethernet descriptor says, and 0 for EEM; for RNDIS that of the parameters.
    pub segment: u32,
    /// The capabilities of NCM, bit by bit (NCM 1.0, table 5-2), and 0 for the others.
    pub capabilities: u8,
    /// The number of the data interface; for EEM that is the control interface.
    pub interface: u8,
    /// The alternate setting of the data interface that has the bulk endpoints.
    pub setting: u8,
    /// The address of its bulk IN endpoint, from the device to the host.
    pub bulk_in: u8,
    /// The address of its bulk OUT endpoint, from the host to the device.
    pub bulk_out: u8,
    /// The bytes of a full packet of the bulk IN endpoint, 0 to 2,047; for RNDIS those of the parameters.
    pub packet: u32,
}

/// A part that each function of a kind needs.
#[derive(Clone, Copy, Debug, PartialEq, Eq)]
pub enum Part {
    /// An interface of class Communications.
    Control,
    /// The header of the functional descriptors, of ECM and NCM.
    Header,
    /// The union of control and data interface, of ECM and NCM.
    Union,
    /// The Ethernet descriptor, of ECM and NCM.
    Ethernet,
    /// The NCM descriptor, of NCM.
    Ncm,
    /// A bulk IN and a bulk OUT endpoint of the data interface, in one of its settings.
    Endpoints,
}

/// Why a configuration is refused: the first fault of its bytes, and else the first part that is missing, in the order
/// of `Part`, with `Unknown` after `Control`.
#[derive(Clone, Copy, Debug, PartialEq, Eq)]
pub enum DescFault {
    /// Fewer than 2 bytes are left for the descriptor at this byte, or it goes past the end.
    Truncated { at: u64 },
    /// The descriptor at this byte has a length that is less than 2, or too short for its type.
    BadLength { at: u64 },
    /// No descriptor is this part.
    Missing { part: Part },
    /// The first control interface has this subclass, which is none of ECM, EEM and NCM.
    Unknown { class: u8 },
}
