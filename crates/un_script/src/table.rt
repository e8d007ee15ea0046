//! The words, places and ranges of a script's lines.

ghost use Rattle.std.specs.Prelude.{◌≡◌, ◌<◌, ◌^◌, IsTrue};
ghost use Rattle.un_script.specs.Table.{control_named, parameter_named, place_of, may_follow, is_allowed, is_filter, is_pool_size, is_times, fault_named, with_number};
ghost use Rattle.un_script.specs.Reading.{unlink_named};

use un_frame::{Class, Params, Planned};
use un_journal::Control;
use un_text::{is, lane_named};

/// A parameter whose line is its name and one number.
#[derive(Clone, Copy, Debug, PartialEq, Eq)]
pub enum Parameter {
    Segment,
    Packet,
    Block,
    Datagrams,
    Divisor,
    Remainder,
    Alignment,
}

/// The control of one word.
pub fn control_named(word: &[u8]) -> Option<Control>
    ensures { result ≡ Rattle.un_script.specs.Table.control_named word.now }
{
    if is(word, b"suspend") {
        Some(Control::Suspend)
    } else if is(word, b"resume") {
        Some(Control::Resume)
    } else if is(word, b"down") {
        Some(Control::Down)
    } else if is(word, b"up") {
        Some(Control::Up)
    } else if is(word, b"unplug") {
        Some(Control::Unplug)
    } else {
        None
    }
}

/// The control of the two words `unlink` and a lane.
pub fn unlink_named(word: &[u8], lane: &[u8]) -> Option<Control>
    ensures { result ≡ Rattle.un_script.specs.Reading.unlink_named word.now lane.now }
{
    if !is(word, b"unlink") {
        return None;
    }
    match lane_named(lane) {
        Some(lane) => Some(Control::Unlink { lane }),
        None => None,
    }
}

/// The fault of one word: `proto` alone fails one attempt.
pub fn fault_named(word: &[u8]) -> Option<Planned>
    ensures { result ≡ Rattle.un_script.specs.Table.fault_named word.now }
{
    if is(word, b"halt") {
        Some(Planned::Halt)
    } else if is(word, b"proto") {
        Some(Planned::Proto { times: 1 })
    } else {
        None
    }
}

/// The parameter of one number that a line begins with.
pub fn parameter_named(word: &[u8]) -> Option<Parameter>
    ensures { result ≡ Rattle.un_script.specs.Table.parameter_named word.now }
{
    if is(word, b"segment") {
        Some(Parameter::Segment)
    } else if is(word, b"packet") {
        Some(Parameter::Packet)
    } else if is(word, b"block") {
        Some(Parameter::Block)
    } else if is(word, b"datagrams") {
        Some(Parameter::Datagrams)
    } else if is(word, b"divisor") {
        Some(Parameter::Divisor)
    } else if is(word, b"remainder") {
        Some(Parameter::Remainder)
    } else if is(word, b"alignment") {
        Some(Parameter::Alignment)
    } else {
        None
    }
}

/// Where the parameter's line stands.
pub fn place_of(parameter: Parameter) -> u8
    ensures { result ≡ Rattle.un_script.specs.Table.place_of parameter }
{
    match parameter {
        Parameter::Segment => 2,
        Parameter::Packet => 3,
        Parameter::Block => 5,
        Parameter::Datagrams => 6,
        Parameter::Divisor => 7,
        Parameter::Remainder => 8,
        Parameter::Alignment => 9,
    }
}

/// Whether a line of this place may follow one of that place, with 0 where none came.
pub fn may_follow(last: u8, place: u8) -> bool
    ensures { result ≡ Rattle.un_script.specs.Table.may_follow last place }
{
    if last == 0 {
        place == 1
    } else {
        last < place || place == 11
    }
}

/// Whether a parameter may have this value.
pub fn is_allowed(class: Class, parameter: Parameter, n: u64) -> bool
    ensures { result ≡ Rattle.un_script.specs.Table.is_allowed class parameter n }
{
    match parameter {
        Parameter::Segment => 60 <= n && n <= 8192,
        Parameter::Packet => [8, 16, 32, 64, 128, 256, 512, 1024].contains(&n),
        Parameter::Block => 2048 <= n && n <= class.most_block() as u64,
        Parameter::Datagrams => n <= 1024,
        Parameter::Divisor => 1 <= n && n <= 64,
        Parameter::Remainder => n <= 63,
        Parameter::Alignment => 4 <= n && n <= 64,
    }
}

/// Whether a filter is one.
pub fn is_filter(n: u8) -> bool
    ensures { result ≡ Rattle.un_script.specs.Table.is_filter n }
{
    n <= 0x1f
}

/// Whether a pool may have so many requests.
pub fn is_pool_size(n: u64) -> bool
    ensures { result ≡ Rattle.un_script.specs.Table.is_pool_size n }
{
    1 <= n && n <= 64
}

/// Whether so many attempts of a transfer may fail.
pub fn is_times(n: u64) -> bool
    ensures { result ≡ Rattle.un_script.specs.Table.is_times n }
{
    1 <= n && n <= 4
}

/// The parameters with another number.
pub fn with_number(parameter: Parameter, n: u32, params: Params) -> Params
    ensures { result ≡ Rattle.un_script.specs.Table.with_number parameter n params }
{
    let mut params = params;
    match parameter {
        Parameter::Segment => params.segment = n,
        Parameter::Packet => params.packet = n,
        Parameter::Block => params.block = n,
        Parameter::Datagrams => params.datagrams = n,
        Parameter::Divisor => params.divisor = n,
        Parameter::Remainder => params.remainder = n,
        Parameter::Alignment => params.alignment = n,
    }
    params
}
