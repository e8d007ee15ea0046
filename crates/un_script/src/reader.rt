//! A script from its text.

ghost use Rattle.std.specs.Prelude.{◌≡◌, ◌<◌, ◌∷◌, [], Err, IfOk, IsTrue, length};
ghost use Rattle.un_facts.specs.Results.{given};
ghost use Rattle.un_script.specs.declared.why.Refused.TheVariants.{Because};
ghost use Rattle.un_script.specs.declared.why.Why.TheVariants.{Hex};
ghost use Rattle.un_script.specs.Numbers.{bytes_of};
ghost use Rattle.un_script.specs.Table.{is_fault, is_planned_serial};
ghost use Rattle.un_script.specs.Reading.{Gives, ReadGives, now_at, class_line, number_line, filter_line, requests_line, frame_line, control_line, fault_line, attempts_line, fault_planned, words_read, line_read, script_of};

use crate::lines::{first_line, is_skipped, is_spelled};
use crate::numbers::{byte, number};
use crate::script::Script;
use crate::state::state_after;
use crate::table::{
    control_named, fault_named, is_allowed, is_filter, is_pool_size, is_times, may_follow,
    parameter_named, place_of, unlink_named, with_number,
};
use crate::why::{Refused, ScriptError, Why};
use std::alloc::Global;
use un_frame::{Bytes, Class, Lane, Params, Planned};
use un_journal::{Control, Due};
use un_text::{class_named, cut_word, decode, is, lane_named};

const CLASS: u8 = 1;

const FILTER: u8 = 4;

const REQUESTS: u8 = 10;

const BODY: u8 = 11;

/// A refusal for a reason.
fn refuse(why: Why) -> Result<u8, Refused>
    ensures { result ≡ Err (Because why) }
{
    Err(Refused::Because(why))
}

/// `class C`
fn class_line(alloc: Global, script: &mut Script, place: u8, class: &[u8]) -> Result<u8, Refused>
    ensures { Gives (λ next. now_at next script.new) result (Rattle.un_script.specs.Reading.class_line (now_at place script.old) class.now) }
{
    let Some(class) = class_named(class) else {
        return refuse(Why::Word);
    };
    if !may_follow(place, CLASS) {
        return refuse(Why::Order);
    }
    *script = Script::make(alloc, Params::of_class(class));
    Ok(CLASS)
}

/// `segment N`, and the other parameters of one number
#[tactic(auto, using(crate::proofs::Ranges::number_in_range))]
fn number_line(script: &mut Script, place: u8, key: &[u8], n: &[u8]) -> Result<u8, Refused>
    ensures { Gives (λ next. now_at next script.new) result (Rattle.un_script.specs.Reading.number_line (now_at place script.old) key.now n.now) }
{
    let Some(parameter) = parameter_named(key) else {
        return refuse(Why::Word);
    };
    if !may_follow(place, place_of(parameter)) {
        return refuse(Why::Order);
    }
    let Some(n) = number(n) else {
        return refuse(Why::Number);
    };
    script.prove_ready();
    let params = *script.params();
    if !is_allowed(params.class, parameter, n) {
        return refuse(Why::Range);
    }
    script.set_params(with_number(parameter, n as u32, params));
    Ok(place_of(parameter))
}

/// `filter XX`
#[tactic(auto, using(crate::proofs::Ranges::filter_in_range))]
fn filter_line(script: &mut Script, place: u8, x: &[u8]) -> Result<u8, Refused>
    ensures { Gives (λ next. now_at next script.new) result (Rattle.un_script.specs.Reading.filter_line (now_at place script.old) x.now) }
{
    if !may_follow(place, FILTER) {
        return refuse(Why::Order);
    }
    let Some(filter) = byte(x) else {
        return refuse(Why::Hex);
    };
    if !is_filter(filter) {
        return refuse(Why::Range);
    }
    script.prove_ready();
    let mut params = *script.params();
    params.filter = filter;
    script.set_params(params);
    Ok(FILTER)
}

/// `requests A B C D`
#[tactic(auto, using(crate::proofs::Ranges::pools_in_range))]
fn requests_line(
    script: &mut Script,
    place: u8,
    a: &[u8],
    b: &[u8],
    c: &[u8],
    d: &[u8],
) -> Result<u8, Refused>
    ensures { Gives (λ next. now_at next script.new) result (Rattle.un_script.specs.Reading.requests_line (now_at place script.old) a.now b.now c.now d.now) }
{
    if !may_follow(place, REQUESTS) {
        return refuse(Why::Order);
    }
    let Some(tx_out) = number(a) else {
        return refuse(Why::Number);
    };
    let Some(rx_out) = number(b) else {
        return refuse(Why::Number);
    };
    let Some(tx_in) = number(c) else {
        return refuse(Why::Number);
    };
    let Some(rx_in) = number(d) else {
        return refuse(Why::Number);
    };
    if !(is_pool_size(tx_out)
        && is_pool_size(rx_out)
        && is_pool_size(tx_in)
        && is_pool_size(rx_in))
    {
        return refuse(Why::Range);
    }
    script.prove_ready();
    let mut params = *script.params();
    params.tx_out = tx_out as u32;
    params.rx_out = rx_out as u32;
    params.tx_in = tx_in as u32;
    params.rx_in = rx_in as u32;
    script.set_params(params);
    Ok(REQUESTS)
}

/// `out S HEX` and `in S HEX`
fn frame_line(
    alloc: Global,
    script: &mut Script,
    place: u8,
    key: &[u8],
    s: &[u8],
    hex: &[u8],
) -> Result<u8, Refused>
    requires { 0 < length hex.now }
    ensures { Gives (λ next. now_at next script.new) result (Rattle.un_script.specs.Reading.frame_line (now_at place script.old) key.now s.now hex.now) }
{
    let Some(lane) = lane_named(key) else {
        return refuse(Why::Word);
    };
    if !may_follow(place, BODY) {
        return refuse(Why::Order);
    }
    let Some(sender) = number(s) else {
        return refuse(Why::Number);
    };
    let frame = bytes(alloc, hex)?;
    if sender > 3 {
        return refuse(Why::Range);
    }
    if script.frame_count() >= 65536 {
        return refuse(Why::Count);
    }
    if script
        .add_frame(lane, sender as u32, Bytes::make(frame))
        .is_err()
    {
        return Err(Refused::NoMemory);
    }
    Ok(BODY)
}

/// The bytes that pairs of hexadecimal digits are, one for each pair.
#[tactic(auto, using(crate::proofs::Decoded::decoded_some))]
fn bytes(alloc: Global, word: &[u8]) -> Result<Vec<u8>, Refused>
    requires { 0 < length word.now }
    ensures given { Gives (λ v. v.items) result (given Hex (bytes_of word.now)) }
    ensures some { IfOk result (λ v. 0 < length v.items) }
{
    if word.len() % 2 != 0 {
        return Err(Refused::Because(Why::Hex));
    }
    let Ok(mut bytes) = vec![in alloc; 0u8; word.len() / 2] else {
        return Err(Refused::NoMemory);
    };
    if !decode(word, bytes.as_mut_slice()) {
        return Err(Refused::Because(Why::Hex));
    }
    Ok(bytes)
}

/// `at L W CONTROL`
#[tactic(auto, using(crate::proofs::States::state_more))]
fn control_line(
    script: &mut Script,
    place: u8,
    l: &[u8],
    w: &[u8],
    control: Option<Control>,
) -> Result<u8, Refused>
    ensures { Gives (λ next. now_at next script.new) result (Rattle.un_script.specs.Reading.control_line (now_at place script.old) l.now w.now control) }
{
    let Some(lane) = lane_named(l) else {
        return refuse(Why::Word);
    };
    let Some(control) = control else {
        return refuse(Why::Word);
    };
    if !may_follow(place, BODY) {
        return refuse(Why::Order);
    }
    let Some(want) = number(w) else {
        return refuse(Why::Number);
    };
    if want > 65536 {
        return refuse(Why::Range);
    }
    if script.control_count() >= 256 {
        return refuse(Why::Count);
    }
    if state_after(control, script.state()).is_none() {
        return refuse(Why::Control);
    }
    let due = Due {
        lane,
        want,
        control,
    };
    if script.add_control(due).is_err() {
        return Err(Refused::NoMemory);
    }
    Ok(BODY)
}

/// `fault L K halt` and `fault L K proto`
fn fault_line(script: &mut Script, place: u8, l: &[u8], k: &[u8], f: &[u8]) -> Result<u8, Refused>
    ensures { Gives (λ next. now_at next script.new) result (Rattle.un_script.specs.Reading.fault_line (now_at place script.old) l.now k.now f.now) }
{
    let Some(lane) = lane_named(l) else {
        return refuse(Why::Word);
    };
    let Some(planned) = fault_named(f) else {
        return refuse(Why::Word);
    };
    if !may_follow(place, BODY) {
        return refuse(Why::Order);
    }
    let Some(serial) = number(k) else {
        return refuse(Why::Number);
    };
    if serial > 65535 {
        return refuse(Why::Range);
    }
    plan_fault(script, lane, serial, planned)
}

/// `fault L K proto N`
fn attempts_line(
    script: &mut Script,
    place: u8,
    l: &[u8],
    k: &[u8],
    f: &[u8],
    n: &[u8],
) -> Result<u8, Refused>
    ensures { Gives (λ next. now_at next script.new) result (Rattle.un_script.specs.Reading.attempts_line (now_at place script.old) l.now k.now f.now n.now) }
{
    let Some(lane) = lane_named(l) else {
        return refuse(Why::Word);
    };
    if !is(f, b"proto") {
        return refuse(Why::Word);
    }
    if !may_follow(place, BODY) {
        return refuse(Why::Order);
    }
    let Some(serial) = number(k) else {
        return refuse(Why::Number);
    };
    let Some(times) = number(n) else {
        return refuse(Why::Number);
    };
    if serial > 65535 || !is_times(times) {
        return refuse(Why::Range);
    }
    let times = times as u32;
    plan_fault(script, lane, serial, Planned::Proto { times })
}

/// Plans a fault for a transfer.
fn plan_fault(script: &mut Script, lane: Lane, serial: u64, planned: Planned) -> Result<u8, Refused>
    requires serial { IsTrue (is_planned_serial serial) }
    requires fault { IsTrue (is_fault planned) }
    ensures { Gives (λ next. now_at next script.new) result (fault_planned lane serial planned script.old) }
{
    if script.fault_count() >= 1024 {
        return refuse(Why::Count);
    }
    match script.fault(lane, serial) {
        Planned::Clean => {}
        Planned::Proto { times: _ } => return refuse(Why::Fault),
        Planned::Halt => return refuse(Why::Fault),
    }
    if script.add_fault(lane, serial, planned).is_err() {
        return Err(Refused::NoMemory);
    }
    Ok(BODY)
}

/// A line that isn't skipped.
#[tactic(auto, using(crate::proofs::Heard::heard, crate::proofs::Heard::unheard, crate::proofs::Heard::too_many))]
fn read_line(alloc: Global, script: &mut Script, place: u8, line: &[u8]) -> Result<u8, Refused>
    ensures { Gives (λ next. now_at next script.new) result (line_read (now_at place script.old) line.now) }
{
    if !is_spelled(line) {
        return refuse(Why::Word);
    }
    let (key, rest) = cut_word(line);
    let Some(rest) = rest else {
        return refuse(Why::Word);
    };
    let (a, rest) = cut_word(rest);
    let Some(rest) = rest else {
        return read_two(alloc, script, place, key, a);
    };
    let (b, rest) = cut_word(rest);
    let Some(rest) = rest else {
        return frame_line(alloc, script, place, key, a, b);
    };
    let (c, rest) = cut_word(rest);
    let Some(rest) = rest else {
        return read_four(script, place, key, a, b, c);
    };
    let (d, rest) = cut_word(rest);
    match rest {
        None => read_five(script, place, key, a, b, c, d),
        Some(_) => refuse(Why::Word),
    }
}

fn read_two(
    alloc: Global,
    script: &mut Script,
    place: u8,
    key: &[u8],
    a: &[u8],
) -> Result<u8, Refused>
    ensures { Gives (λ next. now_at next script.new) result (words_read (now_at place script.old) (key.now ∷ a.now ∷ [])) }
{
    if is(key, b"class") {
        class_line(alloc, script, place, a)
    } else if is(key, b"filter") {
        filter_line(script, place, a)
    } else {
        number_line(script, place, key, a)
    }
}

fn read_four(
    script: &mut Script,
    place: u8,
    key: &[u8],
    a: &[u8],
    b: &[u8],
    c: &[u8],
) -> Result<u8, Refused>
    ensures { Gives (λ next. now_at next script.new) result (words_read (now_at place script.old) (key.now ∷ a.now ∷ b.now ∷ c.now ∷ [])) }
{
    if is(key, b"at") {
        control_line(script, place, a, b, control_named(c))
    } else if is(key, b"fault") {
        fault_line(script, place, a, b, c)
    } else {
        refuse(Why::Word)
    }
}

fn read_five(
    script: &mut Script,
    place: u8,
    key: &[u8],
    a: &[u8],
    b: &[u8],
    c: &[u8],
    d: &[u8],
) -> Result<u8, Refused>
    ensures { Gives (λ next. now_at next script.new) result (words_read (now_at place script.old) (key.now ∷ a.now ∷ b.now ∷ c.now ∷ d.now ∷ [])) }
{
    if is(key, b"at") {
        control_line(script, place, a, b, unlink_named(c, d))
    } else if is(key, b"requests") {
        requests_line(script, place, a, b, c, d)
    } else if is(key, b"fault") {
        attempts_line(script, place, a, b, c, d)
    } else {
        refuse(Why::Word)
    }
}

/// Reads a script. Its lines are cut at line feeds, and the last may lack its own; a line that is empty or begins with `#` is skipped. The line `class C` comes first, then the lines of
/// parameters in their order, each at most once, then the lines of frames, controls and planned faults in any order. docs/FORMATS.md has the whole table.
///
/// # Errors
///
/// `BadLine` at the first line that is refused, with the first reason that applies; `NoMemory` where there is no memory for the script.
#[tactic(auto, unfolding(crate::specs::Reading::lines_read, crate::specs::Reading::script_of, crate::specs::Words::lines_of))]
pub fn read(alloc: Global, bytes: &[u8]) -> Result<Script, ScriptError>
    ensures { ReadGives (λ s. s) result (script_of bytes.now) }
{
    let mut script = Script::make(alloc, Params::of_class(Class::Ecm));
    let mut place = 0;
    let mut number = 1;
    let mut rest = bytes;
    while !rest.is_empty() {
        let (line, more) = first_line(rest);
        if !is_skipped(line) {
            match read_line(alloc, &mut script, place, line) {
                Ok(next) => place = next,
                Err(Refused::Because(why)) => {
                    return Err(ScriptError::BadLine { line: number, why });
                }
                Err(Refused::NoMemory) => return Err(ScriptError::NoMemory),
            }
        }
        number += 1;
        rest = more;
    }
    if place == 0 {
        return Err(ScriptError::BadLine {
            line: number,
            why: Why::Word,
        });
    }
    Ok(script)
}
