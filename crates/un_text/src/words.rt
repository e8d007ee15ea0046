//! The words of a line, and what each says.

ghost use Rattle.std.specs.Prelude.{◌≡◌, ◌<◌, ◌≤◌, ◌∷◌, ◌++◌, [], length, MatchOption, IfSome};
ghost use Rattle.std.specs.Str.{bytes_eq};
ghost use Rattle.un_text.specs.Words;
ghost use Rattle.un_text.specs.Words.{feeds, words_in};
ghost use Rattle.un_frame.specs.Spelling;

use memchr::memchr;
use un_frame::{Class, FaultKind, Lane, Verdict};

/// Whether two words are the same.
pub fn is(word: &[u8], name: &[u8]) -> bool
    ensures { result ≡ bytes_eq word.now name.now }
{
    word == name
}

/// The first line, and what is behind its line feed; nothing where there is no line feed.
pub fn cut_line(text: &[u8]) -> Option<(&[u8], &[u8])>
    ensures { MatchOption result (feeds text.now ≡ 0) (λ p. (feeds p.0.now ≡ 0) × (text.now ≡ p.0.now ++ 10 ∷ p.1.now)) }
{
    match memchr(b'\n', text) {
        Some(end) => Some((&text[..end], &text[end + 1..])),
        None => None,
    }
}

/// The first word, and what is behind the space that ends it.
pub fn cut_word(line: &[u8]) -> (&[u8], Option<&[u8]>)
    ensures shorter { IfSome result.1 (λ rest. length rest.now < length line.now) }
    ensures cut { MatchOption result.1 (words_in line.now ≡ result.0.now ∷ []) (λ rest. words_in line.now ≡ result.0.now ∷ words_in rest.now) }
{
    match memchr(b' ', line) {
        Some(end) => (&line[..end], Some(&line[end + 1..])),
        None => (line, None),
    }
}

/// The word of a lane: at most 3 bytes.
pub fn lane_word(lane: Lane) -> &'static [u8]
    ensures word { result.now ≡ Spelling.lane_word lane }
    ensures short { length result.now ≤ 3 }
{
    match lane {
        Lane::Outward => b"out",
        Lane::Inward => b"in",
    }
}

/// The lane of a word.
pub fn lane_named(word: &[u8]) -> Option<Lane>
    ensures { result ≡ Spelling.lane_named word.now }
{
    if is(word, b"out") {
        Some(Lane::Outward)
    } else if is(word, b"in") {
        Some(Lane::Inward)
    } else {
        None
    }
}

/// The word of a class: at most 5 bytes.
pub fn class_word(class: Class) -> &'static [u8]
    ensures word { result.now ≡ Spelling.class_word class }
    ensures short { length result.now ≤ 5 }
{
    match class {
        Class::Ecm => b"ecm",
        Class::Eem => b"eem",
        Class::Ncm16 => b"ncm16",
        Class::Ncm32 => b"ncm32",
        Class::Rndis => b"rndis",
    }
}

/// The class of a word.
pub fn class_named(word: &[u8]) -> Option<Class>
    ensures { result ≡ Spelling.class_named word.now }
{
    if is(word, b"ecm") {
        Some(Class::Ecm)
    } else if is(word, b"eem") {
        Some(Class::Eem)
    } else if is(word, b"ncm16") {
        Some(Class::Ncm16)
    } else if is(word, b"ncm32") {
        Some(Class::Ncm32)
    } else if is(word, b"rndis") {
        Some(Class::Rndis)
    } else {
        None
    }
}

/// The word of a verdict on a frame: at most 8 bytes.
pub fn verdict_word(verdict: Verdict) -> &'static [u8]
    ensures word { result.now ≡ Words.verdict_word verdict }
    ensures short { length result.now ≤ 8 }
{
    match verdict {
        Verdict::Take => b"take",
        Verdict::Short => b"short",
        Verdict::Long => b"long",
        Verdict::Filtered => b"filtered",
    }
}

/// The verdict of a word that refuses a frame.
pub fn reason_named(word: &[u8]) -> Option<Verdict>
    ensures { result ≡ Words.why_in word.now }
{
    if is(word, b"short") {
        Some(Verdict::Short)
    } else if is(word, b"long") {
        Some(Verdict::Long)
    } else if is(word, b"filtered") {
        Some(Verdict::Filtered)
    } else {
        None
    }
}

/// The word of a planned fault's kind: at most 5 bytes.
pub fn fault_kind_word(kind: FaultKind) -> &'static [u8]
    ensures word { result.now ≡ Words.kind_word kind }
    ensures short { length result.now ≤ 5 }
{
    match kind {
        FaultKind::Proto => b"proto",
        FaultKind::Halt => b"halt",
    }
}

/// The kind of a planned fault of a word.
pub fn fault_kind_named(word: &[u8]) -> Option<FaultKind>
    ensures { result ≡ Words.kind_named word.now }
{
    if is(word, b"proto") {
        Some(FaultKind::Proto)
    } else if is(word, b"halt") {
        Some(FaultKind::Halt)
    } else {
        None
    }
}

/// Yes as `1`, no as `0`.
pub fn flag_word(flag: bool) -> &'static [u8]
    ensures word { result.now ≡ Words.flag_word flag }
    ensures short { length result.now ≤ 1 }
{
    if flag { b"1" } else { b"0" }
}

/// Yes of `1`, no of `0`.
pub fn flag_named(word: &[u8]) -> Option<bool>
    ensures { result ≡ Words.flag_in word.now }
{
    if is(word, b"1") {
        Some(true)
    } else if is(word, b"0") {
        Some(false)
    } else {
        None
    }
}
