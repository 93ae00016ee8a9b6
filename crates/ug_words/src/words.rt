// Numbers and times in the words of a rule.
ghost use Rattle.std.specs.Prelude.{◌≡◌, ◌≤◌, nat_eq, Some, IfSome};
ghost use Rattle.std.specs.List.{position};
ghost use Rattle.ug_words.specs.Words.{two_of, four_of, has_colon_at, id_of, id_of_vendor, interface_of, interface_of_class, interface_of_subclass, with_decimal_digit, digits_of, decimal_of, part_of, minute_of, time_of, first_second, last_second, span_of, past_of, billionths_of, chance_of};

use hex::FromHex;
use ug_types::{Id, Iface, is_word};

/// From one second of the day to another, both within it.
#[derive(Clone, Copy)]
pub struct DaySpan {
    pub begin: u32,
    pub end: u32,
}

/// A time, as the seconds before it.
#[derive(Clone, Copy)]
pub enum Clock {
    /// Of a minute's first second.
    Minute(u32),
    Second(u32),
}

/// Two hexadecimal digits of either case.
#[tactic(auto, unfolding(crate::specs::Words::two_of))]
fn two(text: &[u8]) -> Option<u8>
    ensures { result ≡ two_of text.now }
{
    match <[u8; 1] as FromHex>::from_hex(text) {
        Ok(bytes) => Some(bytes[0]),
        Err(_) => None,
    }
}

/// Four hexadecimal digits of either case.
#[tactic(auto, unfolding(crate::specs::Words::four_of))]
fn four(text: &[u8]) -> Option<u16>
    ensures { result ≡ four_of text.now }
{
    match <[u8; 2] as FromHex>::from_hex(text) {
        Ok(bytes) => Some(u16::from(bytes[0]) * 256 + u16::from(bytes[1])),
        Err(_) => None,
    }
}

/// Whether a colon stands behind so many bytes.
fn colon_behind(count: usize, text: &[u8]) -> bool
    ensures { result ≡ has_colon_at count text.now }
{
    count < text.len() && text[count] == b':'
}

#[tactic(auto, unfolding(crate::specs::Words::star))]
fn id_behind_vendor(vendor: Option<u16>, text: &[u8]) -> Option<Id>
    ensures { result ≡ id_of_vendor vendor text.now }
{
    let vendor = match vendor {
        Some(vendor) => vendor,
        None => return None,
    };
    if is_word(text, b"*") {
        return Some(Id {
            vendor: Some(vendor),
            product: None,
        });
    }
    match four(text) {
        Some(product) => Some(Id {
            vendor: Some(vendor),
            product: Some(product),
        }),
        None => None,
    }
}

/// `vvvv:pppp`, `vvvv:*` or `*:*`.
#[tactic(auto, unfolding(crate::specs::Words::id_of, crate::specs::Words::two_stars))]
pub fn id(word: &[u8]) -> Option<Id>
    ensures { result ≡ id_of word.now }
{
    if is_word(word, b"*:*") {
        return Some(Id {
            vendor: None,
            product: None,
        });
    }
    if !colon_behind(4, word) {
        return None;
    }
    id_behind_vendor(four(&word[..4]), &word[5..])
}

#[tactic(auto, unfolding(crate::specs::Words::star))]
fn interface_behind_subclass(class: u8, subclass: Option<u8>, text: &[u8]) -> Option<Iface>
    ensures { result ≡ interface_of_subclass class subclass text.now }
{
    let subclass = match subclass {
        Some(subclass) => subclass,
        None => return None,
    };
    if is_word(text, b"*") {
        return Some(Iface {
            class,
            subclass: Some(subclass),
            protocol: None,
        });
    }
    match two(text) {
        Some(protocol) => Some(Iface {
            class,
            subclass: Some(subclass),
            protocol: Some(protocol),
        }),
        None => None,
    }
}

#[tactic(auto, unfolding(crate::specs::Words::two_stars))]
fn interface_behind_class(class: Option<u8>, text: &[u8]) -> Option<Iface>
    ensures { result ≡ interface_of_class class text.now }
{
    let class = match class {
        Some(class) => class,
        None => return None,
    };
    if is_word(text, b"*:*") {
        return Some(Iface {
            class,
            subclass: None,
            protocol: None,
        });
    }
    if !colon_behind(2, text) {
        return None;
    }
    interface_behind_subclass(class, two(&text[..2]), &text[3..])
}

/// `cc:ss:pp`, `cc:ss:*` or `cc:*:*`.
#[tactic(auto, unfolding(crate::specs::Words::interface_of))]
pub fn interface(word: &[u8]) -> Option<Iface>
    ensures { result ≡ interface_of word.now }
{
    if !colon_behind(2, word) {
        return None;
    }
    interface_behind_class(two(&word[..2]), &word[3..])
}

fn digit_onto(number: u32, byte: u8) -> Option<u32>
    ensures { result ≡ with_decimal_digit (Some number) byte }
{
    if byte < b'0' {
        return None;
    }
    if byte > b'9' {
        return None;
    }
    let longer = u64::from(number) * 10 + u64::from(byte - b'0');
    if longer > 4_294_967_295 {
        return None;
    }
    Some(longer as u32)
}

fn digits(digits: &[u8]) -> Option<u32>
    ensures { result ≡ digits_of digits.now }
{
    let mut number: u32 = 0;
    for byte in digits {
        match digit_onto(number, *byte) {
            Some(longer) => number = longer,
            None => return None,
        }
    }
    Some(number)
}

/// A decimal number without a sign or a leading zero, up to 4,294,967,295.
#[tactic(auto, unfolding(crate::specs::Words::decimal_of))]
fn number(text: &[u8]) -> Option<u32>
    ensures { result ≡ decimal_of text.now }
{
    if text.is_empty() {
        return None;
    }
    if text[0] == b'0' {
        return if text.len() == 1 { Some(0) } else { None };
    }
    digits(text)
}

/// Two decimal digits.
#[tactic(auto, unfolding(crate::specs::Words::part_of))]
fn part(most: u32, text: &[u8]) -> Option<u32>
    ensures is { result ≡ part_of most text.now }
    ensures bound { IfSome result (λ n. n ≤ most) }
{
    if text.len() != 2 {
        return None;
    }
    match digits(text) {
        Some(number) => { if number <= most { Some(number) } else { None } }
        None => None,
    }
}

/// `HH:MM` as seconds.
#[tactic(auto, unfolding(crate::specs::Words::minute_of))]
fn minute(most: u32, text: &[u8]) -> Option<u32>
    requires { most ≤ 99 }
    ensures is { result ≡ minute_of most text.now }
    ensures bound { IfSome result (λ n. n ≤ 359940) }
{
    if !colon_behind(2, text) {
        return None;
    }
    match part(most, &text[..2]) {
        Some(hours) => match part(59, &text[3..]) {
            Some(minutes) => Some(hours * 3600 + minutes * 60),
            None => None,
        },
        None => None,
    }
}

/// `HH:MM` or `HH:MM:SS`.
#[tactic(auto, unfolding(crate::specs::Words::time_of))]
fn time(most: u32, text: &[u8]) -> Option<Clock>
    requires { most ≤ 99 }
    ensures is { result ≡ time_of most text.now }
    ensures bound { IfSome result (λ t. first_second t ≤ 359999) }
{
    if !colon_behind(5, text) {
        return match minute(most, text) {
            Some(minute) => Some(Clock::Minute(minute)),
            None => None,
        };
    }
    match minute(most, &text[..5]) {
        Some(minute) => match part(59, &text[6..]) {
            Some(seconds) => Some(Clock::Second(minute + seconds)),
            None => None,
        },
        None => None,
    }
}

fn begin_of(time: Clock) -> u32
    ensures { result ≡ first_second time }
{
    match time {
        Clock::Minute(minute) => minute,
        Clock::Second(second) => second,
    }
}

fn end_of(time: Clock) -> u32
    requires { first_second time ≤ 359999 }
    ensures { result ≡ last_second time }
{
    match time {
        Clock::Minute(minute) => minute + 59,
        Clock::Second(second) => second,
    }
}

fn dash_in(text: &[u8]) -> Option<usize>
    ensures { result ≡ position (nat_eq 45) text.now }
{
    for place in 0..text.len() {
        if b'-' == text[place] {
            return Some(place);
        }
    }
    None
}

/// A time of the day, or two with a dash between.
#[tactic(auto, unfolding(crate::specs::Words::span_of))]
pub fn span(text: &[u8]) -> Option<DaySpan>
    ensures { result ≡ span_of text.now }
{
    match dash_in(text) {
        Some(dash) => match time(23, &text[..dash]) {
            Some(begin) => match time(23, &text[dash + 1..]) {
                Some(end) => Some(DaySpan {
                    begin: begin_of(begin),
                    end: begin_of(end),
                }),
                None => None,
            },
            None => None,
        },
        None => match time(23, text) {
            Some(time) => Some(DaySpan {
                begin: begin_of(time),
                end: end_of(time),
            }),
            None => None,
        },
    }
}

/// Seconds, or hours up to 99, minutes and perhaps seconds.
#[tactic(auto, unfolding(crate::specs::Words::past_of))]
pub fn past(text: &[u8]) -> Option<u32>
    ensures { result ≡ past_of text.now }
{
    if !colon_behind(2, text) {
        return number(text);
    }
    match time(99, text) {
        Some(time) => Some(begin_of(time)),
        None => None,
    }
}

/// One to nine digits behind the point.
#[tactic(auto, unfolding(crate::specs::Words::billionths_of))]
fn billionths(fraction: &[u8]) -> Option<u32>
    ensures { result ≡ billionths_of fraction.now }
{
    if fraction.is_empty() || fraction.len() > 9 {
        return None;
    }
    let mut nine = [b'0'; 9];
    nine[..fraction.len()].copy_from_slice(fraction);
    digits(&nine)
}

/// `0`, `1`, or `0.` and one to nine digits, in billionths.
#[tactic(auto, unfolding(crate::specs::Words::chance_of, crate::specs::Words::zero_point))]
pub fn chance(text: &[u8]) -> Option<u32>
    ensures { result ≡ chance_of text.now }
{
    if is_word(text, b"0") {
        return Some(0);
    }
    if is_word(text, b"1") {
        return Some(1_000_000_000);
    }
    if text.starts_with(b"0.") {
        return billionths(&text[2..]);
    }
    None
}
