// Minutes of the month as a date, lengths in hours and minutes: read from an argument, and put into a lent buffer.
#![tactic(auto)]

ghost use Rattle.std.specs.Prelude.{◌≡◌, ◌==◌, ◌+◌, ◌%◌, ◌≤◌, length, position};
ghost use Rattle.render.specs.Decimal.{digit};
ghost use Rattle.render.specs.Inner.{Puts};
ghost use Rattle.clock.specs.Clock.{has, before, behind, number_in, up_to16_bits, date_of, start_of, minutes_in, rest_in};
ghost use Rattle.clock.specs.Clock.{length_of, two_digits, clock_text, date_text, hours_text, minutes_text, length_text, most_date, most_length};

use render::{put_decimal, put_word};
use row::{CEILING, grown, hold, is_digit};

// Where the first such byte stands, if there is one.
fn place_of(text: &[u8], mark: u8) -> Option<usize>
    ensures { result ≡ position (λ b. b == mark) text.now }
{
    text.iter().position(|b| *b == mark)
}

// Whether the text has such a byte; what stands before the first of them, and behind it.
fn has(text: &[u8], mark: u8) -> bool
    ensures { result ≡ has mark text.now }
{
    text.contains(&mark)
}

pub fn before(text: &[u8], mark: u8) -> &[u8]
    ensures { result.now ≡ before mark text.now }
{
    match place_of(text, mark) {
        Some(n) => &text[..n],
        None => text,
    }
}

pub fn behind(text: &[u8], mark: u8) -> &[u8]
    ensures { result.now ≡ behind mark text.now }
{
    match place_of(text, mark) {
        Some(n) => &text[n + 1..],
        None => &[],
    }
}

// The number that digits say; what is no number is past every limit.
fn number_in(text: &[u8]) -> u64
    ensures { result ≡ number_in text.now }
{
    if text.is_empty() {
        return CEILING;
    }
    let mut value = 0;
    for b in text {
        if !is_digit(*b) {
            return CEILING;
        }
        value = grown(value, *b);
    }
    hold(value)
}

// So many minutes, if 16 bits hold them.
#[tactic(auto, unfolding(crate::specs::Clock::up_to16_bits))]
fn up_to_16_bits(n: u64) -> Option<u16>
    ensures { result ≡ up_to16_bits n }
{
    u16::try_from(n).ok()
}

// The minute of a date, in a month of so many days.
#[tactic(auto, unfolding(crate::specs::Clock::date_of))]
fn date_of(days: u32, day: u64, hour: u64, minute: u64) -> Option<u16>
    ensures { result ≡ date_of days day hour minute }
{
    let there = (1 <= day) & (day <= u64::from(days)) & (hour < 24) & (minute < 60);
    if !there {
        return None;
    }
    up_to_16_bits((day - 1) * 1440 + hour * 60 + minute)
}

// A start as an argument has it, in a month of so many days.
#[tactic(auto, unfolding(crate::specs::Clock::start_of))]
pub fn start_of(days: u32, text: &[u8]) -> Option<u16>
    ensures { result ≡ start_of days text.now }
{
    if !has(text, b'/') {
        return up_to_16_bits(number_in(text));
    }
    let time = behind(text, b'/');
    let day = number_in(before(text, b'/'));
    let hour = number_in(before(time, b':'));
    let minute = number_in(behind(time, b':'));
    date_of(days, day, hour, minute)
}

// Minutes with `m` behind them or without.
#[tactic(auto, unfolding(crate::specs::Clock::minutes_in))]
fn minutes_in(text: &[u8]) -> u64
    ensures { result ≡ minutes_in text.now }
{
    if !has(text, b'm') {
        return number_in(text);
    }
    if !behind(text, b'm').is_empty() {
        return CEILING;
    }
    number_in(before(text, b'm'))
}

// The minutes behind the hours, if there are any.
#[tactic(auto, unfolding(crate::specs::Clock::rest_in))]
fn rest_in(text: &[u8]) -> u64
    ensures { result ≡ rest_in text.now }
{
    if text.is_empty() {
        return 0;
    }
    minutes_in(text)
}

// A length as an argument has it.
#[tactic(auto, using(crate::proofs::Dates::most_number_lem, crate::proofs::Dates::most_rest), unfolding(crate::specs::Clock::length_of))]
pub fn length_of(text: &[u8]) -> Option<u16>
    ensures { result ≡ length_of text.now }
{
    if !has(text, b'h') {
        return up_to_16_bits(minutes_in(text));
    }
    let hours = number_in(before(text, b'h'));
    let minutes = rest_in(behind(text, b'h'));
    up_to_16_bits(hours * 60 + minutes)
}

// The last digit of a number.
fn last_digit(n: u16) -> u8
    ensures { result ≡ digit (n % 10) }
{
    b'0' + (n % 10) as u8
}

#[tactic(auto, unfolding(crate::specs::Clock::two_digits))]
fn put_two(out: &mut [u8], at: usize, n: u16) -> usize
    requires { at + 2 ≤ length out.old }
    ensures { Puts 2 out.old at (two_digits n) out.new result }
{
    let tens = last_digit(n / 10);
    let ones = last_digit(n);
    put_word(out, at, &[tens, ones])
}

fn put_clock(out: &mut [u8], at: usize, minutes: u16) -> usize
    requires { at + 5 ≤ length out.old }
    ensures { Puts 5 out.old at (clock_text minutes) out.new result }
{
    let a = put_two(out, at, minutes % 1440 / 60);
    let b = put_word(out, a, b":");
    put_two(out, b, minutes % 60)
}

// Minutes of the month as a date, from a place of a buffer on; answers the place behind it.
pub fn put_date(out: &mut [u8], at: usize, minutes: u16) -> usize
    requires { at + most_date ≤ length out.old }
    ensures { Puts most_date out.old at (date_text minutes) out.new result }
{
    let day = minutes / 1440 + 1;
    let a = put_decimal(out, at, u64::from(day));
    let b = put_word(out, a, b"/");
    put_clock(out, b, minutes)
}

fn put_hours(out: &mut [u8], at: usize, n: u16) -> usize
    requires { at + 21 ≤ length out.old }
    ensures { Puts 21 out.old at (hours_text n) out.new result }
{
    let next = put_decimal(out, at, u64::from(n));
    put_word(out, next, b"h")
}

fn put_minutes(out: &mut [u8], at: usize, n: u16) -> usize
    requires { at + 21 ≤ length out.old }
    ensures { Puts 21 out.old at (minutes_text n) out.new result }
{
    let next = put_decimal(out, at, u64::from(n));
    put_word(out, next, b"m")
}

// A length in hours and minutes, from a place of a buffer on; answers the place behind it.
pub fn put_length(out: &mut [u8], at: usize, minutes: u16) -> usize
    requires { at + most_length ≤ length out.old }
    ensures { Puts most_length out.old at (length_text minutes) out.new result }
{
    if minutes < 60 {
        return put_minutes(out, at, minutes);
    }
    if minutes % 60 == 0 {
        return put_hours(out, at, minutes / 60);
    }
    let next = put_hours(out, at, minutes / 60);
    put_minutes(out, next, minutes % 60)
}
