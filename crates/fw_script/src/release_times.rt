//! The release time of a package.

ghost use Rattle.std.specs.Prelude.{◌≡◌, ◌&&◌, ◌+◌, ◌<◌, length};
ghost use Rattle.fw_script.specs.ReleaseTimes.{days_in, decimal_pair, is_date, is_date_form, is_leap_year, is_time, pair_at, release_of, time_in, timestamp};

use crate::faults::ScriptCause;

/// The resolutions of a timestamp: the offset is given to the minute, the time to the second.
const RESOLUTION: u8 = 0x16;

/// A date and a time of day, UTC.
#[derive(Clone, Copy)]
struct DateTime {
    year: u16,
    month: u8,
    day: u8,
    hour: u8,
    minute: u8,
    second: u8,
}

/// The number of two decimal digits.
fn decimal_pair(tens: u8, ones: u8) -> Option<u8>
    ensures { result ≡ decimal_pair tens ones }
{
    if tens.is_ascii_digit() && ones.is_ascii_digit() {
        Some((tens - b'0') * 10 + (ones - b'0'))
    } else {
        None
    }
}

/// Whether a year has a 29th of February.
fn is_leap_year(year: u16) -> bool
    ensures { result ≡ is_leap_year year }
{
    year % 4 == 0 && (year % 100 != 0 || year % 400 == 0)
}

/// The days of a month, 1 to 12.
fn days_in(year: u16, month: u8) -> u8
    ensures { result ≡ days_in year month }
{
    match month {
        2 => { if is_leap_year(year) { 29 } else { 28 } }
        4 | 6 | 9 | 11 => 30,
        _ => 31,
    }
}

impl DateTime {
    /// Whether the calendar has this date, and a day this time.
    fn is_real(self) -> bool
        ensures { result ≡ (is_date self.year self.month self.day && is_time self.hour self.minute self.second) }
    {
        1 <= self.month
            && self.month <= 12
            && 1 <= self.day
            && self.day <= days_in(self.year, self.month)
            && self.hour <= 23
            && self.minute <= 59
            && self.second <= 59
    }

    /// The timestamp of this time (timestamp104 of DSP0240), without microseconds.
    fn timestamp(self) -> [u8; 13]
        ensures { result ≡ timestamp self }
    {
        [
            0,
            0,
            0,
            0,
            0,
            self.second,
            self.minute,
            self.hour,
            self.day,
            self.month,
            (self.year % 256) as u8,
            (self.year / 256) as u8,
            RESOLUTION,
        ]
    }
}

/// Whether a word has the form `YYYY-MM-DDTHH:MM:SSZ`, with any bytes for digits.
fn is_date_form(word: &[u8]) -> bool
    ensures { result ≡ is_date_form word.now }
{
    word.len() == 20
        && word[4] == b'-'
        && word[7] == b'-'
        && word[10] == b'T'
        && word[13] == b':'
        && word[16] == b':'
        && word[19] == b'Z'
}

/// The number of the two digits at a place of a word.
fn pair_at(word: &[u8], place: usize) -> Option<u8>
    requires { place + 1 < length word.now }
    ensures { result ≡ pair_at word.now place }
{
    decimal_pair(word[place], word[place + 1])
}

/// The time that a word of that form gives.
fn time_in(word: &[u8]) -> Result<DateTime, ScriptCause>
    requires { length word.now ≡ 20 }
    ensures { result ≡ time_in word.now }
{
    let Some(century) = pair_at(word, 0) else {
        return Err(ScriptCause::Number);
    };
    let Some(year) = pair_at(word, 2) else {
        return Err(ScriptCause::Number);
    };
    let Some(month) = pair_at(word, 5) else {
        return Err(ScriptCause::Number);
    };
    let Some(day) = pair_at(word, 8) else {
        return Err(ScriptCause::Number);
    };
    let Some(hour) = pair_at(word, 11) else {
        return Err(ScriptCause::Number);
    };
    let Some(minute) = pair_at(word, 14) else {
        return Err(ScriptCause::Number);
    };
    let Some(second) = pair_at(word, 17) else {
        return Err(ScriptCause::Number);
    };
    Ok(DateTime {
        year: u16::from(century) * 100 + u16::from(year),
        month,
        day,
        hour,
        minute,
        second,
    })
}

/// A release time: a date and time of UTC as RFC 3339 has them, or thirteen bytes.
#[tactic(auto, unfolding(crate::specs::ReleaseTimes::release_of))]
pub(crate) fn release(word: &[u8]) -> Result<[u8; 13], ScriptCause>
    ensures { result ≡ release_of word.now }
{
    if is_date_form(word) {
        return match time_in(word) {
            Ok(time) if time.is_real() => Ok(time.timestamp()),
            Ok(_) => Err(ScriptCause::Range),
            Err(cause) => Err(cause),
        };
    }
    let mut release = [0; 13];
    match hex::decode_to_slice(word, &mut release) {
        Ok(()) => Ok(release),
        Err(_) => Err(ScriptCause::Hex),
    }
}
