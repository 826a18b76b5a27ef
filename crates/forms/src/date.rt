// A date-time: its pattern, a day of the calendar, a time of the day.
ghost use Rattle.std.specs.Prelude.{◌≡◌, length, if◌then◌else◌};
ghost use Rattle.forms.specs.Date.{stands_for, like, leap, days_in, calendar, good_day, good_time, date_time};

use crate::decimal::number;

// Whether s is a date-time.
#[tactic(auto, unfolding(crate::specs::Date::date_time))]
pub fn is_date_time(s: &[u8]) -> bool
    ensures { result ≡ date_time s.now }
{
    if !is_like(b"0000-00-00T00:00:00", s) {
        return false;
    }
    is_good_day(s) && is_good_time(s)
}

// Whether s follows the pattern, in which 0 stands for any digit and any other byte for itself.
#[tactic(auto, unfolding(crate::specs::Date::like))]
fn is_like(pattern: &[u8], s: &[u8]) -> bool
    ensures { result ≡ like pattern.now s.now }
{
    pattern.len() == s.len()
        && pattern
            .iter()
            .zip(s.iter())
            .all(|(&p, &b)| stands_for(p, b))
}

// Whether b may stand where the pattern has p.
#[tactic(auto, unfolding(crate::specs::Date::stands_for))]
fn stands_for(p: u8, b: u8) -> bool
    ensures { result ≡ stands_for p b }
{
    if p == b'0' { text::is_digit(b) } else { b == p }
}

// Whether the date is a day of the years 2000 to 2099.
#[tactic(auto, unfolding(crate::specs::Date::good_day))]
fn is_good_day(s: &[u8]) -> bool
    requires { length s.now ≡ 19 }
    ensures { result ≡ good_day s.now }
{
    let year = number(&s[..4]);
    matches!(year, 2000..=2099) && is_in_calendar(year, number(&s[5..7]), number(&s[8..10]))
}

// Whether the calendar has this day.
#[tactic(auto, unfolding(crate::specs::Date::calendar))]
fn is_in_calendar(year: u32, month: u32, day: u32) -> bool
    ensures { result ≡ calendar year month day }
{
    matches!(month, 1..=12) && 1 <= day && day <= days_in(year, month)
}

// How many days the month has.
#[tactic(auto, unfolding(crate::specs::Date::days_in))]
fn days_in(year: u32, month: u32) -> u32
    ensures { result ≡ days_in year month }
{
    match month {
        2 => if is_leap(year) { 29 } else { 28 },
        4 | 6 | 9 | 11 => 30,
        _ => 31,
    }
}

// Whether the year is a leap year.
#[tactic(auto, unfolding(crate::specs::Date::leap))]
fn is_leap(year: u32) -> bool
    ensures { result ≡ leap year }
{
    year % 4 == 0 && (year % 100 != 0 || year % 400 == 0)
}

// Whether the time is one of the day's.
#[tactic(auto, unfolding(crate::specs::Date::good_time))]
fn is_good_time(s: &[u8]) -> bool
    requires { length s.now ≡ 19 }
    ensures { result ≡ good_time s.now }
{
    number(&s[11..13]) <= 23 && number(&s[14..16]) <= 59 && number(&s[17..19]) <= 59
}
