// Days of the Gregorian calendar, years 2000 to 2399 (document 02, item 1): which are real, their order, and whether a day lies in a season.
#![tactic(auto)]

ghost use Rattle.std.specs.Prelude.{◌≡◌};
ghost use Rattle.calendar.specs.Calendar.{leap_year, days_in, real_day, before, in_season, no_day, is_none, undated};

// Three numbers, which can be anything.
#[derive(Clone, Copy, PartialEq, Eq, PartialOrd, Ord)]
pub struct Day {
    pub year: u32,
    pub month: u32,
    pub day: u32,
}

// Whether the year has a leap day.
#[tactic(auto, unfolding(crate::specs::Calendar::leap_year))]
fn is_leap(year: u32) -> bool
    ensures { result ≡ leap_year year }
{
    year % 4 == 0 && (year % 100 != 0 || year % 400 == 0)
}

// The days in a month of a year.
#[tactic(auto, unfolding(crate::specs::Calendar::days_in, lists::specs::Distinct::stands))]
fn days_in(year: u32, month: u32) -> u32
    ensures { result ≡ days_in year month }
{
    match month {
        2 => { if is_leap(year) { 29 } else { 28 } }
        4 | 6 | 9 | 11 => 30,
        _ => 31,
    }
}

// Whether the three numbers are a day of the calendar.
#[tactic(auto, unfolding(crate::specs::Calendar::real_day))]
pub fn is_real(d: Day) -> bool
    ensures { result ≡ real_day d }
{
    (2000..=2399).contains(&d.year)
        && (1..=12).contains(&d.month)
        && (1..=days_in(d.year, d.month)).contains(&d.day)
}

// Whether a comes before b.
#[tactic(auto, unfolding(crate::specs::Calendar::before))]
pub fn is_before(a: Day, b: Day) -> bool
    ensures { result ≡ before a b }
{
    a < b
}

// Whether today lies in the season: the opening day does, the closing day does not.
#[tactic(auto, unfolding(crate::specs::Calendar::in_season, crate::specs::Calendar::before))]
pub fn in_season(opening: Day, closing: Day, today: Day) -> bool
    ensures { result ≡ in_season opening closing today }
{
    opening <= today && today < closing
}

// Three zeros, where no day is given.
pub fn none() -> Day
    ensures { result ≡ no_day }
{
    Day {
        year: 0,
        month: 0,
        day: 0,
    }
}

// Whether no day is given: all three numbers are 0.
#[tactic(auto, unfolding(crate::specs::Calendar::is_none))]
pub fn is_none(d: Day) -> bool
    ensures { result ≡ is_none d }
{
    d == none()
}

// Whether no dates are given.
#[tactic(auto, unfolding(crate::specs::Calendar::undated))]
pub fn are_none(opening: Day, closing: Day) -> bool
    ensures { result ≡ undated opening closing }
{
    is_none(opening) && is_none(closing)
}
