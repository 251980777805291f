// The date and the time of day, in UTC, of a time in milliseconds since 1970 began.
ghost use Rattle.std.specs.Prelude.{◌≤◌};

use std::fmt;
use terminal::Decimal;

// The milliseconds of a day.
const DAY: u64 = 86400000;

// The days from the first of March of the year 0 to the day on which 1970 began.
const BEFORE: u64 = 719468;

// The days of 400 years, of 100 and of 4, where a year begins in March, so that a leap day is its last.
const ERA: u64 = 146097;

const CENTURY: u64 = 36524;

const FOUR_YEARS: u64 = 1461;

// A year that begins in March, and a day of it, from 0 on.
#[derive(Clone, Copy)]
struct Place {
    year: u64,
    day: u64,
}

// The place of a day of four years, of which the first is given. The fourth year has a day more than the others.
fn place_in_four(year: u64, day: u64) -> Place
    requires { year ≤ 9000000000000 }
{
    let passed = (day / 365).min(3);
    Place {
        year: year + passed,
        day: day - passed * 365,
    }
}

// The place of a day of a century, of which the first year is given.
fn place_in_century(year: u64, day: u64) -> Place
    requires { (year ≤ 4000000000000) × (day ≤ 1000000000000) }
{
    place_in_four(year + day / FOUR_YEARS * 4, day % FOUR_YEARS)
}

// The place of a day of an era, of which the first year is given. The fourth century has a day more than the others.
fn place_in_era(year: u64, day: u64) -> Place
    requires { (year ≤ 3000000000000) × (day ≤ 1000000000000) }
{
    let passed = (day / CENTURY).min(3);
    place_in_century(year + passed * 100, day - passed * CENTURY)
}

// The place of a day that is counted from the first of March of the year 0.
fn place_of(days: u64) -> Place
    requires { days ≤ 1000000000000 }
{
    place_in_era(days / ERA * 400, days % ERA)
}

impl fmt::Display for Place {
    // March is month 0 of such a year; January and February are of the next year.
    fn fmt<W: fmt::Write>(&self, f: &mut fmt::Formatter<W>) -> fmt::Result {
        let day = self.day % 366;
        let months = (day * 5 + 2) / 153;
        let year = self.year % 1000000000000 + months / 10;
        let month = (months + 2) % 12 + 1;
        let day = day - (months * 153 + 2) / 5 + 1;
        write!(
            f,
            "{}-{:02}-{:02}",
            Decimal(year),
            Decimal(month),
            Decimal(day)
        )
    }
}

// A time of day in milliseconds.
#[derive(Clone, Copy)]
struct Clock(u64);

impl fmt::Display for Clock {
    fn fmt<W: fmt::Write>(&self, f: &mut fmt::Formatter<W>) -> fmt::Result {
        let hours = Decimal(self.0 / 3600000);
        let minutes = Decimal(self.0 / 60000 % 60);
        let seconds = Decimal(self.0 / 1000 % 60);
        let ms = Decimal(self.0 % 1000);
        write!(f, "{hours:02}:{minutes:02}:{seconds:02}.{ms:03}")
    }
}

// A time as a date and a time of day.
#[derive(Clone, Copy)]
pub struct Date(pub u64);

impl fmt::Display for Date {
    fn fmt<W: fmt::Write>(&self, f: &mut fmt::Formatter<W>) -> fmt::Result {
        let day = place_of(self.0 / DAY + BEFORE);
        let clock = Clock(self.0 % DAY);
        write!(f, "{day} {clock} UTC")
    }
}
