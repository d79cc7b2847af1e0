// Easter Sunday, by the anonymous Gregorian formula.
#![tactic(auto)]

ghost use Rattle.std.specs.Prelude.{◌≡◌, ◌≤◌};
ghost use Rattle.calendar.specs.Calendar.{date_of};
ghost use Rattle.easter.specs.Easter.{easter_number};

use calendar::Date;

// The letters are those that the formula is published with.
pub fn easter(year: u32) -> Date
    requires { year ≤ 12000 }
    ensures { result ≡ date_of (easter_number year) }
{
    let a = year % 19;
    let b = year / 100;
    let c = year % 100;
    let d = b / 4;
    let e = b % 4;
    let f = (b + 8) / 25;
    let g = (b - f + 1) / 3;
    let h = (19 * a + b - d - g + 15) % 30;
    let i = c / 4;
    let k = c % 4;
    let l = (32 + 2 * e + 2 * i - h - k) % 7;
    let m = (a + 11 * h + 22 * l) / 451;
    let v = h + l + 114 - 7 * m;
    Date {
        year,
        month: v / 31,
        day: v % 31 + 1,
    }
}
