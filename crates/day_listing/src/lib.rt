// The listing of a day, for any inputs: refused in the order rules (1 to 4), holidays (5), events (6), date (7), addition (8), output (9).
#![tactic(auto)]

ghost use Rattle.opening_hours.specs.Hours.{day_ranged};
ghost use Rattle.day_listing.specs.Listed.{DayLists, Lists, Ready};

use calendar::Date;
use days::Day;
use images::Images;
use refusals::Refusal;
use rules::Sheet;
use time_filter::Events;

fn list_ranges(
    h: &Images<'_>,
    row: Events,
    day: Day,
    sheet: &Sheet,
    out: &mut [u32],
) -> Result<usize, Refusal>
    requires { Ready h.now sheet.now day }
    ensures { DayLists (day_ranged h.now row day.number sheet.now) out.old out.new result }
{
    let mut room = [0; 192];
    let count = opening_hours::schedule_at(h, row, day, sheet, &mut room)?;
    listing::write_in(&room[..count], out)
}

// Writes the day's entries to the front of `out` and nothing behind them; a refusal writes nothing.
#[tactic(auto, unfolding(crate::specs::Listed::answer_on, crate::specs::Listed::cells_on, dates::specs::Answers::day_answer))]
pub fn list_day(
    rules: &[u8],
    row: Events,
    h: &Images<'_>,
    date: Date,
    out: &mut [u32],
) -> Result<usize, Refusal>
    ensures { Lists rules.now row h.now date out.old out.new result }
{
    let sheet = inputs::read_inputs(rules, row, h)?;
    let day = dates::day_at(date)?;
    list_ranges(h, row, day, &sheet, out)
}
