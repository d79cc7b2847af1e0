// The hours of a day: each rule takes its turn after the others, in one room.
#![tactic(auto)]

ghost use Rattle.std.specs.Prelude.{◌≡◌, length, map, take};
ghost use Rattle.ranges.specs.Words.{ranges};
ghost use Rattle.reading.specs.Ranging.{day_r, turn_r, range_reading};
ghost use Rattle.operators.specs.Rooms.{eval_in, turn_of, Holds, Ready};
ghost use Rattle.rule_day.specs.Parts.{spanned_on};
ghost use Rattle.opening_hours.specs.Hours.{can_show, day_ranged};
ghost use Rattle.opening_hours.specs.Rooms.{Answered, TurnReady, RulesReady, DayReady};
ghost use Rattle.schedule.specs.Rooms.{Leaves};

use days::Day;
use images::Images;
use operators::Held;
use refusals::{Cause, Refusal};
use rules::{Rule, Sheet};
use time_filter::Events;

// 1900-01-01 and 10000-01-01.
const FIRST_DAY: u32 = 693962;

const LAST_DAY: u32 = 3652426;

fn can_show(n: u32) -> bool
    ensures { result ≡ can_show n }
{
    FIRST_DAY <= n && n < LAST_DAY
}

// A rule's turn on a day, after what p holds in the room.
fn rule_turn(
    h: &Images<'_>,
    row: Events,
    today: Day,
    yesterday: Day,
    rule: &Rule,
    p: Held,
    room: &mut [u32],
) -> Held
    requires { TurnReady h.now rule.now today yesterday p room.old }
    ensures { Holds (turn_r (spanned_on h.now row today.number rule.now) (turn_of p room.old)) room.new 112 result }
{
    let mut own = [0; 32];
    let e = rule_day::rule_schedule_at(h, row, today, yesterday, rule, &mut own);
    operators::turn(rule.operator, rule.kind, p, room, e, &own)
}

// The list of an evaluation: closed ranges without comment are dropped.
fn day_list(e: Option<usize>, room: &mut [u32]) -> usize
    requires { Ready e room.old 64 }
    ensures { Leaves (day_r (eval_in e room.old)) room.new 64 result }
{
    match e {
        Some(n) => schedule::drop_in(room, n),
        None => 0,
    }
}

// The rules' turns, one after the other; each result is judged.
fn evaluate(
    h: &Images<'_>,
    row: Events,
    today: Day,
    yesterday: Day,
    rules: &[Rule],
    room: &mut [u32],
) -> Result<usize, Refusal>
    requires { RulesReady h.now rules.now today yesterday room.old }
    ensures { Answered (range_reading (map (spanned_on h.now row today.number) rules.now)) room.new result }
{
    let mut held = Held {
        matched: false,
        evaluation: None,
    };
    for (i, rule) in rules.iter().enumerate() {
        held = rule_turn(h, row, today, yesterday, rule, held, room);
        if held.evaluation.is_some_and(|n| n > 64) {
            return Err(Refusal {
                cause: Cause::TooManyRanges,
                place: i,
            });
        }
    }
    Ok(day_list(held.evaluation, room))
}

// The day's list, in the front of the room; a day before 1900-01-01 or from 10000-01-01 on shows nothing.
pub fn schedule_at(
    h: &Images<'_>,
    row: Events,
    day: Day,
    sheet: &Sheet,
    room: &mut [u32],
) -> Result<usize, Refusal>
    requires { DayReady h.now sheet.now day room.old }
    ensures { Answered (day_ranged h.now row day.number sheet.now) room.new result }
{
    if !can_show(day.number) {
        return Ok(0);
    }
    evaluate(
        h,
        row,
        day,
        days::day_before(day),
        &sheet.rules[..sheet.count],
        room,
    )
}
