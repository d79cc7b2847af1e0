// What one rule shows of a day: today's spans, and what is left of last night.
#![tactic(auto)]

ghost use Rattle.std.specs.Prelude.{◌≡◌};
ghost use Rattle.reading.specs.Ranging.{own_r};
ghost use Rattle.operators.specs.Rooms.{Holds};
ghost use Rattle.rule_day.specs.Parts.{kind_on, spanned_on};
ghost use Rattle.rule_day.specs.Ready.{part_on, DayReady, PartReady, RuleReady};

use days::Day;
use images::Images;
use operators::Held;
use rules::Rule;
use time_filter::Events;

// The kind of a rule that matches day d.
fn kind_on(h: &Images<'_>, rule: &Rule, d: Day) -> u8
    requires { DayReady h.now rule.now d }
    ensures { result ≡ kind_on h.now rule.now d }
{
    if date_filter::rule_unknown(h, rule, d) {
        2
    } else {
        rule.kind
    }
}

// Whether the rule matches day d and what it then shows of the day that begins `shift` minutes after it.
fn part_in(h: &Images<'_>, row: Events, d: Day, shift: u16, rule: &Rule, room: &mut [u32]) -> Held
    requires { PartReady h.now rule.now d room.old }
    ensures { Holds (part_on h.now row d shift rule.now) room.new 8 result }
{
    if !date_filter::rule_matches(h, rule, d) {
        return Held {
            matched: false,
            evaluation: None,
        };
    }
    let kind = kind_on(h, rule, d);
    let cuts = time_filter::cut_spans(row, d, shift, *rule);
    let count = schedule::build_in(&cuts.words[..cuts.count], kind, rule.comment, room);
    Held {
        matched: true,
        evaluation: Some(count),
    }
}

// A rule's match today and its evaluation, none if it matches neither day.
pub fn rule_schedule_at(
    h: &Images<'_>,
    row: Events,
    today: Day,
    yesterday: Day,
    rule: &Rule,
    room: &mut [u32],
) -> Held
    requires { RuleReady h.now rule.now today yesterday room.old }
    ensures { Holds (own_r (spanned_on h.now row today.number rule.now)) room.new 24 result }
{
    let day = part_in(h, row, today, 0, rule, room);
    let mut words = [0; 16];
    let night = part_in(h, row, yesterday, 1440, rule, &mut words);
    let evaluation = operators::lay_over(room, day.evaluation, &words, night.evaluation);
    Held {
        matched: day.matched,
        evaluation,
    }
}
