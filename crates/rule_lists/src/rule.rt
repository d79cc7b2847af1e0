// A rule: what it does, its five counts, its items.
ghost use Rattle.std.specs.Prelude.{◌<◌, ◌^◌, IfOk};
ghost use Rattle.bits.specs.Place.{At, bit_of, Found, FoundFrom};
ghost use Rattle.rule_lists.specs.RuleAt.{head_at, counts_at, Few, rule_at};

use crate::lists::fill;
use crate::{Counts, Head};
use bits::Reading;
use bits::standing::{Place, Refuses};
use refusals::{Cause, Refusal};
use rules::Rule;

fn head(image: &[u8], at: usize) -> Result<Reading<Head>, Refusal>
    requires { at < 2 ^ 30 }
    ensures { Found result (head_at image.now (At at)) at 12 }
{
    let operator = rule_items::codes::operator(image, at)?;
    let kind = rule_items::codes::kind(image, operator.end)?;
    let comment = bits::number(image, kind.end, 8, 0, 255, Cause::PastLimits)?;
    Ok(Reading {
        item: Head {
            operator: operator.item,
            kind: kind.item as u8,
            comment: comment.item as u8,
        },
        end: comment.end,
    })
}

fn counts(image: &[u8], at: usize) -> Result<Reading<Counts>, Refusal>
    requires { at < 2 ^ 30 }
    ensures found { Found result (counts_at image.now (At at)) at 20 }
    ensures few { IfOk result (λ r. Few r.item) }
{
    let years = bits::number(image, at, 4, 0, 8, Cause::PastLimits)?;
    let monthdays = bits::number(image, years.end, 4, 0, 8, Cause::PastLimits)?;
    let weeks = bits::number(image, monthdays.end, 4, 0, 8, Cause::PastLimits)?;
    let weekdays = bits::number(image, weeks.end, 4, 0, 8, Cause::PastLimits)?;
    let spans = bits::number(image, weekdays.end, 4, 0, 8, Cause::PastLimits)?;
    Ok(Reading {
        item: Counts {
            years: years.item as usize,
            monthdays: monthdays.item as usize,
            weeks: weeks.item as usize,
            weekdays: weekdays.item as usize,
            spans: spans.item as usize,
        },
        end: spans.end,
    })
}

fn rule_from(image: &[u8], at: usize, edition: u32) -> Result<Reading<Rule>, Refusal>
    requires { at < 2 ^ 24 }
    ensures { Found result (rule_at image.now edition (At at)) at 1592 }
{
    let head = head(image, at)?;
    let does = head.item;
    let counts = counts(image, head.end)?;
    let n = counts.item;
    let mut years = [rules::no_year(); 8];
    let end = fill(image, counts.end, edition, &mut years[..n.years])?;
    let mut monthdays = [rules::no_monthday(); 8];
    let end = fill(image, end, edition, &mut monthdays[..n.monthdays])?;
    let mut weeks = [rules::no_week(); 8];
    let end = fill(image, end, edition, &mut weeks[..n.weeks])?;
    let mut weekdays = [rules::no_weekday(); 8];
    let end = fill(image, end, edition, &mut weekdays[..n.weekdays])?;
    let mut spans = [rules::no_span(); 8];
    let end = fill(image, end, edition, &mut spans[..n.spans])?;
    let item = Rule {
        operator: does.operator,
        kind: does.kind,
        comment: does.comment,
        year_count: n.years,
        monthday_count: n.monthdays,
        week_count: n.weeks,
        weekday_count: n.weekdays,
        span_count: n.spans,
        years,
        monthdays,
        weeks,
        weekdays,
        spans,
    };
    Ok(Reading { item, end })
}

// A rule at any place; one that was refused before stays.
pub fn rule<P: Place>(image: &[u8], at: P, edition: u32) -> Result<Reading<Rule>, P::Refusal>
    requires { bit_of (P.given at) < 2 ^ 24 }
    ensures { FoundFrom P.Refusal.says P.Refusal.refuses result (P.given at) (rule_at image.now edition) 1592 }
{
    P::Refusal::state(rule_from(image, at.bit()?, edition))
}
