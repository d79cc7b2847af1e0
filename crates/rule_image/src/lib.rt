// The reading of a rule image, for any bytes: the sheet, or the first refusal in reading order.
#![tactic(auto)]

mod fill;
mod sheet;

ghost use Rattle.std.specs.Prelude.{◌≡◌, ◌+◌, ◌*◌, ◌≤◌, length};
ghost use Rattle.bits.specs.Place.{At, outcome};
ghost use Rattle.rule_lists.specs.Listed.{listed, Filled};
ghost use Rattle.rule_lists.specs.RuleAt.{rule_at};
ghost use Rattle.rule_image.specs.Reading.{reading, verdict_on};

use bits::Reading;
use refusals::Refusal;
use rules::{Rule, Sheet};

// What stands in front of the rules.
#[derive(Clone, Copy)]
pub struct Header {
    pub edition: u32,
    pub count: usize,
}

// Reads a rule into each place of a room, and says where they end.
fn rules_into(image: &[u8], at: usize, edition: u32, room: &mut [Rule]) -> Result<usize, Refusal>
    requires { (at ≤ 16) × (length room.old ≤ 32) }
    ensures { Filled result room.new (listed (rule_at image.now edition) room.old (At at) (length room.old)) (at + 1592 * length room.old) }
{
    let mut end = at;
    for rule in room {
        let reading = rule_lists::rule::rule(image, end, edition)?;
        *rule = reading.item;
        end = reading.end;
    }
    Ok(end)
}

// The rules are read where they stay: a sheet is large, and each copy of it costs as much as a rule.
pub fn read_sheet(image: &[u8]) -> Result<Reading<Sheet>, Refusal>
    ensures { result ≡ outcome (reading image.now) }
{
    let head = sheet::header(image)?;
    let count = head.item.count;
    let mut rules = [rules::no_rule(); 32];
    let behind = rules_into(image, head.end, head.item.edition, &mut rules[..count])?;
    let end = fill::filled(image, behind)?;
    Ok(Reading {
        item: Sheet { count, rules },
        end,
    })
}

pub fn check_sheet(image: &[u8]) -> Result<usize, Refusal>
    ensures { result ≡ verdict_on image.now }
{
    read_sheet(image).map(|sheet| sheet.item.count)
}
