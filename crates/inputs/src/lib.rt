// What is asked before a day is looked at, in the order of refusals: the rules (1 to 4), the holiday images (5), the event times (6).
#![tactic(auto)]

ghost use Rattle.std.specs.Prelude.{◌≡◌};
ghost use Rattle.inputs.specs.Inputs.{inputs_of};

use images::Images;
use refusals::Refusal;
use rules::Sheet;
use time_filter::Events;

#[tactic(auto, unfolding(crate::specs::Inputs::inputs_of, crate::specs::Inputs::beside_rules))]
pub fn read_inputs(rules: &[u8], row: Events, h: &Images<'_>) -> Result<Sheet, Refusal>
    ensures { result ≡ inputs_of rules.now row h.now }
{
    let sheet = rule_image::read_sheet(rules)?.item;
    holidays::check_slots(h)?;
    time_filter::check_events(row)?;
    Ok(sheet)
}
