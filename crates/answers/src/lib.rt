// What the program writes for its input.
#![tactic(auto)]

ghost use Rattle.std.specs.Prelude.{◌≡◌, ◌≤◌, length, IfOk};
ghost use Rattle.ranges.specs.Words.{ranges};
ghost use Rattle.rendering.specs.Text.{lines_of, refusal_line, bad_input};
ghost use Rattle.answers.specs.Answers.{events_of, asked_date, answer_text, text_of, Listed, Responds};

use calendar::Date;
use framing::Question;
use refusals::Refusal;
use rendering::Writer;
use time_filter::Events;

pub fn events_of(asked: &Question<'_>) -> Events
    ensures { result ≡ events_of asked.now }
{
    Events {
        dawn: asked.dawn,
        sunrise: asked.sunrise,
        sunset: asked.sunset,
        dusk: asked.dusk,
    }
}

pub fn date_of(asked: &Question<'_>) -> Date
    ensures { result ≡ asked_date asked.now }
{
    Date {
        year: u32::from(asked.year),
        month: u32::from(asked.month),
        day: u32::from(asked.day),
    }
}

// The listing that is asked for.
fn listed(asked: &Question<'_>, room: &mut [u32]) -> Result<usize, Refusal>
    ensures { Listed asked.now room.old room.new result }
{
    day_listing::list_day(
        asked.rules,
        events_of(asked),
        &asked.images,
        date_of(asked),
        room,
    )
}

fn say_lines(out: &mut [u8], words: &[u32]) -> usize
    requires { (4096 ≤ length out.old) × (length words.now ≤ 129) }
    ensures { Responds out.old (lines_of (ranges words.now)) out.new result }
{
    let mut text = Writer::new(out);
    text.put_lines(words);
    text.at
}

fn say_refusal(out: &mut [u8], number: u8, place: usize) -> usize
    requires { 4096 ≤ length out.old }
    ensures { Responds out.old (refusal_line number place) out.new result }
{
    let mut text = Writer::new(out);
    text.put_refusal(number, place);
    text.at
}

fn say_bad_input(out: &mut [u8]) -> usize
    requires { 4096 ≤ length out.old }
    ensures { Responds out.old bad_input out.new result }
{
    let mut text = Writer::new(out);
    text.put_bad_input();
    text.at
}

// The lines of the entries, or the refusal's.
fn say(out: &mut [u8], answer: Result<usize, Refusal>, words: &[u32]) -> usize
    requires { (4096 ≤ length out.old) × (length words.now ≤ 129) × IfOk answer (λ count. count ≤ length words.now) }
    ensures { Responds out.old (answer_text answer words.now) out.new result }
{
    match answer {
        Ok(count) => say_lines(out, &words[..count]),
        Err(refusal) => say_refusal(out, refusal.cause.number(), refusal.place),
    }
}

// Writes the text for an input to the front of `out` and answers its length.
pub fn respond(input: &[u8], out: &mut [u8; 4096]) -> usize
    ensures { Responds out.old (text_of input.now) out.new result }
{
    let Some(asked) = framing::question_of(input) else {
        return say_bad_input(out);
    };
    let mut room = [0; 129];
    let answer = listed(&asked, &mut room);
    say(out, answer, &room)
}
