// Replays recorded questions for the next change: the minute and the days asked about, then an input of the program shop_hours.
#![tactic(auto)]

use calendar::Date;
use framing::Question;
use next_change::{Change, Refused};
use std::io;

// Seven numbers are due: a refusal and its place, a date and a minute, and the days examined; 0 for what there is not.
fn is_date(due: &[u8], date: Option<Date>) -> bool {
    let (year, month, day) = date.map_or((0, 0, 0), |date| (date.year, date.month, date.day));
    replay::word(due, 8) == year && replay::word(due, 12) == month && replay::word(due, 16) == day
}

fn is_change(due: &[u8], change: Change) -> bool {
    replay::word(due, 0) == 0
        && replay::word(due, 4) == 0
        && is_date(due, change.at.map(|moment| moment.date))
        && replay::word(due, 20) == change.at.map_or(0, |moment| moment.minute)
        && replay::word(due, 24) == change.examined
}

fn is_refused(due: &[u8], refused: Refused) -> bool {
    replay::word(due, 0) == u32::from(refused.refusal.cause.number())
        && replay::word(due, 4) as usize == refused.refusal.place
        && is_date(due, refused.date)
        && replay::word(due, 20) == 0
        && replay::word(due, 24) == 0
}

fn change_of(asked: &Question<'_>, minute: u32, days: u32) -> Result<Change, Refused> {
    next_change::next_change(
        asked.rules,
        answers::events_of(asked),
        &asked.images,
        answers::date_of(asked),
        minute,
        days,
    )
}

// The minute and the days stand in front of the input.
fn says(question: &[u8], due: &[u8]) -> bool {
    let Some((_, input)) = question.split_first_chunk::<4>() else {
        return false;
    };
    let Some(asked) = framing::question_of(input) else {
        return false;
    };
    let moment = replay::word(question, 0);
    match change_of(&asked, moment / 65536, moment % 65536) {
        Ok(change) => is_change(due, change),
        Err(refused) => is_refused(due, refused),
    }
}

fn main(rt: HostRuntime) -> io::Result<()> {
    let (line, question, due) = (&mut [0; 16384], &mut [0; 8192], &mut [0; 64]);
    replay::run(&rt, line, question, due, says)?;
    Ok(())
}
