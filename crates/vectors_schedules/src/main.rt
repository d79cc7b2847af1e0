// Replays recorded builds, additions, drops and listings of schedules.
#![tactic(auto)]

ghost use Rattle.std.specs.Prelude.{◌≤◌, length};

use refusals::Refusal;
use schedule::Schedule;
use std::io;

// What stood in a lent cell before: no listing has such a word.
const BEFORE: u32 = 4294967295;

// A refusal number, 0 for none, and a count or the place.
fn two(due: &[u8], number: u32, value: usize) -> bool {
    replay::word(due, 0) == number && replay::word(due, 4) as usize == value
}

// The words of a question, behind what is asked and its number.
fn fill_words(question: &[u8], words: &mut [u32; 256]) {
    for (i, word) in words.iter_mut().enumerate() {
        *word = replay::word(question, 8 + 4 * i);
    }
}

// Some words as a schedule; more than 64 don't fit, and make it a bad one.
fn schedule_of(words: &[u32], count: usize) -> Schedule
    requires { 64 ≤ length words.now }
{
    let mut kept = [0; 64];
    kept.copy_from_slice(&words[..64]);
    Schedule {
        len: count,
        words: kept,
    }
}

// The cells hold the due words first, and behind them what stood there before.
fn cells_say(cells: &[u32], count: usize, due: &[u8]) -> bool
    requires { length cells.now ≤ 1000 }
{
    cells.iter().enumerate().all(|(i, cell)| {
        let expected = if i < count {
            replay::word(due, 8 + 4 * i)
        } else {
            BEFORE
        };
        *cell == expected
    })
}

fn says_refusal(refusal: Refusal, due: &[u8]) -> bool {
    two(due, u32::from(refusal.cause.number()), refusal.place)
}

fn says_answer(answer: Result<Schedule, Refusal>, due: &[u8]) -> bool {
    match answer {
        Ok(s) => s.len <= 64 && two(due, 0, s.len) && cells_say(&s.words[..s.len], s.len, due),
        Err(refusal) => says_refusal(refusal, due),
    }
}

// A listing into the first `room` of 130 cells; a refusal leaves each as it was.
fn says_listing(s: Schedule, room: usize, due: &[u8]) -> bool {
    let mut cells = [BEFORE; 130];
    let Some(lent) = cells.get_mut(..room) else {
        return false;
    };
    match listing::write_listing(s, lent) {
        Ok(count) => two(due, 0, count) && cells_say(&cells, count, due),
        Err(refusal) => says_refusal(refusal, due) && cells_say(&cells, 0, due),
    }
}

fn says_addition(words: &[u32; 256], first: usize, count: usize, due: &[u8]) -> bool {
    if first > 128 || count < first {
        return false;
    }
    let a = schedule_of(words, first);
    let b = schedule_of(&words[first..], count - first);
    says_answer(schedule::addition(a, b), due)
}

fn says(question: &[u8], due: &[u8]) -> bool {
    let mut words = [0; 256];
    fill_words(question, &mut words);
    let asked = replay::word(question, 0);
    let number = replay::word(question, 4);
    let size = question.len() / 4;
    if !(2..=258).contains(&size) {
        return false;
    }
    let count = size - 2;
    match asked {
        0 => {
            let [_, _, kind, comment] = number.to_be_bytes();
            says_answer(schedule::build(&words[..count], kind, comment), due)
        }
        1 => says_addition(&words, number as usize, count, due),
        2 => says_answer(schedule::drop_closed(schedule_of(&words, count)), due),
        _ => says_listing(schedule_of(&words, count), number as usize, due),
    }
}

fn main(rt: HostRuntime) -> io::Result<()> {
    let (line, question, due) = (&mut [0; 4096], &mut [0; 2048], &mut [0; 1024]);
    replay::run(&rt, line, question, due, says)?;
    Ok(())
}
