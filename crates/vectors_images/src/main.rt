// Replays recorded rule images: what checking each must answer.
#![tactic(auto)]

use std::io;

// A refusal number, 0 for none, and the count of rules or the place.
fn two(due: &[u8], number: u32, value: usize) -> bool {
    replay::word(due, 0) == number && replay::word(due, 4) as usize == value
}

fn says(image: &[u8], due: &[u8]) -> bool {
    match rule_image::check_sheet(image) {
        Ok(count) => two(due, 0, count),
        Err(refusal) => two(due, u32::from(refusal.cause.number()), refusal.place),
    }
}

fn main(rt: HostRuntime) -> io::Result<()> {
    let (line, question, due) = (&mut [0; 16384], &mut [0; 8192], &mut [0; 16]);
    replay::run(&rt, line, question, due, says)?;
    Ok(())
}
