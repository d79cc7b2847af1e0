// Replays recorded inputs of the program shop_hours: the text that it must write.
#![tactic(auto)]

use std::io;

fn says(input: &[u8], due: &[u8]) -> bool {
    let mut room = [0; 4096];
    let n = answers::respond(input, &mut room);
    &room[..n] == due
}

fn main(rt: HostRuntime) -> io::Result<()> {
    let (line, question, due) = (&mut [0; 16384], &mut [0; 8192], &mut [0; 4096]);
    replay::run(&rt, line, question, due, says)?;
    Ok(())
}
