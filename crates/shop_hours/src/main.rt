// Reads the question for a day from standard input and writes the answer's text.
#![tactic(auto)]

use std::io;

fn main(rt: HostRuntime) -> io::Result<()> {
    let mut input = [0; 65537];
    let n = filling::fill(&mut rt.reader(), &mut input)?;
    let mut text = [0; 4096];
    let m = answers::respond(&input[..n], &mut text);
    rt.write_all(&text[..m])
}
