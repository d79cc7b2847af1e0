// Replays recorded vectors. A line of a vector file is a question and the answer due to it, each in hexadecimal digits,
// with a space between; a line that begins with '#' is for its reader.
#![tactic(auto)]

ghost use Rattle.std.specs.Prelude.{◌≡◌, [], ◌<◌, ◌≤◌, false, length, slice_index, IfOk, IfSome, OnErr, IsOk};
ghost use Rattle.std.specs.Fn.{FnReturnsAtPair};
ghost use Rattle.replay.specs.Replay.{counted, tally_of, Counts, word_at};

use std::io::{self, Read};

mod blocks;

use blocks::Blocks;

// How many vectors there were, and how many of them have another answer than the due one.
#[derive(Clone, Copy)]
pub struct Tally {
    pub vectors: u32,
    pub differences: u32,
}

#[tactic(auto, unfolding(crate::specs::Replay::tally_of))]
fn start() -> Tally
    ensures { result ≡ tally_of [] }
{
    Tally {
        vectors: 0,
        differences: 0,
    }
}

fn digit(b: u8) -> Option<u8>
    ensures { IfSome result (λ d. d < 16) }
{
    match b {
        b'0'..=b'9' => Some(b - b'0'),
        b'a'..=b'f' => Some(b - b'a' + 10),
        _ => None,
    }
}

// The byte that two digits say.
fn byte_of(pair: &[u8; 2]) -> Option<u8> {
    let high = digit(pair[0])?;
    let low = digit(pair[1])?;
    Some(high * 16 + low)
}

// Reads pairs of digits into the room, and gives how many bytes they say.
fn bytes_in(text: &[u8], room: &mut [u8]) -> usize
    ensures { result ≤ length room.old }
{
    let (pairs, _) = text.as_chunks::<2>();
    for (n, (place, pair)) in room.iter_mut().zip(pairs).enumerate() {
        match byte_of(pair) {
            Some(b) => *place = b,
            None => return n,
        }
    }
    room.len().min(pairs.len())
}

// How long a line's question and answer are, each in a room of its own; None where it has none.
fn vector_in(line: &[u8], question: &mut [u8], due: &mut [u8]) -> Option<(usize, usize)>
    ensures { IfSome result (λ v. (v.0 ≤ length question.old) × (v.1 ≤ length due.old)) }
{
    let asked = bytes_in(line, question);
    let rest = line.get(2 * asked..)?;
    let (gap, digits) = rest.split_first()?;
    if *gap != b' ' {
        return None;
    }
    Some((asked, bytes_in(digits, due)))
}

// One vector more; where its answer is another than the due one, its number is written, and that alone can fail.
#[tactic(auto, unfolding(crate::specs::Replay::counted))]
fn judged(rt: &impl Print, t: Tally, same: bool) -> io::Result<Tally>
    ensures ok { IfOk result (λ r. r ≡ counted t same) }
    ensures err { OnErr result (same ≡ false) }
{
    let vectors = t.vectors.wrapping_add(1);
    if same {
        return Ok(Tally { vectors, ..t });
    }
    let number = t.vectors;
    println!(rt; "differs {number}")?;
    let differences = t.differences.wrapping_add(1);
    Ok(Tally {
        vectors,
        differences,
    })
}

// Writes the count of vectors and of differences, and gives back the second. Only the write can fail.
fn report(rt: &impl Print, t: Tally) -> io::Result<u32>
    ensures { IfOk result (λ n. n ≡ t.differences) }
{
    let (vectors, differences) = (t.vectors, t.differences);
    println!(rt; "vectors {vectors} differences {differences}")?;
    Ok(differences)
}

// Replays the vectors of standard input, each line and each part of a vector in a room of its own: `says` tells whether
// an answer is the one due to a question. The differences are written, and how many they are.
pub fn run<F: Fn(&[u8], &[u8]) -> bool>(
    rt: &(impl Input + Print),
    line: &mut [u8],
    question: &mut [u8],
    due: &mut [u8],
    says: F,
) -> io::Result<Tally>
    requires { F.IsAlwaysCallable says }
    ensures { IfOk result (Counts (FnReturnsAtPair F.Fn says)) }
{
    let mut input = Blocks::new(rt.reader());
    let mut tally = start();
    for _ in 0..1000000 {
        let Some(len) = input.next_line(line)? else {
            break;
        };
        if let Some((asked, answered)) = vector_in(&line[..len], question, due) {
            tally = judged(rt, tally, says(&question[..asked], &due[..answered]))?;
        }
    }
    report(rt, tally)?;
    Ok(tally)
}

// The byte at a place, 0 past the end.
fn byte_at(bytes: &[u8], at: usize) -> u8
    ensures { result ≡ slice_index bytes.now at }
{
    bytes.get(at).copied().unwrap_or(0)
}

// The u32 at a place, most significant byte first; bytes past the end are 0.
#[tactic(auto, unfolding(crate::specs::Replay::word_at))]
pub fn word(bytes: &[u8], at: usize) -> u32
    ensures { result ≡ word_at bytes.now at }
{
    if at > 4294967295 {
        return 0;
    }
    u32::from_be_bytes([
        byte_at(bytes, at),
        byte_at(bytes, at + 1),
        byte_at(bytes, at + 2),
        byte_at(bytes, at + 3),
    ])
}

#[cfg(test)]
mod tests {
    use super::*;

    // The replays find no difference, so that this shows one being written.
    #[test]
    fn writes_a_difference(rt: HostRuntime) -> io::Result<()> {
        let t = judged(&rt, start(), false)?;
        assert!(rt; t.vectors == 1);
        assert!(rt; t.differences == 1);
        let differences = report(&rt, t)?;
        assert!(rt; differences == 1);
        Ok(())
    }
}
