// An input's bytes, read a block at a time: a read of standard input asks the system, one byte or many.
ghost use Rattle.std.specs.Prelude.{◌<◌, ◌≤◌, length, IfOk, IfSome, OnErr, IsOk};

use std::io::{self, Read};

// The block that was read last, where the next byte stands in it, and whether the input's end was found, behind which nothing is read.
#[derive(Drop)]
pub(super) struct Blocks<R> {
    input: R,
    block: [u8; 65536],
    at: usize,
    have: usize,
    ended: bool,
    ghost within: { have ≤ 65536 },
}

impl<R: Read> Blocks<R> {
    pub(super) fn new(input: R) -> Self {
        Blocks {
            input,
            block: [0; 65536],
            at: 0,
            have: 0,
            ended: false,
        }
    }

    // The next byte, None at the input's end. Only a read can fail, and none is made while the block has a byte.
    fn next_byte(&mut self) -> io::Result<Option<u8>>
        ensures { self.old.at < self.old.have → IsOk result }
    {
        if self.at >= self.have && !self.ended {
            self.at = 0;
            self.have = filling::fill(&mut self.input, &mut self.block)?;
            self.ended = self.have == 0;
        }
        if self.at >= self.have {
            return Ok(None);
        }
        let byte = self.block[self.at];
        self.at += 1;
        Ok(Some(byte))
    }

    // Reads a line without its end, and gives its length; what is longer than the room is cut there. None at the
    // input's end. Where a read fails, the line is lost.
    pub(super) fn next_line(&mut self, line: &mut [u8]) -> io::Result<Option<usize>>
        ensures ok { IfOk result (λ r. IfSome r (λ n. n ≤ length line.old)) }
        ensures err { OnErr result (0 < length line.old) }
    {
        for (n, place) in line.iter_mut().enumerate() {
            match self.next_byte()? {
                None if n == 0 => return Ok(None),
                None | Some(b'\n') => return Ok(Some(n)),
                Some(b) => *place = b,
            }
        }
        Ok(Some(line.len()))
    }
}
