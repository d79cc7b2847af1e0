// The program's lines, written into lent bytes, one behind the other.
#![tactic(auto)]

ghost use Rattle.std.specs.Prelude.{◌≡◌, ◌*◌, ◌+◌, ◌<◌, ◌≤◌, length};
ghost use Rattle.ranges.specs.Words.{range_of, ranges};
ghost use Rattle.rendering.specs.Text.{spaced, ended, time_text, kind_text, decimal, line_of, lines_of, refusal_line, bad_input};
ghost use Rattle.rendering.specs.Writing.{HasRoom, Writes, Width};

// Lent bytes, and the place behind what is written in them.
#[derive(Drop)]
pub struct Writer<'a> {
    pub out: &'a mut [u8],
    pub at: usize,
}

// How many decimal digits a number has.
fn width(n: u64) -> usize
    ensures { Width n result }
{
    let mut k = 1;
    let mut rest = n;
    while rest > 9 {
        rest /= 10;
        k += 1;
    }
    k
}

impl<'a> Writer<'a> {
    // Nothing is written yet.
    pub fn new(out: &'a mut [u8]) -> Self
        ensures { (result.out ≡ out.entry) × (result.at ≡ 0) }
    {
        Writer { out, at: 0 }
    }

    fn put(&mut self, bytes: &[u8])
        requires { HasRoom self.old (length bytes.now) }
        ensures { Writes self.old bytes.now self.new }
    {
        let end = self.at + bytes.len();
        self.out[self.at..end].copy_from_slice(bytes);
        self.at = end;
    }

    // A number in decimal, from its last digit to its first.
    fn put_decimal(&mut self, n: u64)
        requires { HasRoom self.old (length (decimal n)) }
        ensures { Writes self.old (decimal n) self.new }
    {
        let end = self.at + width(n);
        let mut rest = n;
        for place in (self.at..end).rev() {
            self.out[place] = b'0' + (rest % 10) as u8;
            rest /= 10;
        }
        self.at = end;
    }

    // A number in decimal, and the line's end.
    fn put_last(&mut self, n: u64)
        requires { HasRoom self.old (length (decimal n) + 1) }
        ensures { Writes self.old (ended (decimal n)) self.new }
    {
        self.put_decimal(n);
        self.put(b"\n");
    }

    // Hours and minutes, two digits each, and a space.
    fn put_time(&mut self, t: u32)
        requires { (t < 2048) × HasRoom self.old 6 }
        ensures { Writes self.old (spaced (time_text t)) self.new }
    {
        let hours = t / 60;
        let minutes = t % 60;
        self.put(&[
            b'0' + (hours / 10) as u8,
            b'0' + (hours % 10) as u8,
            b':',
            b'0' + (minutes / 10) as u8,
            b'0' + (minutes % 10) as u8,
            b' ',
        ]);
    }

    // A kind's name, and a space.
    #[tactic(auto, unfolding(crate::specs::Text::kind_text))]
    fn put_kind(&mut self, kind: u32)
        requires { HasRoom self.old 8 }
        ensures { Writes self.old (spaced (kind_text kind)) self.new }
    {
        match kind {
            0 => self.put(b"open "),
            1 => self.put(b"closed "),
            _ => self.put(b"unknown "),
        }
    }

    // The line of an entry, at most 24 bytes.
    fn put_line(&mut self, word: u32)
        requires { HasRoom self.old 24 }
        ensures { Writes self.old (line_of (range_of word)) self.new }
    {
        self.put_time(word / 2097152);
        self.put_time(word / 1024 % 2048);
        self.put_kind(word / 256 % 4);
        self.put_last(u64::from(word % 256));
    }

    // The lines of entries, each behind the one before.
    pub fn put_lines(&mut self, words: &[u32])
        requires { HasRoom self.old (24 * length words.now) }
        ensures { Writes self.old (lines_of (ranges words.now)) self.new }
    {
        for word in words {
            self.put_line(*word);
        }
    }

    pub fn put_refusal(&mut self, number: u8, place: usize)
        requires { HasRoom self.old 40 }
        ensures { Writes self.old (refusal_line number place) self.new }
    {
        self.put(b"refused ");
        self.put_decimal(u64::from(number));
        self.put(b" place ");
        self.put_last(place as u64);
    }

    pub fn put_bad_input(&mut self)
        requires { HasRoom self.old 10 }
        ensures { Writes self.old bad_input self.new }
    {
        self.put(b"bad input\n");
    }
}
