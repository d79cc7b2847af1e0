// The program's input, taken apart.
#![tactic(auto)]

ghost use Rattle.std.specs.Prelude.{◌≡◌, ◌+◌, ◌<◌, ◌≤◌, length, get_or, IfSome};
ghost use Rattle.framing.specs.Reading.{whole, places_of, frame_of, bytes_of, parts_of, Half, Behind, Within};

use images::Images;
use std::marker::Model;

// What an input asks for: a shop's rules, the events and the holidays, and a date.
#[derive(Drop)]
pub struct Question<'a> {
    pub rules: &'a [u8],
    pub dawn: u16,
    pub sunrise: u16,
    pub sunset: u16,
    pub dusk: u16,
    pub images: Images<'a>,
    pub year: u16,
    pub month: u16,
    pub day: u16,
}

impl<'a> Model for Question<'a> {
    ghost use Rattle.framing.specs.Framing.{Parts};

    ghost Value = { Parts };

    ghost view = { λ q.
        record {
          rules = q.rules.now;
          dawn = q.dawn;
          sunrise = q.sunrise;
          sunset = q.sunset;
          dusk = q.dusk;
          public = q.images.public;
          public_unknown = q.images.public_unknown;
          school = q.images.school;
          school_unknown = q.images.school_unknown;
          year = q.year;
          month = q.month;
          day = q.day;
        } };
}

// Where the parts of a framed input start: the rules at 0, each image and the rules at their length.
#[derive(Clone, Copy)]
pub struct Frame {
    pub events: usize,
    pub public: usize,
    pub public_unknown: usize,
    pub school: usize,
    pub school_unknown: usize,
    pub date: usize,
}

// The byte at a place, 0 past the end.
fn byte_at(input: &[u8], at: usize) -> u8
    ensures { result ≡ get_or input.now at 0 }
{
    input.get(at).copied().unwrap_or(0)
}

// The u16 at a place, most significant byte first.
pub fn half_at(input: &[u8], at: usize) -> u16
    requires { at < 1000000 }
    ensures { Half input.now at result }
{
    u16::from_be_bytes([byte_at(input, at), byte_at(input, at + 1)])
}

// The place behind bytes that have their length in front.
#[tactic(auto, unfolding(crate::specs::Reading::behind))]
fn behind_sized(input: &[u8], at: usize) -> usize
    requires { at < 1000000 }
    ensures { Behind input.now at result }
{
    at + 2 + usize::from(half_at(input, at))
}

// At most 65,536 bytes, and the parts end where the input does.
fn is_whole(len: usize, end: usize) -> bool
    ensures { result ≡ whole len end }
{
    len <= 65536 && end == len
}

// Where the parts would start, framed or not: five lengths of at most 65,535 and the events keep the last below 400,000.
pub fn places_of(input: &[u8]) -> Frame
    ensures is { result ≡ places_of input.now }
    ensures near { result.date < 400000 }
{
    let events = behind_sized(input, 0);
    let public = events + 8;
    let public_unknown = behind_sized(input, public);
    let school = behind_sized(input, public_unknown);
    let school_unknown = behind_sized(input, school);
    let date = behind_sized(input, school_unknown);
    Frame {
        events,
        public,
        public_unknown,
        school,
        school_unknown,
        date,
    }
}

// The places of a framed input.
pub fn frame_of(input: &[u8]) -> Option<Frame>
    ensures is { result ≡ frame_of input.now }
    ensures within { IfSome result (λ f. Within f (length input.now)) }
{
    let f = places_of(input);
    if !is_whole(input.len(), f.date + 6) {
        return None;
    }
    Some(f)
}

// The bytes behind their length, up to the next part.
fn sized(input: &[u8], at: usize, next: usize) -> &[u8]
    requires { (at + 2 ≤ next) × (next ≤ length input.now) }
    ensures { result.now ≡ bytes_of input.now at next }
{
    &input[at + 2..next]
}

// What a framed input asks for.
pub fn question_of(input: &[u8]) -> Option<Question<'_>>
    ensures { result ≡ parts_of input.now }
{
    let f = frame_of(input)?;
    let images = Images {
        public: sized(input, f.public, f.public_unknown),
        public_unknown: sized(input, f.public_unknown, f.school),
        school: sized(input, f.school, f.school_unknown),
        school_unknown: sized(input, f.school_unknown, f.date),
    };
    Some(Question {
        rules: sized(input, 0, f.events),
        dawn: half_at(input, f.events),
        sunrise: half_at(input, f.events + 2),
        sunset: half_at(input, f.events + 4),
        dusk: half_at(input, f.events + 6),
        images,
        year: half_at(input, f.date),
        month: half_at(input, f.date + 2),
        day: half_at(input, f.date + 4),
    })
}
