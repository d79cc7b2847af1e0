// Holiday images: whether one is sound, whether it has a day, and the bits of a month.
#![tactic(auto)]

ghost use Rattle.std.specs.Prelude.{◌≡◌, true, false, ◌&&◌, ◌↔◌, IsNone, IfSome, ◌+◌, ◌*◌, ◌≤◌, ◌<◌, eqb, leb, ltb, length};
ghost use Rattle.bits.specs.Bits.{bits};
ghost use Rattle.holiday_image.specs.Image.{first_year, year_count, month_bit, end_bit, has_year, names, years_fit, exact_length, zero_fill, behind_month, real_year, real_days, sound, slot_of, sound_in};
ghost use Rattle.holiday_image.specs.Parts.{YearsOf, Formed, InYears};

use calendar::Date;

// The first year and how many there are: the head's first 22 bits.
#[derive(Clone, Copy)]
pub struct Years {
    pub first: u32,
    pub count: u32,
}

impl Years {
    pub fn of(image: &[u8]) -> Years
        requires { 0 < length image.now → 3 ≤ length image.now }
        ensures { YearsOf image.now result }
    {
        if image.is_empty() {
            return Years { first: 0, count: 0 };
        }
        let head = bits::bits_at(image, 0, 22);
        Years {
            first: head / 256,
            count: head % 256,
        }
    }

    // First year 1900 to 9999, years 0 to 200, the last at most 9999.
    #[tactic(auto, unfolding(crate::specs::Image::years_fit))]
    fn fit(self) -> bool
        ensures { result ≡ years_fit self.first self.count }
    {
        (1900..=9999).contains(&self.first)
            && self.count <= 200
            && self.first + self.count - 1 <= 9999
    }

    pub fn has(self, year: u32) -> bool
        requires { self.first + self.count ≤ 10000 }
        ensures { result ≡ (leb self.first year && ltb year (self.first + self.count)) }
    {
        (self.first..self.first + self.count).contains(&year)
    }

    // Where the bits of a month begin.
    fn month_bit(self, year: u32, month: u32) -> usize
        requires { (self.first ≤ year) × (year ≤ 10000) × (1 ≤ month) × (month ≤ 12) }
        ensures { result ≡ month_bit self.first year month }
    {
        (24 + 372 * (year - self.first) + 31 * (month - 1)) as usize
    }

    // Where those of the last year end.
    fn end_bit(self) -> usize
        ensures { result ≡ end_bit self.count }
    {
        24 + 372 * self.count as usize
    }
}

// The years fit, and the image has just the bytes that they need.
fn has_form(image: &[u8]) -> bool
    requires { 3 ≤ length image.now }
    ensures { result ≡ (years_fit (first_year image.now) (year_count image.now) && exact_length image.now) }
{
    let years = Years::of(image);
    years.fit() && image.len() == years.end_bit().div_ceil(8)
}

fn fill_is_zero(image: &[u8]) -> bool
    requires { Formed image.now }
    ensures { result ≡ zero_fill image.now }
{
    let end = Years::of(image).end_bit();
    let fill = 8 * image.len() - end;
    fill == 0 || bits::bits_at(image, end, fill) == 0
}

// No bit is set behind the last day of a month whose bits begin at `at`.
fn month_is_real(image: &[u8], at: usize, leap: bool, month: u32) -> bool
    requires { (1 ≤ month) × (month ≤ 12) × (at + 31 ≤ 8 * length image.now) × (at < 100000) }
    ensures { result ≡ eqb (behind_month image.now at leap month) 0 }
{
    let length = calendar::month_length(leap, month) as usize;
    length >= 31 || bits::bits_at(image, at + length, 31 - length) == 0
}

fn year_is_real(image: &[u8], years: Years, year: u32) -> bool
    requires { (years.first ≡ first_year image.now) × InYears image.now year 1 × Formed image.now }
    ensures { result ≡ real_year image.now year }
{
    let leap = calendar::is_leap(year);
    for month in 1..=12 {
        let at = years.month_bit(year, month);
        if !month_is_real(image, at, leap, month) {
            return false;
        }
    }
    true
}

fn days_are_real(image: &[u8]) -> bool
    requires { Formed image.now }
    ensures { result ≡ real_days image.now }
{
    let years = Years::of(image);
    for year in years.first..years.first + years.count {
        if !year_is_real(image, years, year) {
            return false;
        }
    }
    true
}

pub fn is_sound(image: &[u8]) -> bool
    ensures { result ≡ sound image.now }
{
    if image.len() < 3 {
        return image.is_empty();
    }
    if !has_form(image) {
        return false;
    }
    fill_is_zero(image) && days_are_real(image)
}

// The slot that the flags ask for: 0 public, 1 public unknown, 2 school, 3 school unknown.
fn slot_of(image: &[u8]) -> u32
    requires { 3 ≤ length image.now }
    ensures { result ≡ slot_of image.now }
{
    bits::bits_at(image, 22, 2)
}

pub fn slot_is_sound(image: &[u8], slot: u32) -> bool
    ensures { result ≡ sound_in image.now slot }
{
    image.is_empty() || is_sound(image) && slot_of(image) == slot
}

// The day is a holiday of the image; false outside its years.
pub fn contains(image: &[u8], date: Date) -> bool
    requires { (sound image.now ≡ true) × (1 ≤ date.month) × (date.month ≤ 12) × (1 ≤ date.day) × (date.day ≤ 31) }
    ensures { result ≡ names image.now date }
{
    let years = Years::of(image);
    if !years.has(date.year) {
        return false;
    }
    let at = years.month_bit(date.year, date.month) + (date.day - 1) as usize;
    bits::bits_at(image, at, 1) == 1
}

// A sound image, with the years of its head.
#[derive(Clone, Copy)]
pub struct SoundImage<'a> {
    pub bytes: &'a [u8],
    pub years: Years,
    pub ghost sound: { sound bytes.now ≡ true },
    pub ghost first: { years.first ≡ first_year bytes.now },
    pub ghost count: { years.count ≡ year_count bytes.now },
}

impl<'a> SoundImage<'a> {
    pub fn new(bytes: &'a [u8]) -> Option<SoundImage<'a>>
        ensures none { IsNone result ↔ (sound bytes.now ≡ false) }
        ensures some { IfSome result (λ image. image.bytes.now ≡ bytes.now) }
    {
        if !is_sound(bytes) {
            return None;
        }
        let years = Years::of(bytes);
        Some(SoundImage { bytes, years })
    }

    pub fn has_year(self, year: u32) -> bool
        ensures { result ≡ has_year self.entry.bytes.now year }
    {
        self.years.has(year)
    }

    // The 31 bits of a month of one of the image's years, day 1 first.
    pub fn month_days(self, year: u32, month: u32) -> u32
        requires { InYears self.bytes.now year month }
        ensures { result ≡ bits self.entry.bytes.now (month_bit (first_year self.entry.bytes.now) year month) 31 }
    {
        bits::bits_at(self.bytes, self.years.month_bit(year, month), 31)
    }
}
