// The public answers about holiday images.
#![tactic(auto)]

ghost use Rattle.std.specs.Prelude.{◌≡◌, ◌+◌, ◌-◌, ◌≤◌, IfOk, IfErr, Err};
ghost use Rattle.bits.specs.Bits.{bits};
ghost use Rattle.calendar.specs.Calendar.{day_number};
ghost use Rattle.holiday_image.specs.Image.{first_year, month_bit};
ghost use Rattle.holiday_image.specs.Parts.{InYears};
ghost use Rattle.holidays.specs.Answers.{check_answer, slot_answer, slots_answer, count_to, count_answer, first_from, first_answer};
ghost use Rattle.holidays.specs.Parts.{Passed};

use calendar::Date;
use holiday_image::SoundImage;
use images::Images;
use refusals::{Cause, Refusal};

const BAD_IMAGE: Refusal = Refusal {
    cause: Cause::BadHolidays,
    place: 0,
};

#[tactic(auto, unfolding(crate::specs::Answers::check_answer))]
fn sound_image(image: &[u8]) -> Result<SoundImage<'_>, Refusal>
    ensures ok { IfOk result (λ sound. sound.bytes.now ≡ image.now) }
    ensures err { IfErr result (λ refusal. check_answer image.now ≡ Err refusal) }
{
    let Some(image) = SoundImage::new(image) else {
        return Err(BAD_IMAGE);
    };
    Ok(image)
}

// An image by itself: any flags will do.
pub fn check(image: &[u8]) -> Result<(), Refusal>
    ensures { result ≡ check_answer image.now }
{
    sound_image(image)?;
    Ok(())
}

// An image in its slot, which fixes the flags.
#[tactic(auto, unfolding(crate::specs::Answers::slot_answer))]
fn check_slot(image: &[u8], slot: u32) -> Result<(), Refusal>
    ensures { result ≡ slot_answer image.now slot }
{
    if !holiday_image::slot_is_sound(image, slot) {
        return Err(Refusal {
            cause: Cause::BadHolidays,
            place: slot as usize,
        });
    }
    Ok(())
}

// Four images in their slots.
pub fn check_slots(images: &Images<'_>) -> Result<(), Refusal>
    ensures { result ≡ slots_answer images.now }
{
    check_slot(images.public, 0)?;
    check_slot(images.public_unknown, 1)?;
    check_slot(images.school, 2)?;
    check_slot(images.school_unknown, 3)
}

fn days_in(image: SoundImage<'_>, year: u32, month: u32) -> u32
    requires { (1 ≤ month) × (month ≤ 12) }
    ensures { result ≡ count_to image.entry.bytes.now year month 31 }
{
    if !image.has_year(year) {
        return 0;
    }
    image.month_days(year, month).count_ones()
}

// How many holidays a month has.
pub fn count_in_month(image: &[u8], year: u32, month: u32) -> Result<u32, Refusal>
    ensures { result ≡ count_answer image.now year month }
{
    let image = sound_image(image)?;
    if !dates::is_month(year, month) {
        return Err(dates::NO_DATE);
    }
    Ok(days_in(image, year, month))
}

// A month's bits with the days already passed masked.
fn days_left(image: SoundImage<'_>, year: u32, month: u32, passed: u32) -> u32
    requires { InYears image.bytes.now year month × (passed ≤ 31) }
    ensures { result ≡ bits image.entry.bytes.now (month_bit (first_year image.entry.bytes.now) year month + passed) (31 - passed) }
{
    let days = image.month_days(year, month);
    days & ((1 << (31 - passed)) - 1)
}

// The first holiday behind the passed days of a month, in that month or a later one.
fn first_from(image: SoundImage<'_>, from: Date) -> Option<Date>
    requires { (first_year image.bytes.now ≤ from.year) × Passed from }
    ensures { result ≡ first_from image.entry.bytes.now (day_number from) }
{
    let mut first = from.month;
    let mut passed = from.day;
    'found: {
        for year in from.year..image.years.first + image.years.count {
            for month in first..=12 {
                let left = days_left(image, year, month, passed);
                if left != 0 {
                    let day = left.leading_zeros();
                    break 'found Some(Date { year, month, day });
                }
                passed = 0;
            }
            first = 1;
        }
        None
    }
}

// The same from a date, which may lie before the first year.
fn first_behind(image: SoundImage<'_>, date: Date) -> Option<Date>
    requires { (1 ≤ date.day) × Passed date }
    ensures { result ≡ first_from image.entry.bytes.now (day_number date) }
{
    if date.year < image.years.first {
        let start = Date {
            year: image.years.first,
            month: 1,
            day: 0,
        };
        return first_from(image, start);
    }
    first_from(image, date)
}

// The first holiday after a date.
pub fn first_after(image: &[u8], date: Date) -> Result<Option<Date>, Refusal>
    ensures { result ≡ first_answer image.now date }
{
    let image = sound_image(image)?;
    let date = dates::existing(date)?;
    Ok(first_behind(image, date))
}
