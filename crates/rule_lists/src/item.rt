// The items of counted lists. One that lies whole in the image and keeps its limits is judged and taken out of a word at once; each can be read field by field.
ghost use Rattle.std.specs.Prelude.{◌≡◌, ◌+◌, ◌/◌, ◌<◌, ◌≤◌, ◌^◌, ℕ, List, length, IfSome, Ok, Some};
ghost use Rattle.bits.specs.Bits.{ahead_of};
ghost use Rattle.bits.specs.Place.{Place, At, Read, Found};
ghost use Rattle.rule_items.specs.Dates.{monthday_at};
ghost use Rattle.rule_items.specs.Spans.{span_at};
ghost use Rattle.rule_items.specs.Weekdays.{weekday_item_at};
ghost use Rattle.rule_items.specs.Years.{year_at, week_at};
ghost use Rattle.bits.proofs.ReadLaws.{Stays};
ghost use Rattle.rule_items.proofs.ItemLaws.{year-stays, week-stays, monthday-stays, weekday-item-stays, span-stays};
ghost use Rattle.rule_lists.specs.Listed.{Fronted};
ghost use mathlib.Core.Path.{refl};
ghost use borrow.Author.Tests.{leb-true};

use bits::Reading;
use refusals::Refusal;
use rule_words::Taken;
use rules::{Monthday, MonthdayItem, TimeSpan, WeekItem, WeekdayItem, YearItem};

pub trait Item: Copy {
    // What the rules read at a place of an image of an edition.
    ghost item_at: { List ℕ → ℕ → Place → Read Self };

    // The most bits that one has.
    ghost most: { ℕ };

    fn ahead(image: &[u8], at: usize, edition: u32) -> Option<Reading<Self>>
        requires { at < 2 ^ 26 }
        ensures { IfSome result (λ r. Found (Ok r) (item_at image.now edition (At at)) at most) };

    fn read(image: &[u8], at: usize, edition: u32) -> Result<Reading<Self>, Refusal>
        requires { at < 2 ^ 26 }
        ensures { Found result (item_at image.now edition (At at)) at most };

    ghost few: { most ≤ 78 };

    ghost stays: { (s : List ℕ) (edition : ℕ) → Stays (item_at s edition) };
}

// What a taker finds in the word ahead, where eight bytes are left.
fn front<T, F: Fn(u64) -> Option<Taken<T>>>(image: &[u8], at: usize, take: F) -> Option<Reading<T>>
    requires always { F.IsAlwaysCallable take }
    requires narrow { (at < 2 ^ 27) × ((w : ℕ) (t : _) → F.post take w (Some t) → t.width ≤ 42) }
    ensures { IfSome result (Fronted (F.post take) image.now at) }
{
    let taken = take(word(image, at)?)?;
    Some(Reading {
        item: taken.item,
        end: at + taken.width,
    })
}

// The word ahead, where eight bytes are left.
fn word(image: &[u8], at: usize) -> Option<u64>
    ensures { IfSome result (λ w. (at / 8 + 8 ≤ length image.now) × (w ≡ ahead_of image.now at)) }
{
    if at / 8 + 8 > image.len() {
        return None;
    }
    Some(bits::ahead(image, at))
}

impl Item for YearItem {
    ghost item_at = { λ s edition. year_at s };

    ghost most = { 42 };

    fn ahead(image: &[u8], at: usize, _edition: u32) -> Option<Reading<YearItem>> {
        front(image, at, rule_words::years::year)
    }

    fn read(image: &[u8], at: usize, _edition: u32) -> Result<Reading<YearItem>, Refusal> {
        rule_items::years::year(image, at)
    }

    ghost few = { leb-true 42 78 refl };

    ghost stays = { λ s edition. year-stays s };
}

impl Item for MonthdayItem {
    ghost item_at = { λ s edition. monthday_at s edition };

    ghost most = { 78 };

    // Only a pair of dates is taken so.
    fn ahead(image: &[u8], at: usize, _edition: u32) -> Option<Reading<MonthdayItem>> {
        if word(image, at)? >> 62 != 2 {
            return None;
        }
        let start = rule_words::dates::date_offset(word(image, at + 2)?)?;
        let middle = at + 2 + start.width;
        let end = rule_words::dates::date_offset(word(image, middle)?)?;
        Some(Reading {
            item: MonthdayItem {
                form: Monthday::Dates {
                    start: start.item,
                    end: end.item,
                },
            },
            end: middle + end.width,
        })
    }

    fn read(image: &[u8], at: usize, edition: u32) -> Result<Reading<MonthdayItem>, Refusal> {
        rule_items::dates::monthday(image, at, edition)
    }

    ghost few = { leb-true 78 78 refl };

    ghost stays = { λ s edition. monthday-stays s edition };
}

impl Item for WeekItem {
    ghost item_at = { λ s edition. week_at s };

    ghost most = { 18 };

    fn ahead(image: &[u8], at: usize, _edition: u32) -> Option<Reading<WeekItem>> {
        front(image, at, rule_words::years::week)
    }

    fn read(image: &[u8], at: usize, _edition: u32) -> Result<Reading<WeekItem>, Refusal> {
        rule_items::years::week(image, at)
    }

    ghost few = { leb-true 18 78 refl };

    ghost stays = { λ s edition. week-stays s };
}

impl Item for WeekdayItem {
    ghost item_at = { λ s edition. weekday_item_at s };

    ghost most = { 27 };

    fn ahead(image: &[u8], at: usize, _edition: u32) -> Option<Reading<WeekdayItem>> {
        front(image, at, rule_words::weekdays::weekday)
    }

    fn read(image: &[u8], at: usize, _edition: u32) -> Result<Reading<WeekdayItem>, Refusal> {
        rule_items::weekdays::weekday_item(image, at)
    }

    ghost few = { leb-true 27 78 refl };

    ghost stays = { λ s edition. weekday-item-stays s };
}

impl Item for TimeSpan {
    ghost item_at = { λ s edition. span_at s };

    ghost most = { 30 };

    fn ahead(image: &[u8], at: usize, _edition: u32) -> Option<Reading<TimeSpan>> {
        let start = rule_words::spans::time(word(image, at)?)?;
        let middle = at + start.width;
        let end = rule_words::spans::time(word(image, middle)?)?;
        Some(Reading {
            item: TimeSpan {
                start: start.item,
                end: end.item,
            },
            end: middle + end.width,
        })
    }

    fn read(image: &[u8], at: usize, _edition: u32) -> Result<Reading<TimeSpan>, Refusal> {
        rule_items::spans::span(image, at)
    }

    ghost few = { leb-true 30 78 refl };

    ghost stays = { λ s edition. span-stays s };
}
