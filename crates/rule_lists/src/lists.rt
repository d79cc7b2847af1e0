// Counted items: as many as the room has.
ghost use Rattle.std.specs.Prelude.{◌+◌, ◌*◌, ◌<◌, ◌≤◌, ◌^◌, length};
ghost use Rattle.bits.specs.Place.{At, Found};
ghost use Rattle.rule_lists.specs.Listed.{listed, Filled};

use crate::item::Item;
use bits::Reading;
use refusals::Refusal;

// The next item, at once where it can be taken so.
fn next<T: Item>(image: &[u8], at: usize, edition: u32) -> Result<Reading<T>, Refusal>
    requires { at < 2 ^ 26 }
    ensures { Found result (T.item_at image.now edition (At at)) at T.most }
{
    match T::ahead(image, at, edition) {
        Some(reading) => Ok(reading),
        None => T::read(image, at, edition),
    }
}

// Reads an item into each place of a room, and says where they end.
pub fn fill<T: Item>(
    image: &[u8],
    at: usize,
    edition: u32,
    room: &mut [T],
) -> Result<usize, Refusal>
    requires { (at < 2 ^ 25) × (length room.old ≤ 8) }
    ensures { Filled result room.new (listed (T.item_at image.now edition) room.old (At at) (length room.old)) (at + T.most * length room.old) }
{
    let mut end = at;
    for item in room {
        let reading = next::<T>(image, end, edition)?;
        *item = reading.item;
        end = reading.end;
    }
    Ok(end)
}
