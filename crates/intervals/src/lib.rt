// Starts and ends of the years around a day, as day numbers, paired by number; a year may have none.
#![tactic(auto)]

ghost use Rattle.std.specs.Prelude.{◌≡◌, ◌≤◌, leb};
ghost use Rattle.std.specs.List.{find};
ghost use Rattle.intervals.specs.Intervals.{last_day, days, intervals, decides};
ghost use Rattle.intervals.specs.Search.{end_for, unstarted};

const FIRST_DAY: u32 = 693962;

const LAST_DAY: u32 = 3652426;

// The first end that is not below s.
pub fn first_from(s: u32, ends: &[Option<u32>]) -> Option<u32>
    ensures { result ≡ find (λ e. leb s e) (days ends.now) }
{
    ends.iter().copied().flatten().find(|end| s <= *end)
}

#[tactic(auto, unfolding(crate::specs::Search::end_for))]
fn end_for(start: u32, ends: &[Option<u32>]) -> u32
    ensures { result ≡ end_for start (days ends.now) }
{
    first_from(start, ends).unwrap_or(LAST_DAY)
}

// The first start whose end is not before day n.
fn deciding_start(n: u32, starts: &[Option<u32>], ends: &[Option<u32>]) -> Option<u32>
    ensures { result ≡ find (λ s. leb n (end_for s (days ends.now))) (days starts.now) }
{
    starts
        .iter()
        .copied()
        .flatten()
        .find(|start| n <= end_for(*start, ends))
}

// Where there is no start: the days from 1900-01-01 to the first end.
#[tactic(auto, using(crate::proofs::Same::up_to_none))]
fn unstarted(n: u32, ends: &[Option<u32>]) -> bool
    ensures { result ≡ unstarted n (days ends.now) }
{
    match first_from(0, ends) {
        Some(end) => FIRST_DAY <= n && n <= end,
        None => false,
    }
}

// Does day n lie in the interval that decides?
pub fn within(n: u32, starts: &[Option<u32>], ends: &[Option<u32>]) -> bool
    requires { n ≤ last_day }
    ensures { result ≡ decides n (intervals starts.now ends.now) }
{
    match deciding_start(n, starts, ends) {
        Some(start) => start <= n,
        None => first_from(0, starts).is_none() && unstarted(n, ends),
    }
}
