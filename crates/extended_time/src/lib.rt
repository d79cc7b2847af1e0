// Times from 00:00 to 48:00. A time or a sum outside is none.
#![tactic(auto)]

ghost use Rattle.std.specs.Prelude.{◌≡◌, ◌/◌, ◌%◌, pos, ◌*ℤ◌};
ghost use Rattle.extended_time.specs.Moments.{moment_of, signed_moment, clock_time, sum_of};

// Minutes from 00:00. The functions below make 0 to 2880 only, and read any number.
#[derive(Clone, Copy, PartialEq, Eq, PartialOrd, Ord)]
pub struct ExtendedTime {
    minutes: u16,
}

// Minutes from 00:00, before they are known to lie from 00:00 to 48:00.
#[tactic(auto, using(crate::proofs::Sums::unread, crate::proofs::Sums::read, std::proofs::lemmas::Int::ints))]
fn checked(minutes: i32) -> Option<ExtendedTime>
    ensures { result ≡ signed_moment minutes }
{
    let minutes = u16::try_from(minutes).ok()?;
    ExtendedTime::from_mins_from_midnight(minutes)
}

impl ExtendedTime {
    pub fn new(hour: u8, minute: u8) -> Option<Self>
        ensures { result ≡ clock_time hour minute }
    {
        if 59 < minute {
            return None;
        }
        Self::from_mins_from_midnight(60 * u16::from(hour) + u16::from(minute))
    }

    #[tactic(auto, unfolding(crate::specs::Moments::moment_of))]
    pub fn from_mins_from_midnight(minute: u16) -> Option<Self>
        ensures { result ≡ moment_of minute }
    {
        (minute <= 2880).then_some(Self { minutes: minute })
    }

    pub fn mins_from_midnight(self) -> u16
        ensures { result ≡ self.minutes }
    {
        self.minutes
    }

    pub fn hour(self) -> u16
        ensures { result ≡ self.minutes / 60 }
    {
        self.minutes / 60
    }

    pub fn minute(self) -> u16
        ensures { result ≡ self.minutes % 60 }
    {
        self.minutes % 60
    }

    pub fn add_minutes(self, minutes: i16) -> Option<Self>
        ensures { result ≡ sum_of self.minutes minutes }
    {
        checked(i32::from(self.minutes) + i32::from(minutes))
    }

    pub fn add_hours(self, hours: i8) -> Option<Self>
        ensures { result ≡ sum_of self.minutes (hours *ℤ pos 60) }
    {
        self.add_minutes(i16::from(hours) * 60)
    }
}
