// The four holiday images of a shop, which are always asked together.
#![tactic(auto)]

ghost use Rattle.std.specs.Prelude.{◌≡◌};
ghost use Rattle.images.specs.Images.{Holidays, images, certain_of, unknown_of};

use std::marker::Model;

// Contracts see the four as lists of bytes.
#[derive(Drop)]
pub struct Images<'a> {
    pub public: &'a [u8],
    pub public_unknown: &'a [u8],
    pub school: &'a [u8],
    pub school_unknown: &'a [u8],
}

impl<'a> Model for Images<'a> {
    ghost Value = { Holidays };

    ghost view = { λ s. images s.public.now s.public_unknown.now s.school.now s.school_unknown.now };
}

impl<'a> Images<'a> {
    // The image of a kind's certain holidays.
    #[tactic(auto, unfolding(crate::specs::Images::certain_of))]
    pub fn certain(&self, school: bool) -> &'a [u8]
        ensures { result.now ≡ certain_of self.now school }
    {
        if school { self.school } else { self.public }
    }

    // And the one of its days that may be holidays.
    #[tactic(auto, unfolding(crate::specs::Images::unknown_of))]
    pub fn unknown(&self, school: bool) -> &'a [u8]
        ensures { result.now ≡ unknown_of self.now school }
    {
        if school {
            self.school_unknown
        } else {
            self.public_unknown
        }
    }
}
