// Lengths on a picture.
ghost use Rattle.std.specs.Prelude.{◌≡◌, ◌+◌, ◌-◌, ◌*◌, ◌/◌, max};
ghost use Rattle.run_pictures.specs.Lengths.{at_most, in_tenths};

use std::ops::{Add, Sub};

/// How many parts a pixel has.
const PIXEL: u64 = 1_000_000_000;

/// How many parts a tenth of a pixel has.
const TENTH: u64 = 100_000_000;

/// How many parts half a tenth of a pixel has.
const HALF: u64 = 50_000_000;

/// A length, or a place on one of the axes.
#[derive(Clone, Copy, PartialEq, Eq, PartialOrd, Ord)]
pub struct Length {
    /// Billionths of a pixel.
    pub parts: u64,
}

impl Length {
    /// So many pixels, or the greatest length.
    pub fn pixels(count: u64) -> Length
        ensures { result.parts ≡ at_most (count * 1000000000) }
    {
        Length {
            parts: count.saturating_mul(PIXEL),
        }
    }

    /// So many tenths of a pixel, or the greatest length.
    pub fn tenths(count: u64) -> Length
        ensures { result.parts ≡ at_most (count * 100000000) }
    {
        Length {
            parts: count.saturating_mul(TENTH),
        }
    }

    /// The tenths of a pixel that it has, rounded to the nearest; where two are as near, to the even one.
    pub fn in_tenths(self) -> u64
        ensures { result ≡ in_tenths self.parts }
    {
        let whole = self.parts / TENTH;
        let left = self.parts % TENTH;
        if left > HALF || left == HALF && whole % 2 == 1 {
            return whole + 1;
        }
        whole
    }

    /// It so many times, or the greatest length.
    pub fn times(self, count: u64) -> Length
        ensures { result.parts ≡ at_most (self.parts * count) }
    {
        Length {
            parts: self.parts.saturating_mul(count),
        }
    }

    /// One of so many equal parts of it, without what is left over; all of it where the number is 0.
    pub fn part(self, count: u64) -> Length
        ensures { result.parts ≡ self.parts / max count 1 }
    {
        Length {
            parts: self.parts / count.max(1),
        }
    }

    /// How often another length goes into it; one without any part counts as one part.
    pub fn count_of(self, other: Length) -> u64
        ensures { result ≡ self.parts / max other.parts 1 }
    {
        self.parts / other.parts.max(1)
    }
}

impl Add for Length {
    type Output = Length;

    ghost add_gives = { λ a b r. r.parts ≡ at_most (a.parts + b.parts) };

    fn add(self, other: Length) -> Length {
        Length {
            parts: self.parts.saturating_add(other.parts),
        }
    }
}

impl Sub for Length {
    type Output = Length;

    ghost sub_gives = { λ a b r. r.parts ≡ a.parts - b.parts };

    fn sub(self, other: Length) -> Length {
        Length {
            parts: self.parts.saturating_sub(other.parts),
        }
    }
}

/// How often a number of units can be halved, until it is below 2 units, and what is then more than one unit; as pixels. It is near to the
/// logarithm. A number below one unit counts as one.
pub fn halvings(number: u64, unit: u64) -> Length {
    let unit = unit.max(1);
    let number = number.max(unit);
    let times = (number / unit).ilog2();
    let size = unit.saturating_mul(1 << times);
    let left = number.saturating_mul(PIXEL) / size.max(1);
    Length::pixels(u64::from(times)) + Length { parts: left } - Length::pixels(1)
}
