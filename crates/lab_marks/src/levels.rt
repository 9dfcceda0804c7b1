// How far the sum between two parentheses is read.
ghost use Rattle.std.specs.Prelude.{◌≡◌};
ghost use Rattle.lab_marks.specs.Levels.{start, total, with_by, with_factor, with_sign};

use crate::arithmetic::{By, Sign, joined, made};
use crate::wrongs::Wrong;

/// How far the sum between two parentheses is read, or that of the whole text.
#[derive(Clone, Copy)]
pub struct Level {
    /// The sum of the products before this one.
    pub sum: i64,
    /// How this product is taken into the sum.
    pub sign: Sign,
    /// The product of the factors so far.
    pub product: i64,
    /// How the next factor is taken into the product.
    pub by: By,
}

/// Nothing is read yet: a sum of no products, and a product of no factors.
pub fn start() -> Level
    ensures { result ≡ start }
{
    Level {
        sum: 0,
        sign: Sign::Plus,
        product: 1,
        by: By::Times,
    }
}

/// A factor comes next.
pub fn with_factor<'a>(level: Level, factor: i64) -> Result<Level, Wrong<'a>>
    ensures { result ≡ with_factor level factor }
{
    let product = made(level.by, level.product, factor)?;
    Ok(Level {
        sum: level.sum,
        sign: level.sign,
        product,
        by: By::Times,
    })
}

/// A `*`, a `/` or a `%` comes next.
pub fn with_by(level: Level, by: By) -> Level
    ensures { result ≡ with_by level by }
{
    Level {
        sum: level.sum,
        sign: level.sign,
        product: level.product,
        by,
    }
}

/// A `+` or a `-` comes next.
pub fn with_sign<'a>(level: Level, sign: Sign) -> Result<Level, Wrong<'a>>
    ensures { result ≡ with_sign level sign }
{
    let sum = total(level)?;
    Ok(Level {
        sum,
        sign,
        product: 1,
        by: By::Times,
    })
}

/// What the sum is worth, where it ends here.
pub fn total<'a>(level: Level) -> Result<i64, Wrong<'a>>
    ensures { result ≡ total level }
{
    joined(level.sign, level.sum, level.product)
}
