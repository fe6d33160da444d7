//! Extents, and what each operation makes of them.

ghost use Rattle.std.specs.Prelude.{◌≡◌, ◌+ℤ◌, ◌-ℤ◌, ◌*ℤ◌, neg_ℤ, pos, Some};
ghost use Rattle.bf_sql.specs.migrations.Extents.{extent_between, extent_joined, extent_minus, extent_negated, extent_plus, extent_summed, extent_times, greatest_of, least_of, numbers};
ghost use Rattle.bf_range.specs.Seen.{seen};

/// How far a value can go.
#[derive(Clone, Copy, Debug, PartialEq, Eq)]
pub enum Extent {
    /// The numbers from the first to the second, both included.
    Numbers(i64, i64),
    /// The texts of at most this many bytes.
    Texts(u8),
}

/// The most rows of a source, over which a total may go.
pub(crate) const MOST_ROWS: i64 = bf_base::MOST_ROWS as i64;

/// The numbers between two ends, or `None` where an end is no INT.
fn between(low: i128, high: i128) -> Option<Extent>
    ensures { seen result ≡ extent_between low high }
{
    match (i64::try_from(low), i64::try_from(high)) {
        (Ok(low), Ok(high)) => Some(Extent::Numbers(low, high)),
        _ => None,
    }
}

fn opposite(x: i64) -> i128
    ensures { result ≡ neg_ℤ x }
{
    -i128::from(x)
}

pub(crate) fn negated(x: Option<Extent>) -> Option<Extent>
    ensures { seen result ≡ extent_negated (seen x) }
{
    match x {
        Some(Extent::Numbers(low, high)) => between(opposite(high), opposite(low)),
        _ => None,
    }
}

fn added(x: i64, y: i64) -> i128
    ensures { result ≡ x +ℤ y }
{
    i128::from(x) + i128::from(y)
}

pub(crate) fn sum(x: Option<Extent>, y: Option<Extent>) -> Option<Extent>
    ensures { seen result ≡ extent_plus (seen x) (seen y) }
{
    match (x, y) {
        (Some(Extent::Numbers(a, b)), Some(Extent::Numbers(c, d))) => {
            between(added(a, c), added(b, d))
        }
        _ => None,
    }
}

fn subtracted(x: i64, y: i64) -> i128
    ensures { result ≡ x -ℤ y }
{
    i128::from(x) - i128::from(y)
}

/// The least difference takes the greatest number away, and the greatest one the least.
pub(crate) fn difference(x: Option<Extent>, y: Option<Extent>) -> Option<Extent>
    ensures { seen result ≡ extent_minus (seen x) (seen y) }
{
    match (x, y) {
        (Some(Extent::Numbers(a, b)), Some(Extent::Numbers(c, d))) => {
            between(subtracted(a, d), subtracted(b, c))
        }
        _ => None,
    }
}

fn multiplied(x: i64, y: i64) -> i128
    ensures { result ≡ x *ℤ y }
{
    i128::from(x) * i128::from(y)
}

fn least(a: i128, b: i128, c: i128, d: i128) -> i128
    ensures { result ≡ least_of a b c d }
{
    a.min(b).min(c.min(d))
}

fn greatest(a: i128, b: i128, c: i128, d: i128) -> i128
    ensures { result ≡ greatest_of a b c d }
{
    a.max(b).max(c.max(d))
}

/// The products of numbers between two ends with numbers between two others. One may be least or greatest at each of
/// the four pairs of ends, as numbers may be negative.
fn between_products(a: i64, b: i64, c: i64, d: i64) -> Option<Extent>
    ensures { seen result ≡ extent_times (numbers a b) (numbers c d) }
{
    let (ac, ad) = (multiplied(a, c), multiplied(a, d));
    let (bc, bd) = (multiplied(b, c), multiplied(b, d));
    between(least(ac, ad, bc, bd), greatest(ac, ad, bc, bd))
}

pub(crate) fn product(x: Option<Extent>, y: Option<Extent>) -> Option<Extent>
    ensures { seen result ≡ extent_times (seen x) (seen y) }
{
    match (x, y) {
        (Some(Extent::Numbers(a, b)), Some(Extent::Numbers(c, d))) => between_products(a, b, c, d),
        _ => None,
    }
}

/// A `u8` holds 255 at most, as many bytes as a text may have.
pub(crate) fn concatenation(x: Option<Extent>, y: Option<Extent>) -> Option<Extent>
    ensures { seen result ≡ extent_joined (seen x) (seen y) }
{
    match (x, y) {
        (Some(Extent::Texts(left)), Some(Extent::Texts(right))) => {
            Some(Extent::Texts(left.checked_add(right)?))
        }
        _ => None,
    }
}

/// The sum over the most rows.
pub(crate) fn summed(x: Option<Extent>) -> Option<Extent>
    ensures { seen result ≡ extent_summed (seen x) }
{
    match x {
        Some(Extent::Numbers(low, high)) => between(
            multiplied(MOST_ROWS, low),
            multiplied(MOST_ROWS, high),
        ),
        _ => None,
    }
}
