ghost use Rattle.std.specs.Prelude.{◌≡◌};
ghost use Rattle.strength.specs.Bolts.{root_within};

// Is the root of the square, times its weight, no larger than the limit?
pub(crate) fn root_within(weight: u32, square: u64, limit: u64) -> bool
    ensures { result ≡ root_within weight square limit }
{
    let weight_square = u64::from(weight) * u64::from(weight);
    u128::from(weight_square) * u128::from(square) <= u128::from(limit) * u128::from(limit)
}
