// The one rounding of a mean.
ghost use Rattle.std.specs.Prelude.{◌≡◌, IfSome};
ghost use Rattle.session.specs.Rounding.{rounded_answer, Nearest};

/// The multiple of `unit` that is nearest to `sum / weight`, half a unit upward.
///
/// `None` if the unit or the weight is 0, or if the multiple does not fit in 64 bits.
pub fn rounded(unit: u32, sum: u64, weight: u64) -> Option<u64>
    ensures answer { result ≡ rounded_answer unit sum weight }
    ensures nearest { IfSome result (λ price. Nearest unit sum weight price) }
{
    let whole = u128::from(unit) * u128::from(weight);
    let multiples = (2 * u128::from(sum) + whole).checked_div(2 * whole)?;
    u64::try_from(multiples * u128::from(unit)).ok()
}
