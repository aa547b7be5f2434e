ghost use Rattle.std.specs.Prelude.{◌≡◌};
ghost use Rattle.push.specs.Numbers.{nearest as nearest_of};

// The number of 32 bits that is nearest to a number. Not by `saturating_add`, which tests signs: a step of straight
// arithmetic then took a tenth more machine instructions.
pub(crate) fn nearest(number: i64) -> i32
    ensures { result ≡ nearest_of number }
{
    number.clamp(i64::from(i32::MIN), i64::from(i32::MAX)) as i32
}
