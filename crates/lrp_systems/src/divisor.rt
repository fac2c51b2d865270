// A common divisor of two periods.
ghost use Rattle.std.specs.Prelude.{◌<◌, pos};
ghost use Rattle.lrp_theory.specs.Divides.{Divides};

/// The greatest common divisor of two periods, by Euclid's algorithm.
pub fn common_divisor(a: u64, b: u64) -> u64
    requires { 0 < a }
    ensures low { 0 < result }
    ensures left { Divides (pos result) (pos a) }
    ensures right { Divides (pos result) (pos b) }
{
    if b == 0 {
        return a;
    }
    common_divisor(b, a % b)
}
