//! Numbers drawn from a stream of words.

ghost use Rattle.std.specs.Prelude.{◌≡◌, ◌<◌};
ghost use Rattle.soak_lines.specs.Workload.{draw};

use rand::RngExt;
use rand_core::Rng;

/// Draws a number below `bound`. It takes one word of 32 bits, or two.
pub(crate) fn draw<R: Rng>(words: &mut R, bound: u32) -> u32
    requires { 0 < bound }
    ensures drawn { (result, R.stream words.new) ≡ draw bound (R.stream words.old) }
    ensures below { result < bound }
{
    words.random_range(0..bound)
}
