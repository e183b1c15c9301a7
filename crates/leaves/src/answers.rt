// Answers as numbers.
ghost use Rattle.std.specs.Prelude.{◌≡◌};
ghost use Rattle.leaves.specs.Leaves.{refusal_in, one_if};

use error::{Refusal, number_of};

pub fn refusal_in<T: Copy>(n: Result<T, Refusal>) -> u64
    ensures { result ≡ refusal_in n }
{
    match n {
        Ok(_) => 0,
        Err(e) => number_of(e) as u64,
    }
}

pub fn one_if(x: bool) -> u64
    ensures { result ≡ one_if x }
{
    x as u64
}
