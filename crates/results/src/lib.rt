// A call's result: how many bytes were written, or minus the refusal's number.
#![tactic(auto)]

ghost use Rattle.std.specs.Prelude.{◌≡◌};
ghost use Rattle.error.specs.Answer.{number_of};
ghost use Rattle.results.specs.Call.{minus, result_at, Within};

use error::{Refusal, number_of};
use lookup::Counted;

pub fn refused(e: Refusal) -> i64
    ensures { result ≡ minus (number_of e) }
{
    -(number_of(e) as i64)
}

pub fn result(p: Result<usize, Refusal>) -> i64
    requires { Within p }
    ensures { result ≡ result_at p }
{
    match p {
        Ok(n) => n as i64,
        Err(e) => refused(e),
    }
}

// Of a call that counts its nodes; their number is left out.
pub fn result_of(p: Counted<usize>) -> i64
    requires { Within p.answer }
    ensures { result ≡ result_at p.answer }
{
    let at = p.answer;
    result(at)
}
