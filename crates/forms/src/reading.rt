// What is met in reading, after what was written: a refusal, and the nodes gone through.
ghost use Rattle.std.specs.Prelude.{◌≡◌, List, ℕ};
ghost use Rattle.text.specs.Output.{output_of};
ghost use Rattle.demand.specs.Trace.{stop};
ghost use Rattle.forms.specs.Inner.{ending, stand_of, reads};

use calls::plus;
use error::Refusal;
use lookup::Counted;

// A position that is refused already stays so.
pub fn refuse(p: Result<usize, Refusal>, e: Refusal) -> Result<usize, Refusal>
    ensures { (b : List ℕ) → output_of result b ≡ ending (stop e) (output_of p b) }
{
    let _ = p?;
    Err(e)
}

// After a reading. Where something was refused before, it counts nothing.
pub fn read(p: Counted<usize>, s: Counted<()>) -> Counted<usize>
    ensures { (b : List ℕ) → stand_of result b ≡ reads (s) (stand_of p b) }
{
    let at = p.answer;
    let ruling = s.answer;
    let nodes = plus(p.nodes, s.nodes);
    match at {
        Err(_) => p,
        Ok(_) => match ruling {
            Ok(()) => Counted {
                answer: at,
                nodes: nodes,
            },
            Err(e) => Counted {
                answer: Err(e),
                nodes: nodes,
            },
        },
    }
}
