// The writers of a listing over a buffer of no bytes: they store nothing, and the position is the length.
ghost use Rattle.std.specs.Prelude.{◌≡◌, length};
ghost use Rattle.error.specs.Answer.{Err};
ghost use Rattle.demand.specs.Demand.{view_of};
ghost use Rattle.demand.specs.Measure.{most, of_listing, measured};
ghost use Rattle.forms.specs.Course.{nodes_into};
ghost use Rattle.measure.specs.Line.{measured_told};

use demand::levels;
use error::{Refusal, number_of};
use listing::{put_body, put_foot};
use lists::ROOT;
use lookup::Counted;
use tally::tally_node;
use totals::Totals;
use volume::Volume;

const MOST: usize = 4294967295;

// A length in bytes, and the greatest depth.
#[derive(Clone, Copy)]
pub struct Measured {
    pub length: u64,
    pub depth: u64,
}

// A text that does not fit is too long.
fn refused(e: Refusal) -> Result<Measured, Refusal>
    ensures { measured_told result ≡ of_listing 0 (Err e) }
{
    if number_of(e) == 6 {
        return Err(Refusal::TooLong);
    }
    Err(e)
}

// The walk that counts for the foot goes over what the writers have read: it adds no nodes.
pub fn measure_volume(image: &[u8], v: Volume, none: &mut [u8], nodes: u64) -> Counted<Measured>
    requires { length none.old ≡ 0 }
    ensures { (measured_told result.answer ≡ measured (view_of image.now v)) × (result.nodes ≡ nodes_into most image.now v nodes) }
{
    let p = put_body(none, MOST, image, v, nodes);
    let at = p.answer;
    match at {
        Err(e) => Counted {
            answer: refused(e),
            nodes: p.nodes,
        },
        Ok(_) => {
            let t = tally_node(image, v, ROOT, levels());
            let totals = Totals {
                nodes: t.nodes,
                bytes: t.bytes,
                attrs: t.attrs,
            };
            match put_foot(none, MOST, at, totals) {
                Ok(n) => Counted {
                    answer: Ok(Measured {
                        length: n as u64,
                        depth: t.below,
                    }),
                    nodes: p.nodes,
                },
                Err(e) => Counted {
                    answer: refused(e),
                    nodes: p.nodes,
                },
            }
        }
    }
}
