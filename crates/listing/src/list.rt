// The whole listing of a volume, into a buffer that the caller lends.
ghost use Rattle.std.specs.Prelude.{◌≡◌, length};
ghost use Rattle.error.specs.Answer.{Err};
ghost use Rattle.text.specs.Output.{output_of, at, puts};
ghost use Rattle.calls.specs.Filled.{filled_at, called_by};
ghost use Rattle.demand.specs.Listing.{foot_lines, trace};
ghost use Rattle.demand.specs.Demand.{view_of};
ghost use Rattle.forms.specs.Course.{nodes_into};
ghost use Rattle.forms.specs.Inner.{run};
ghost use Rattle.listing.specs.Listed.{listed_of, listed_by, listed_on, list_counted};
ghost use Rattle.listing.specs.Inner.{body_of, Inside, foot_after};

use demand::levels;
use error::Refusal;
use label::label_of;
use lines::{put_total_line, put_volume_line};
use lists::ROOT;
use lookup::Counted;
use node_forms::put_node;
use text::{clear, put_all};
use totals::{Totals, totals_in};
use volume::{Volume, Which, name_rule, open_at};

// The totals, and the last bracket.
pub fn put_foot(
    out: &mut [u8],
    room: usize,
    p: Result<usize, Refusal>,
    t: Totals,
) -> Result<usize, Refusal>
    ensures { output_of result out.new ≡ puts room (foot_lines t) (output_of p out.old) }
{
    let q = put_total_line(out, room, p, t.nodes, t.bytes, t.attrs);
    put_all(out, room, q, b")\n")
}

// The foot of the text up to the position.
fn put_own_foot(out: &mut [u8], room: usize, p: Result<usize, Refusal>) -> Result<usize, Refusal>
    requires { Inside p out.old }
    ensures { output_of result out.new ≡ foot_after room (output_of p out.old) }
{
    match p {
        Err(e) => Err(e),
        Ok(n) => {
            let t = totals_in(&out[..n]);
            put_foot(out, room, p, t)
        }
    }
}

// All above the foot, with its nodes after those of opening.
pub fn put_body(out: &mut [u8], room: usize, image: &[u8], v: Volume, nodes: u64) -> Counted<usize>
    ensures { (output_of result.answer out.new ≡ run room (body_of image.now v) (at out.old 0)) × (result.nodes ≡ nodes_into room image.now v nodes) }
{
    let rule = name_rule(v);
    let label = label_of(image, v);
    let a = Counted {
        answer: put_volume_line(
            out,
            room,
            Ok(0),
            rule.case_insensitive,
            rule.normalization_insensitive,
            label,
        ),
        nodes: nodes,
    };
    let line = a.answer;
    if let Err(_) = line {
        return a;
    }
    put_node(out, room, a, image, v, ROOT, levels())
}

fn put_listing(out: &mut [u8], image: &[u8], v: Volume, nodes: u64) -> Counted<usize>
    ensures { (output_of result.answer out.new ≡ run (length out.old) (trace (view_of image.now v)) (at out.old 0)) × (result.nodes ≡ nodes_into (length out.old) image.now v nodes) }
{
    let room = out.len();
    let p = put_body(out, room, image, v, nodes);
    let at = p.answer;
    Counted {
        answer: put_own_foot(out, room, at),
        nodes: p.nodes,
    }
}

// A refused listing leaves its buffer all zeros.
pub fn refuse_zeroed(out: &mut [u8], w: Refusal) -> Result<usize, Refusal>
    ensures { filled_at result out.new ≡ listed_of (Err w) out.old }
{
    clear(out);
    Err(w)
}

fn list_volume(image: &[u8], v: Volume, nodes: u64, out: &mut [u8]) -> Counted<usize>
    ensures { called_by result out.new ≡ listed_by (listed_on image.now v (length out.old) nodes) out.old }
{
    let p = put_listing(out, image, v, nodes);
    let at = p.answer;
    match at {
        Ok(_) => p,
        Err(w) => Counted {
            answer: refuse_zeroed(out, w),
            nodes: p.nodes,
        },
    }
}

pub fn list_text(image: &[u8], which: Which, out: &mut [u8]) -> Counted<usize>
    ensures { called_by result out.new ≡ listed_by (list_counted image.now which (length out.old)) out.old }
{
    let opened = open_at(image, which);
    let volume = opened.answer;
    match volume {
        Ok(v) => list_volume(image, v, opened.nodes, out),
        Err(w) => Counted {
            answer: refuse_zeroed(out, w),
            nodes: opened.nodes,
        },
    }
}
