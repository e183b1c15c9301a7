// A call by its number, on an image.
ghost use Rattle.std.specs.Prelude.{◌≡◌, ◌≤◌, ◌<◌, length};
ghost use Rattle.error.specs.Answer.{Err};
ghost use Rattle.byte_fields.specs.Part.{part_of};
ghost use Rattle.gpt.specs.Part.{part_of_image, on_part};
ghost use Rattle.lookup.specs.Counted.{after, from};
ghost use Rattle.checkpoints.specs.Numbers.{numbers_at};
ghost use Rattle.calls.specs.Filled.{filled_at, called_by};
ghost use Rattle.xid_list.specs.Listed.{xids_by};
ghost use Rattle.desks.specs.Requests.{asked, which_by, text_by, filled_for, result_for, buffer_for, nodes_of};
ghost use Rattle.desks.specs.Inner.{left_by, rest_for, left_for};

use crate::counts::Called;
use crate::rows::call_in;
use byte_fields::part;
use checkpoints::Choice;
use error::Refusal;
use gpt::part_of_image;
use listing::refuse_zeroed;
use lookup::Counted;
use part_line::part_text;
use results::result_of;
use volume::Which;
use wrong_word::wrong_words;
use xid_list::list_xids;

// The latest checkpoint, or that of a number.
fn which_of(numbered: u64, xid: u64, volume: u64) -> Which
    ensures { result ≡ which_by numbered xid volume }
{
    if numbered == 0 {
        return Which {
            checkpoint: Choice::Latest,
            index: volume,
        };
    }
    Which {
        checkpoint: Choice::Number(xid),
        index: volume,
    }
}

// Where no container's part is found, nothing is gone through.
fn no_part(what: u64, e: Refusal, out: &mut [u8]) -> Counted<usize>
    ensures { called_by result out.new ≡ left_by what (after 0 (Err e)) out.old }
{
    if what == 3 {
        return Counted {
            answer: refuse_zeroed(out, e),
            nodes: 0,
        };
    }
    Counted {
        answer: Err(e),
        nodes: 0,
    }
}

fn call_on_part(
    what: u64,
    image: &[u8],
    which: Which,
    a: u64,
    b: u64,
    c: u64,
    path: &[u8],
    out: &mut [u8],
) -> Counted<usize>
    requires { what < 14 }
    ensures { called_by result out.new ≡ left_by what (from 0 (part_of_image image.now) λ s. text_by what which a b c path.now (length out.old) (part_of image.now s)) out.old }
{
    match part_of_image(image) {
        Ok(s) => call_in(what, part(image, s), which, a, b, c, path, out),
        Err(e) => no_part(what, e, out),
    }
}

fn checkpoints_of(image: &[u8], out: &mut [u8]) -> Result<usize, Refusal>
    ensures { filled_at result out.new ≡ xids_by (on_part numbers_at image.now) out.old }
{
    let s = part_of_image(image)?;
    list_xids(part(image, s), out)
}

// From 14 on: these go through no node.
fn other_call(what: u64, image: &[u8], out: &mut [u8]) -> Result<usize, Refusal>
    ensures { filled_at result out.new ≡ rest_for what image.now out.old }
{
    if what == 14 {
        return checkpoints_of(image, out);
    }
    if what == 15 {
        return part_text(image, out);
    }
    if what == 16 {
        return wrong_words(image, out);
    }
    Err(Refusal::NotFound)
}

fn progress_of(
    what: u64,
    image: &[u8],
    numbered: u64,
    xid: u64,
    volume: u64,
    a: u64,
    b: u64,
    c: u64,
    path: &[u8],
    out: &mut [u8],
) -> Counted<usize>
    ensures { called_by result out.new ≡ left_for (asked what image.now numbered xid volume a b c path.now (length out.old)) out.old }
{
    if what < 14 {
        let which = which_of(numbered, xid, volume);
        return call_on_part(what, image, which, a, b, c, path, out);
    }
    Counted {
        answer: other_call(what, image, out),
        nodes: 0,
    }
}

pub fn call(
    what: u64,
    image: &[u8],
    numbered: u64,
    xid: u64,
    volume: u64,
    a: u64,
    b: u64,
    c: u64,
    path: &[u8],
    out: &mut [u8],
) -> Called
    ensures { (result.result ≡ result_for (asked what image.now numbered xid volume a b c path.now (length out.old)) out.old)
        × (result.nodes ≡ nodes_of (asked what image.now numbered xid volume a b c path.now (length out.old)))
        × (out.new ≡ buffer_for (asked what image.now numbered xid volume a b c path.now (length out.old)) out.old) }
{
    let p = progress_of(what, image, numbered, xid, volume, a, b, c, path, out);
    Called {
        result: result_of(p),
        nodes: p.nodes,
    }
}
