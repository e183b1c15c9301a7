// A call on the bytes of a container, by its number.
ghost use Rattle.std.specs.Prelude.{◌≡◌, ◌≤◌, ◌<◌, length};
ghost use Rattle.calls.specs.Filled.{called_by};
ghost use Rattle.desks.specs.Requests.{text_by};
ghost use Rattle.desks.specs.Inner.{left_by};

use attribute_lines::attribute_text;
use container_line::open_line;
use element_lines::{entry_text, extent_text, lookup_text};
use entry_lines::entries_text;
use listing::list_text;
use lookup::Counted;
use marks::{mark_text, marked_text};
use measure::measure_text;
use reads::{link_text, read_text, xattr_bytes};
use replaced_line::replaced_text;
use volume::Which;

// 0 to 6.
fn lower_call(
    what: u64,
    image: &[u8],
    which: Which,
    a: u64,
    b: u64,
    c: u64,
    path: &[u8],
    out: &mut [u8],
) -> Counted<usize>
    requires { what < 7 }
    ensures { called_by result out.new ≡ left_by what (text_by what which a b c path.now (length out.old) image.now) out.old }
{
    if what == 0 {
        let checkpoint = which.checkpoint;
        return open_line(image, checkpoint, out);
    }
    if what == 1 {
        return lookup_text(image, which, path, out);
    }
    if what == 2 {
        return read_text(image, which, a, b, out);
    }
    if what == 3 {
        return list_text(image, which, out);
    }
    if what == 4 {
        return entry_text(image, which, a, b, out);
    }
    if what == 5 {
        return attribute_text(image, which, a, b, out);
    }
    link_text(image, which, a, out)
}

// 7 to 13. A record's kind is a byte.
fn upper_call(
    what: u64,
    image: &[u8],
    which: Which,
    a: u64,
    b: u64,
    c: u64,
    path: &[u8],
    out: &mut [u8],
) -> Counted<usize>
    requires { (7 ≤ what) × (what < 14) }
    ensures { called_by result out.new ≡ left_by what (text_by what which a b c path.now (length out.old) image.now) out.old }
{
    if what == 7 {
        return extent_text(image, which, a, b, out);
    }
    if what == 8 {
        return xattr_bytes(image, which, a, b, out);
    }
    if what == 9 {
        return entries_text(image, which, a, b, out);
    }
    if what == 10 {
        return measure_text(image, which, out);
    }
    if what == 11 {
        return mark_text(image, which, a, (c % 256) as u8, b, out);
    }
    if what == 12 {
        let checkpoint = which.checkpoint;
        return marked_text(image, checkpoint, path, out);
    }
    replaced_text(image, which, c, a, b, out)
}

pub fn call_in(
    what: u64,
    image: &[u8],
    which: Which,
    a: u64,
    b: u64,
    c: u64,
    path: &[u8],
    out: &mut [u8],
) -> Counted<usize>
    requires { what < 14 }
    ensures { called_by result out.new ≡ left_by what (text_by what which a b c path.now (length out.old) image.now) out.old }
{
    if what < 7 {
        return lower_call(what, image, which, a, b, c, path, out);
    }
    upper_call(what, image, which, a, b, c, path, out)
}
