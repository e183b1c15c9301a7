// Bookmarks of records: document 02, request 10.
ghost use Rattle.std.specs.Prelude.{◌≡◌};
ghost use Rattle.gpt.specs.Part.{on_part};
ghost use Rattle.checkpoints.specs.declared.by_number.Choice.TheVariants.{Latest, Number};
ghost use Rattle.volume.specs.Open.{latest, numbered};
ghost use Rattle.marks.specs.Texts.{mark_text, marked_text};
ghost use Rattle.results.specs.Call.{result_of, buffer_of};

use byte_fields::part;
use checkpoints::Choice;
use gpt::part_of_image;
use marks::{mark_text, marked_text};
use results::{refused, result_of};
use volume::Which;

fn mark_part(image: &[u8], which: Which, id: u64, kind: u8, place: u64, out: &mut [u8]) -> i64
    ensures { (result ≡ result_of (on_part (λ p. mark_text p which id kind place) image.now) out.old) × (out.new ≡ buffer_of (on_part (λ p. mark_text p which id kind place) image.now) out.old) }
{
    match part_of_image(image) {
        Ok(s) => result_of(mark_text(part(image, s), which, id, kind, place, out)),
        Err(e) => refused(e),
    }
}

fn marked_part(image: &[u8], choice: Choice, mark: &[u8], out: &mut [u8]) -> i64
    ensures { (result ≡ result_of (on_part (λ p. marked_text choice p mark.now) image.now) out.old) × (out.new ≡ buffer_of (on_part (λ p. marked_text choice p mark.now) image.now) out.old) }
{
    match part_of_image(image) {
        Ok(s) => result_of(marked_text(part(image, s), choice, mark, out)),
        Err(e) => refused(e),
    }
}

// The bookmark, 24 bytes, of the record of an id and a kind that stands after `place` others; nothing past the last.
#[unsafe(no_mangle)]
pub extern "C" fn apfs_mark(
    image: &[u8],
    volume: u64,
    id: u64,
    kind: u8,
    place: u64,
    out: &mut [u8],
) -> i64
    ensures { (result ≡ result_of (on_part (λ p. mark_text p (latest volume) id kind place) image.now) out.old) × (out.new ≡ buffer_of (on_part (λ p. mark_text p (latest volume) id kind place) image.now) out.old) }
{
    mark_part(
        image,
        Which {
            checkpoint: Choice::Latest,
            index: volume,
        },
        id,
        kind,
        place,
        out,
    )
}

#[unsafe(no_mangle)]
pub extern "C" fn apfs_mark_at(
    image: &[u8],
    xid: u64,
    volume: u64,
    id: u64,
    kind: u8,
    place: u64,
    out: &mut [u8],
) -> i64
    ensures { (result ≡ result_of (on_part (λ p. mark_text p (numbered xid volume) id kind place) image.now) out.old) × (out.new ≡ buffer_of (on_part (λ p. mark_text p (numbered xid volume) id kind place) image.now) out.old) }
{
    mark_part(
        image,
        Which {
            checkpoint: Choice::Number(xid),
            index: volume,
        },
        id,
        kind,
        place,
        out,
    )
}

// The line of the record that a bookmark leads to.
#[unsafe(no_mangle)]
pub extern "C" fn apfs_marked(image: &[u8], mark: &[u8], out: &mut [u8]) -> i64
    ensures { (result ≡ result_of (on_part (λ p. marked_text Latest p mark.now) image.now) out.old) × (out.new ≡ buffer_of (on_part (λ p. marked_text Latest p mark.now) image.now) out.old) }
{
    marked_part(image, Choice::Latest, mark, out)
}

#[unsafe(no_mangle)]
pub extern "C" fn apfs_marked_at(image: &[u8], xid: u64, mark: &[u8], out: &mut [u8]) -> i64
    ensures { (result ≡ result_of (on_part (λ p. marked_text (Number xid) p mark.now) image.now) out.old) × (out.new ≡ buffer_of (on_part (λ p. marked_text (Number xid) p mark.now) image.now) out.old) }
{
    marked_part(image, Choice::Number(xid), mark, out)
}
