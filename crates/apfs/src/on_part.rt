// Each call on the part of the image that a container is in, of any checkpoint: document 02, requests 01 and 04.
ghost use Rattle.std.specs.Prelude.{◌≡◌, length};
ghost use Rattle.gpt.specs.Part.{on_part};
ghost use Rattle.demand.specs.Demand.{listing_of};
ghost use Rattle.listing.specs.Listed.{listed_of};
ghost use Rattle.container_line.specs.Container.{open_text};
ghost use Rattle.element_lines.specs.Elements.{lookup_text, entry_text, extent_text};
ghost use Rattle.entry_lines.specs.Entries.{entries_text};
ghost use Rattle.attribute_lines.specs.Attributes.{attribute_text};
ghost use Rattle.reads.specs.Reads.{read_text, link_text, xattr_bytes};
ghost use Rattle.replaced_line.specs.Line.{replaced_text};
ghost use Rattle.measure.specs.Line.{measure_text};
ghost use Rattle.results.specs.Call.{number, result_of, buffer_of};

use attribute_lines::attribute_text;
use byte_fields::part;
use checkpoints::Choice;
use container_line::open_line;
use element_lines::{entry_text, extent_text, lookup_text};
use entry_lines::entries_text;
use gpt::part_of_image;
use listing::{list_text, refuse_zeroed};
use measure::measure_text;
use reads::{link_text, read_text, xattr_bytes};
use replaced_line::replaced_text;
use results::{refused, result, result_of};
use volume::Which;

// The line of a container.
pub fn open_part(image: &[u8], choice: Choice, out: &mut [u8]) -> i64
    ensures { (result ≡ result_of (on_part (open_text choice) image.now) out.old) × (out.new ≡ buffer_of (on_part (open_text choice) image.now) out.old) }
{
    match part_of_image(image) {
        Ok(s) => result_of(open_line(part(image, s), choice, out)),
        Err(e) => refused(e),
    }
}

// The line of the inode that a path leads to.
pub fn lookup_part(image: &[u8], which: Which, path: &[u8], out: &mut [u8]) -> i64
    ensures { (result ≡ result_of (on_part (λ p. lookup_text p which path.now) image.now) out.old) × (out.new ≡ buffer_of (on_part (λ p. lookup_text p which path.now) image.now) out.old) }
{
    match part_of_image(image) {
        Ok(s) => result_of(lookup_text(part(image, s), which, path, out)),
        Err(e) => refused(e),
    }
}

// The bytes of a file from an offset on.
pub fn read_part(image: &[u8], which: Which, id: u64, offset: u64, out: &mut [u8]) -> i64
    ensures { (result ≡ result_of (on_part (λ p. read_text p which id offset (length out.old)) image.now) out.old) × (out.new ≡ buffer_of (on_part (λ p. read_text p which id offset (length out.old)) image.now) out.old) }
{
    match part_of_image(image) {
        Ok(s) => result_of(read_text(part(image, s), which, id, offset, out)),
        Err(e) => refused(e),
    }
}

// The line of a directory entry, by place.
pub fn entry_part(image: &[u8], which: Which, id: u64, place: u64, out: &mut [u8]) -> i64
    ensures { (result ≡ result_of (on_part (λ p. entry_text p which id place) image.now) out.old) × (out.new ≡ buffer_of (on_part (λ p. entry_text p which id place) image.now) out.old) }
{
    match part_of_image(image) {
        Ok(s) => result_of(entry_text(part(image, s), which, id, place, out)),
        Err(e) => refused(e),
    }
}

// The lines of a directory's entries from a place on, as many as fit.
pub fn entries_part(image: &[u8], which: Which, id: u64, place: u64, out: &mut [u8]) -> i64
    ensures { (result ≡ result_of (on_part (λ p. entries_text p which id place (length out.old)) image.now) out.old) × (out.new ≡ buffer_of (on_part (λ p. entries_text p which id place (length out.old)) image.now) out.old) }
{
    match part_of_image(image) {
        Ok(s) => result_of(entries_text(part(image, s), which, id, place, out)),
        Err(e) => refused(e),
    }
}

// The line of an attribute with its contents, by place.
pub fn xattr_part(image: &[u8], which: Which, id: u64, place: u64, out: &mut [u8]) -> i64
    ensures { (result ≡ result_of (on_part (λ p. attribute_text p which id place) image.now) out.old) × (out.new ≡ buffer_of (on_part (λ p. attribute_text p which id place) image.now) out.old) }
{
    match part_of_image(image) {
        Ok(s) => result_of(attribute_text(part(image, s), which, id, place, out)),
        Err(e) => refused(e),
    }
}

// The bytes of an attribute, by place.
pub fn xattr_bytes_part(image: &[u8], which: Which, id: u64, place: u64, out: &mut [u8]) -> i64
    ensures { (result ≡ result_of (on_part (λ p. xattr_bytes p which id place) image.now) out.old) × (out.new ≡ buffer_of (on_part (λ p. xattr_bytes p which id place) image.now) out.old) }
{
    match part_of_image(image) {
        Ok(s) => result_of(xattr_bytes(part(image, s), which, id, place, out)),
        Err(e) => refused(e),
    }
}

// The text of a symbolic link.
pub fn link_part(image: &[u8], which: Which, id: u64, out: &mut [u8]) -> i64
    ensures { (result ≡ result_of (on_part (λ p. link_text p which id) image.now) out.old) × (out.new ≡ buffer_of (on_part (λ p. link_text p which id) image.now) out.old) }
{
    match part_of_image(image) {
        Ok(s) => result_of(link_text(part(image, s), which, id, out)),
        Err(e) => refused(e),
    }
}

// The line of how long the listing will be, and how deep.
pub fn measure_part(image: &[u8], which: Which, out: &mut [u8]) -> i64
    ensures { (result ≡ result_of (on_part (λ p. measure_text p which) image.now) out.old) × (out.new ≡ buffer_of (on_part (λ p. measure_text p which) image.now) out.old) }
{
    match part_of_image(image) {
        Ok(s) => result_of(measure_text(part(image, s), which, out)),
        Err(e) => refused(e),
    }
}

// How many parts of a name were replaced; of what name, its kind says.
pub fn replaced_part(
    image: &[u8],
    which: Which,
    kind: u64,
    id: u64,
    place: u64,
    out: &mut [u8],
) -> i64
    ensures { (result ≡ result_of (on_part (λ p. replaced_text p which kind id place) image.now) out.old) × (out.new ≡ buffer_of (on_part (λ p. replaced_text p which kind id place) image.now) out.old) }
{
    match part_of_image(image) {
        Ok(s) => result_of(replaced_text(part(image, s), which, kind, id, place, out)),
        Err(e) => refused(e),
    }
}

// The line of a file's extent, by place.
pub fn extent_part(image: &[u8], which: Which, id: u64, place: u64, out: &mut [u8]) -> i64
    ensures { (result ≡ result_of (on_part (λ p. extent_text p which id place) image.now) out.old) × (out.new ≡ buffer_of (on_part (λ p. extent_text p which id place) image.now) out.old) }
{
    match part_of_image(image) {
        Ok(s) => result_of(extent_text(part(image, s), which, id, place, out)),
        Err(e) => refused(e),
    }
}

// The listing of a volume.
pub fn list_part(image: &[u8], which: Which, out: &mut [u8]) -> i64
    ensures { (result ≡ number (listed_of (listing_of image.now which (length out.old)) out.old).answer) × (out.new ≡ (listed_of (listing_of image.now which (length out.old)) out.old).buffer) }
{
    match part_of_image(image) {
        Ok(s) => result_of(list_text(part(image, s), which, out)),
        Err(e) => result(refuse_zeroed(out, e)),
    }
}
