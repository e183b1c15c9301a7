// The same calls at an earlier checkpoint, by its transaction number: document 02, request 04.
ghost use Rattle.std.specs.Prelude.{◌≡◌, length};
ghost use Rattle.gpt.specs.Part.{on_part};
ghost use Rattle.demand.specs.Demand.{listing_of};
ghost use Rattle.listing.specs.Listed.{listed_of};
ghost use Rattle.container_line.specs.Container.{open_text};
ghost use Rattle.element_lines.specs.Elements.{lookup_text, entry_text, extent_text};
ghost use Rattle.entry_lines.specs.Entries.{entries_text};
ghost use Rattle.attribute_lines.specs.Attributes.{attribute_text};
ghost use Rattle.reads.specs.Reads.{read_text, link_text, xattr_bytes};
ghost use Rattle.replaced_line.specs.Line.{replaced_text};
ghost use Rattle.measure.specs.Line.{measure_text};
ghost use Rattle.results.specs.Call.{number, result_of, buffer_of};
ghost use Rattle.checkpoints.specs.Numbers.{numbers_at};
ghost use Rattle.checkpoints.specs.declared.by_number.Choice.TheVariants.{Number};
ghost use Rattle.volume.specs.Open.{numbered};
ghost use Rattle.xid_list.specs.Listed.{xids_by};

use crate::on_part::{
    entries_part, entry_part, extent_part, link_part, list_part, lookup_part, measure_part,
    open_part, read_part, replaced_part, xattr_bytes_part, xattr_part,
};
use byte_fields::part;
use checkpoints::Choice;
use gpt::part_of_image;
use results::{refused, result};
use volume::Which;
use xid_list::list_xids;

// The transaction numbers of the accepted checkpoints, 8 bytes each, greatest first; the result is how many.
#[unsafe(no_mangle)]
pub extern "C" fn apfs_checkpoints(image: &[u8], out: &mut [u8]) -> i64
    ensures { (result ≡ number (xids_by (on_part numbers_at image.now) out.old).answer) × (out.new ≡ (xids_by (on_part numbers_at image.now) out.old).buffer) }
{
    match part_of_image(image) {
        Ok(s) => result(list_xids(part(image, s), out)),
        Err(e) => refused(e),
    }
}

#[unsafe(no_mangle)]
pub extern "C" fn apfs_open_at(image: &[u8], xid: u64, out: &mut [u8]) -> i64
    ensures { (result ≡ result_of (on_part (open_text (Number xid)) image.now) out.old) × (out.new ≡ buffer_of (on_part (open_text (Number xid)) image.now) out.old) }
{
    open_part(image, Choice::Number(xid), out)
}

#[unsafe(no_mangle)]
pub extern "C" fn apfs_lookup_at(
    image: &[u8],
    xid: u64,
    volume: u64,
    path: &[u8],
    out: &mut [u8],
) -> i64
    ensures { (result ≡ result_of (on_part (λ p. lookup_text p (numbered xid volume) path.now) image.now) out.old) × (out.new ≡ buffer_of (on_part (λ p. lookup_text p (numbered xid volume) path.now) image.now) out.old) }
{
    lookup_part(
        image,
        Which {
            checkpoint: Choice::Number(xid),
            index: volume,
        },
        path,
        out,
    )
}

#[unsafe(no_mangle)]
pub extern "C" fn apfs_read_at(
    image: &[u8],
    xid: u64,
    volume: u64,
    id: u64,
    offset: u64,
    out: &mut [u8],
) -> i64
    ensures { (result ≡ result_of (on_part (λ p. read_text p (numbered xid volume) id offset (length out.old)) image.now) out.old) × (out.new ≡ buffer_of (on_part (λ p. read_text p (numbered xid volume) id offset (length out.old)) image.now) out.old) }
{
    read_part(
        image,
        Which {
            checkpoint: Choice::Number(xid),
            index: volume,
        },
        id,
        offset,
        out,
    )
}

#[unsafe(no_mangle)]
pub extern "C" fn apfs_entry_at(
    image: &[u8],
    xid: u64,
    volume: u64,
    id: u64,
    place: u64,
    out: &mut [u8],
) -> i64
    ensures { (result ≡ result_of (on_part (λ p. entry_text p (numbered xid volume) id place) image.now) out.old) × (out.new ≡ buffer_of (on_part (λ p. entry_text p (numbered xid volume) id place) image.now) out.old) }
{
    entry_part(
        image,
        Which {
            checkpoint: Choice::Number(xid),
            index: volume,
        },
        id,
        place,
        out,
    )
}

#[unsafe(no_mangle)]
pub extern "C" fn apfs_entries_at(
    image: &[u8],
    xid: u64,
    volume: u64,
    id: u64,
    place: u64,
    out: &mut [u8],
) -> i64
    ensures { (result ≡ result_of (on_part (λ p. entries_text p (numbered xid volume) id place (length out.old)) image.now) out.old) × (out.new ≡ buffer_of (on_part (λ p. entries_text p (numbered xid volume) id place (length out.old)) image.now) out.old) }
{
    entries_part(
        image,
        Which {
            checkpoint: Choice::Number(xid),
            index: volume,
        },
        id,
        place,
        out,
    )
}

#[unsafe(no_mangle)]
pub extern "C" fn apfs_xattr_at(
    image: &[u8],
    xid: u64,
    volume: u64,
    id: u64,
    place: u64,
    out: &mut [u8],
) -> i64
    ensures { (result ≡ result_of (on_part (λ p. attribute_text p (numbered xid volume) id place) image.now) out.old) × (out.new ≡ buffer_of (on_part (λ p. attribute_text p (numbered xid volume) id place) image.now) out.old) }
{
    xattr_part(
        image,
        Which {
            checkpoint: Choice::Number(xid),
            index: volume,
        },
        id,
        place,
        out,
    )
}

#[unsafe(no_mangle)]
pub extern "C" fn apfs_xattr_bytes_at(
    image: &[u8],
    xid: u64,
    volume: u64,
    id: u64,
    place: u64,
    out: &mut [u8],
) -> i64
    ensures { (result ≡ result_of (on_part (λ p. xattr_bytes p (numbered xid volume) id place) image.now) out.old) × (out.new ≡ buffer_of (on_part (λ p. xattr_bytes p (numbered xid volume) id place) image.now) out.old) }
{
    xattr_bytes_part(
        image,
        Which {
            checkpoint: Choice::Number(xid),
            index: volume,
        },
        id,
        place,
        out,
    )
}

#[unsafe(no_mangle)]
pub extern "C" fn apfs_link_at(image: &[u8], xid: u64, volume: u64, id: u64, out: &mut [u8]) -> i64
    ensures { (result ≡ result_of (on_part (λ p. link_text p (numbered xid volume) id) image.now) out.old) × (out.new ≡ buffer_of (on_part (λ p. link_text p (numbered xid volume) id) image.now) out.old) }
{
    link_part(
        image,
        Which {
            checkpoint: Choice::Number(xid),
            index: volume,
        },
        id,
        out,
    )
}

#[unsafe(no_mangle)]
pub extern "C" fn apfs_replaced_at(
    image: &[u8],
    xid: u64,
    volume: u64,
    kind: u64,
    id: u64,
    place: u64,
    out: &mut [u8],
) -> i64
    ensures { (result ≡ result_of (on_part (λ p. replaced_text p (numbered xid volume) kind id place) image.now) out.old) × (out.new ≡ buffer_of (on_part (λ p. replaced_text p (numbered xid volume) kind id place) image.now) out.old) }
{
    replaced_part(
        image,
        Which {
            checkpoint: Choice::Number(xid),
            index: volume,
        },
        kind,
        id,
        place,
        out,
    )
}

#[unsafe(no_mangle)]
pub extern "C" fn apfs_extent_at(
    image: &[u8],
    xid: u64,
    volume: u64,
    id: u64,
    place: u64,
    out: &mut [u8],
) -> i64
    ensures { (result ≡ result_of (on_part (λ p. extent_text p (numbered xid volume) id place) image.now) out.old) × (out.new ≡ buffer_of (on_part (λ p. extent_text p (numbered xid volume) id place) image.now) out.old) }
{
    extent_part(
        image,
        Which {
            checkpoint: Choice::Number(xid),
            index: volume,
        },
        id,
        place,
        out,
    )
}

#[unsafe(no_mangle)]
pub extern "C" fn apfs_list_at(image: &[u8], xid: u64, volume: u64, out: &mut [u8]) -> i64
    ensures { (result ≡ number (listed_of (listing_of image.now (numbered xid volume) (length out.old)) out.old).answer) × (out.new ≡ (listed_of (listing_of image.now (numbered xid volume) (length out.old)) out.old).buffer) }
{
    list_part(
        image,
        Which {
            checkpoint: Choice::Number(xid),
            index: volume,
        },
        out,
    )
}

#[unsafe(no_mangle)]
pub extern "C" fn apfs_measure_at(image: &[u8], xid: u64, volume: u64, out: &mut [u8]) -> i64
    ensures { (result ≡ result_of (on_part (λ p. measure_text p (numbered xid volume)) image.now) out.old) × (out.new ≡ buffer_of (on_part (λ p. measure_text p (numbered xid volume)) image.now) out.old) }
{
    measure_part(
        image,
        Which {
            checkpoint: Choice::Number(xid),
            index: volume,
        },
        out,
    )
}
