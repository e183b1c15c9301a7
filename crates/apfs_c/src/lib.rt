// The calls of `apfs`, exported for a host: each promises what the library's function of the same name does, and calls it.
#![tactic(auto)]

mod bookmarks;
mod desk;
mod earlier;
mod object;

ghost use Rattle.std.specs.Prelude.{◌≡◌, length};
ghost use Rattle.gpt.specs.Part.{on_part};
ghost use Rattle.demand.specs.Demand.{listing_of};
ghost use Rattle.listing.specs.Listed.{listed_of};
ghost use Rattle.part_line.specs.Line.{part_text};
ghost use Rattle.container_line.specs.Container.{open_text};
ghost use Rattle.element_lines.specs.Elements.{lookup_text, entry_text, extent_text};
ghost use Rattle.entry_lines.specs.Entries.{entries_text};
ghost use Rattle.attribute_lines.specs.Attributes.{attribute_text};
ghost use Rattle.reads.specs.Reads.{read_text, link_text, xattr_bytes};
ghost use Rattle.replaced_line.specs.Line.{replaced_text};
ghost use Rattle.measure.specs.Line.{measure_text};
ghost use Rattle.results.specs.Call.{number, result_of, buffer_of};
ghost use Rattle.checkpoints.specs.declared.by_number.Choice.TheVariants.{Latest};
ghost use Rattle.volume.specs.Open.{latest};

// The line of the part that a container is in.
#[unsafe(no_mangle)]
pub extern "C" fn apfs_part(image: &[u8], out: &mut [u8]) -> i64
    ensures { (result ≡ result_of (part_text image.now) out.old) × (out.new ≡ buffer_of (part_text image.now) out.old) }
{
    apfs::apfs_part(image, out)
}

// The line of a container.
#[unsafe(no_mangle)]
pub extern "C" fn apfs_open(image: &[u8], out: &mut [u8]) -> i64
    ensures { (result ≡ result_of (on_part (open_text Latest) image.now) out.old) × (out.new ≡ buffer_of (on_part (open_text Latest) image.now) out.old) }
{
    apfs::apfs_open(image, out)
}

// The line of the inode that a path leads to.
#[unsafe(no_mangle)]
pub extern "C" fn apfs_lookup(image: &[u8], volume: u64, path: &[u8], out: &mut [u8]) -> i64
    ensures { (result ≡ result_of (on_part (λ p. lookup_text p (latest volume) path.now) image.now) out.old) × (out.new ≡ buffer_of (on_part (λ p. lookup_text p (latest volume) path.now) image.now) out.old) }
{
    apfs::apfs_lookup(image, volume, path, out)
}

// The bytes of a file from an offset on.
#[unsafe(no_mangle)]
pub extern "C" fn apfs_read(image: &[u8], volume: u64, id: u64, offset: u64, out: &mut [u8]) -> i64
    ensures { (result ≡ result_of (on_part (λ p. read_text p (latest volume) id offset (length out.old)) image.now) out.old) × (out.new ≡ buffer_of (on_part (λ p. read_text p (latest volume) id offset (length out.old)) image.now) out.old) }
{
    apfs::apfs_read(image, volume, id, offset, out)
}

// The line of a directory entry, by place.
#[unsafe(no_mangle)]
pub extern "C" fn apfs_entry(image: &[u8], volume: u64, id: u64, place: u64, out: &mut [u8]) -> i64
    ensures { (result ≡ result_of (on_part (λ p. entry_text p (latest volume) id place) image.now) out.old) × (out.new ≡ buffer_of (on_part (λ p. entry_text p (latest volume) id place) image.now) out.old) }
{
    apfs::apfs_entry(image, volume, id, place, out)
}

// The lines of a directory's entries from a place on, as many as fit.
#[unsafe(no_mangle)]
pub extern "C" fn apfs_entries(
    image: &[u8],
    volume: u64,
    id: u64,
    place: u64,
    out: &mut [u8],
) -> i64
    ensures { (result ≡ result_of (on_part (λ p. entries_text p (latest volume) id place (length out.old)) image.now) out.old) × (out.new ≡ buffer_of (on_part (λ p. entries_text p (latest volume) id place (length out.old)) image.now) out.old) }
{
    apfs::apfs_entries(image, volume, id, place, out)
}

// The line of an attribute with its contents, by place.
#[unsafe(no_mangle)]
pub extern "C" fn apfs_xattr(image: &[u8], volume: u64, id: u64, place: u64, out: &mut [u8]) -> i64
    ensures { (result ≡ result_of (on_part (λ p. attribute_text p (latest volume) id place) image.now) out.old) × (out.new ≡ buffer_of (on_part (λ p. attribute_text p (latest volume) id place) image.now) out.old) }
{
    apfs::apfs_xattr(image, volume, id, place, out)
}

// The bytes of an attribute, by place.
#[unsafe(no_mangle)]
pub extern "C" fn apfs_xattr_bytes(
    image: &[u8],
    volume: u64,
    id: u64,
    place: u64,
    out: &mut [u8],
) -> i64
    ensures { (result ≡ result_of (on_part (λ p. xattr_bytes p (latest volume) id place) image.now) out.old) × (out.new ≡ buffer_of (on_part (λ p. xattr_bytes p (latest volume) id place) image.now) out.old) }
{
    apfs::apfs_xattr_bytes(image, volume, id, place, out)
}

// The text of a symbolic link.
#[unsafe(no_mangle)]
pub extern "C" fn apfs_link(image: &[u8], volume: u64, id: u64, out: &mut [u8]) -> i64
    ensures { (result ≡ result_of (on_part (λ p. link_text p (latest volume) id) image.now) out.old) × (out.new ≡ buffer_of (on_part (λ p. link_text p (latest volume) id) image.now) out.old) }
{
    apfs::apfs_link(image, volume, id, out)
}

// How many parts of a name were replaced; of what name, its kind says.
#[unsafe(no_mangle)]
pub extern "C" fn apfs_replaced(
    image: &[u8],
    volume: u64,
    kind: u64,
    id: u64,
    place: u64,
    out: &mut [u8],
) -> i64
    ensures { (result ≡ result_of (on_part (λ p. replaced_text p (latest volume) kind id place) image.now) out.old) × (out.new ≡ buffer_of (on_part (λ p. replaced_text p (latest volume) kind id place) image.now) out.old) }
{
    apfs::apfs_replaced(image, volume, kind, id, place, out)
}

// The line of a file's extent, by place.
#[unsafe(no_mangle)]
pub extern "C" fn apfs_extent(image: &[u8], volume: u64, id: u64, place: u64, out: &mut [u8]) -> i64
    ensures { (result ≡ result_of (on_part (λ p. extent_text p (latest volume) id place) image.now) out.old) × (out.new ≡ buffer_of (on_part (λ p. extent_text p (latest volume) id place) image.now) out.old) }
{
    apfs::apfs_extent(image, volume, id, place, out)
}

// The listing of a volume.
#[unsafe(no_mangle)]
pub extern "C" fn apfs_list(image: &[u8], volume: u64, out: &mut [u8]) -> i64
    ensures { (result ≡ number (listed_of (listing_of image.now (latest volume) (length out.old)) out.old).answer) × (out.new ≡ (listed_of (listing_of image.now (latest volume) (length out.old)) out.old).buffer) }
{
    apfs::apfs_list(image, volume, out)
}

// How long the listing of a volume will be, and how deep.
#[unsafe(no_mangle)]
pub extern "C" fn apfs_measure(image: &[u8], volume: u64, out: &mut [u8]) -> i64
    ensures { (result ≡ result_of (on_part (λ p. measure_text p (latest volume)) image.now) out.old) × (out.new ≡ buffer_of (on_part (λ p. measure_text p (latest volume)) image.now) out.old) }
{
    apfs::apfs_measure(image, volume, out)
}
