// The label of a volume (nx.rs, the `name` of `ApfsSuperblock`).
#![tactic(auto)]

ghost use Rattle.std.specs.Prelude.{◌≡◌};
ghost use Rattle.label.specs.Label.{label_of, label_reading};

use byte_fields::{Span, cstr, part};
use utf8::replaced_parts;
use volume::Volume;

// The label's bytes, a part of the image, up to the first zero byte.
pub fn label_of(image: &[u8], v: Volume) -> &[u8]
    ensures { result.now ≡ label_of image.now v }
{
    let reader = v.reader;
    let sb = v.sb;
    let name = Span {
        start: 704,
        len: 256,
    };
    cstr(part(reader.block(image, sb.block), name))
}

// How many parts of it the lossy reading replaces.
pub fn label_replaced(image: &[u8], v: Volume) -> u64
    ensures { result ≡ (label_reading image.now v).replaced }
{
    replaced_parts(label_of(image, v)) as u64
}
