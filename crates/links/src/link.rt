// The bytes of an attribute, and the text of a symbolic link (fs.rs, `read_xattr`, `read_link`).
ghost use Rattle.std.specs.Prelude.{◌≡◌};
ghost use Rattle.calls.specs.Filled.{answered, written_told};
ghost use Rattle.links.specs.Link.{contents_of, link_of};
ghost use Rattle.links.specs.Inner.{read_contents};

use crate::named::link_attribute;
use crate::target::{settle_contents, show};
use error::Refusal;
use inode_record::Inode;
use lookup::Counted;
use records::Attribute;
use volume::Volume;

// The contents are settled before the buffer's length counts.
#[tactic(auto, using(crate::proofs::Answers::contents_fine, crate::proofs::Answers::contents_no))]
fn read_contents(
    image: &[u8],
    v: Volume,
    a: Attribute,
    raw: bool,
    out: &mut [u8],
    nodes: u64,
) -> Counted<u64>
    ensures { written_told result out.new ≡ answered (read_contents raw image.now v a nodes) out.old }
{
    let s = settle_contents(image, v, a, nodes);
    match s.answer {
        Ok(()) => Counted {
            answer: show(image, v, a, raw, out, nodes),
            nodes: s.nodes,
        },
        Err(e) => Counted {
            answer: Err(e),
            nodes: s.nodes,
        },
    }
}

// The bytes as they are.
#[tactic(auto, using(crate::proofs::Answers::raw_read))]
pub fn read_xattr(image: &[u8], v: Volume, a: Attribute, out: &mut [u8], nodes: u64) -> Counted<u64>
    ensures { written_told result out.new ≡ answered (contents_of image.now v a nodes) out.old }
{
    read_contents(image, v, a, true, out, nodes)
}

#[tactic(auto, using(crate::proofs::Answers::link_no))]
pub fn read_link(image: &[u8], v: Volume, inode: Inode, out: &mut [u8], nodes: u64) -> Counted<u64>
    ensures { written_told result out.new ≡ answered (link_of image.now v inode nodes) out.old }
{
    let f = link_attribute(image, v, inode, nodes);
    match f.answer {
        Ok(a) => read_contents(image, v, a, false, out, f.nodes),
        Err(e) => Counted {
            answer: Err(e),
            nodes: f.nodes,
        },
    }
}
