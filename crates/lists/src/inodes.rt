// An inode by its id (fs.rs, `inode`).
ghost use Rattle.std.specs.Prelude.{◌≡◌};
ghost use Rattle.lists.specs.Lists.{inode_of, root_of};

use crate::tree::search;
use btree::scan;
use error::Refusal;
use inode_record::{Inode, inode_at};
use lookup::Counted;
use volume::Volume;

// The id of the root directory (ROOT_DIR_INO_NUM).
pub const ROOT: u64 = 2;

// The first inode record of an id.
#[tactic(auto, unfolding(crate::specs::Lists::inode_of, error::specs::Answer::if_le, error::specs::Answer::if_eq))]
pub fn inode(image: &[u8], v: Volume, id: u64, nodes: u64) -> Counted<Inode>
    ensures { result ≡ inode_of image.now v id nodes }
{
    let reader = v.reader;
    let s = scan(image, search(v, id, 3), 0, nodes);
    let found = s.answer;
    match found {
        Ok(Some(p)) => Counted {
            answer: inode_at(reader, image, p, id),
            nodes: s.nodes,
        },
        Ok(None) => Counted {
            answer: Err(Refusal::NotFound),
            nodes: s.nodes,
        },
        Err(e) => Counted {
            answer: Err(e),
            nodes: s.nodes,
        },
    }
}

// The root directory (fs.rs, `root`).
pub fn root(image: &[u8], v: Volume, nodes: u64) -> Counted<Inode>
    ensures { result ≡ root_of image.now v nodes }
{
    inode(image, v, ROOT, nodes)
}
