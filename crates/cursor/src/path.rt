// The way down to a leaf: for each level above it a block, and the entry at which its node goes on.
ghost use Rattle.std.specs.Prelude.{◌≡◌, ◌<◌, length};
ghost use Rattle.cursor.specs.Left.{top_of, node_on};
ghost use Rattle.cursor.specs.Inner.{none_left, mark_of, with_mark};

use btree::Search;
use error::Refusal;
use node::{Node, parse};

#[derive(Clone, Copy)]
pub struct Mark {
    pub block: u64,
    pub next: u32,
}

#[derive(Clone, Copy)]
pub struct Path {
    pub marks: [Mark; 33],
}

pub fn none_left() -> Path
    ensures { result ≡ none_left }
{
    let k = Mark { block: 0, next: 0 };
    let ks = [k; 33];
    Path { marks: ks }
}

pub fn put(c: Path, level: u16, k: Mark) -> Path
    requires { level < 33 }
    ensures { (result ≡ with_mark c level k) × (length c.marks ≡ 33) }
{
    let mut d = c;
    let l = level as usize;
    d.marks[l] = k;
    d
}

pub fn mark_of(c: Path, level: u16) -> Mark
    requires { level < 33 }
    ensures { result ≡ mark_of c level }
{
    let l = level as usize;
    c.marks[l]
}

// The root's level, 32 at most.
pub fn top_of(q: Search) -> u16
    ensures { result ≡ top_of q }
{
    let root = q.root;
    if 32 < root.level {
        return 32;
    }
    root.level
}

// The node of a level on the path: its block was verified on the way down.
pub fn node_on(image: &[u8], q: Search, level: u16, block: u64) -> Result<Node, Refusal>
    ensures { result ≡ node_on image.now q level block }
{
    let root = q.root;
    if level == root.level {
        return Ok(root);
    }
    parse(q.keys.reader.block(image, block), block)
}
