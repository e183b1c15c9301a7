// The records of an id and a kind in a volume's tree (fs.rs, `records`).
ghost use Rattle.std.specs.Prelude.{◌≡◌, ◌-◌};
ghost use Rattle.lists.specs.Lists.{search_of};

use btree::{Keys, Search};
use lookup::Resolve;
use volume::{Volume, hashed_keys};

pub fn search(v: Volume, id: u64, kind: u8) -> Search
    ensures { result ≡ search_of v id kind }
{
    let reader = v.reader;
    let root = v.root;
    let info = v.info;
    let map = v.map;
    let keys = Keys {
        reader: reader,
        info: info,
        id: id,
        kind: kind,
        hashed: hashed_keys(v),
    };
    Search {
        keys: keys,
        root: root,
        resolve: Resolve::Mapped(map),
    }
}

// One fewer, down to 0.
pub fn fewer(n: u64) -> u64
    ensures { result ≡ n - 1 }
{
    if n == 0 {
        return 0;
    }
    n - 1
}
