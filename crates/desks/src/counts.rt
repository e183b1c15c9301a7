// The dock's record of node counts, one for each desk.
ghost use Rattle.std.specs.Prelude.{◌≡◌};
ghost use Rattle.desks.specs.Desks.{added};

use calls::plus;

#[repr(C)]
#[derive(Clone, Copy)]
pub struct DeskCounts {
    pub counts: [u64; 8],
}

// What a call answers, and the nodes that it went through.
#[derive(Clone, Copy)]
pub struct Called {
    pub result: i64,
    pub nodes: u64,
}

// The counts with one desk's gone up.
fn more(c: DeskCounts, desk: u64, nodes: u64) -> DeskCounts
    ensures { result.counts ≡ added c.counts desk nodes }
{
    if 7 < desk {
        return c;
    }
    let i = desk as usize;
    let mut out = c;
    out.counts[i] = plus(c.counts[i], nodes);
    out
}

pub fn more_by(c: DeskCounts, desk: u64, t: Called) -> DeskCounts
    ensures { result.counts ≡ added c.counts desk t.nodes }
{
    more(c, desk, t.nodes)
}

pub fn result_in(t: Called) -> i64
    ensures { result ≡ t.result }
{
    t.result
}
