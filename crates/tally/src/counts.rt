// Counts that stay at 2^64 - 1. In a listing that is not too long none comes near it.
ghost use Rattle.std.specs.Prelude.{◌≡◌};
ghost use Rattle.tally.specs.Weight.{entered, tally_told};

#[derive(Clone, Copy)]
pub struct Tally {
    pub nodes: u64,
    pub bytes: u64,
    pub attrs: u64,
    pub below: u64,
}

// What an entry's node counts for is added; it lies one level lower.
#[tactic(auto, using(crate::proofs::Counting::entry_told_lem))]
pub fn with_entry(t: Tally, x: Tally) -> Tally
    ensures { tally_told result ≡ entered (tally_told t) (tally_told x) }
{
    Tally {
        nodes: t.nodes.saturating_add(x.nodes),
        bytes: t.bytes.saturating_add(x.bytes),
        attrs: t.attrs.saturating_add(x.attrs),
        below: t.below.max(x.below.saturating_add(1)),
    }
}
