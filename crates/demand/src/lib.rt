// The third demand: what an opened volume answers, its listing, and that the one goes by the other. All but a number is theory: specs/ and proofs/.
#![tactic(auto)]

ghost use Rattle.std.specs.Prelude.{◌≡◌};
ghost use Rattle.demand.specs.Listing.{levels};

// How many levels of nodes a listing has.
pub fn levels() -> u32
    ensures { result ≡ levels }
{
    65
}
