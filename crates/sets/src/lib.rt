// Sets of at most 64 places, each a number of 64 bits: bit j says whether place j is in the set. Nothing here knows what a place stands for.
// A place is a plain `usize`, since it also counts loops and indexes rows: a type of its own would be opened and made again at each.
#![tactic(auto)]

ghost use Rattle.std.specs.Prelude.{◌≡◌, ◌==◌, ◌<◌, ◌^◌};
ghost use Rattle.sets.specs.Sets.{bit};

// Whether a place is in the set.
#[tactic(auto, using(crate::proofs::Sets::bit_shr))]
pub fn has(set: u64, place: usize) -> bool
    requires { place < 64 }
    ensures { result ≡ (bit place set == 1) }
{
    (set >> place) % 2 == 1
}

// The set of one place alone.
pub fn one(place: usize) -> u64
    requires { place < 64 }
    ensures { result ≡ 2 ^ place }
{
    1 << place
}
