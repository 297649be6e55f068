// The tag of a name in a directory: the same for the same name there, and seldom for another.
ghost use Rattle.std.specs.Prelude.{◌≡◌};
ghost use Rattle.fan_tree.specs.Tags.{name_tag};

// FNV-1a with 64 bits.
const FNV_BASIS: u64 = 14_695_981_039_346_656_037;

const FNV_PRIME: u64 = 1_099_511_628_211;

// Spreads hashes: the golden ratio's part of 2^64.
const SPREAD: u64 = 11_400_714_819_323_198_485;

/// The tag of a name in a directory: the upper half of a hash of both.
#[tactic(auto, unfolding(crate::specs::Tags::name_tag))]
pub(crate) fn name_tag(dir: u32, name: &[u8]) -> u32
    ensures { result ≡ name_tag dir name.now }
{
    let mut hash = FNV_BASIS + u64::from(dir);
    for byte in name {
        hash = (hash ^ u64::from(*byte)).wrapping_mul(FNV_PRIME);
    }
    (hash.wrapping_mul(SPREAD) >> 32) as u32
}
