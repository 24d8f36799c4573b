//! What texts begin with in common.
ghost use Rattle.std.specs.Prelude.{◌≡◌};
ghost use Rattle.smap_locations.specs.Common.{common_front};

/// What two texts both begin with.
pub fn common_front<'a>(one: &'a [u8], other: &[u8]) -> &'a [u8]
    ensures { result.now ≡ common_front one.now other.now }
{
    let most = one.len().min(other.len());
    for count in 0..most {
        if one[count] != other[count] {
            return &one[..count];
        }
    }
    &one[..most]
}
