// Numbers by which values are found. Nothing depends on them.

/// A number made of another and of one part more.
#[inline]
pub fn hashed(hash: u64, part: u64) -> u64 {
    let next = (hash ^ part).wrapping_mul(0x9e37_79b9_7f4a_7c15);
    next ^ (next >> 29)
}
