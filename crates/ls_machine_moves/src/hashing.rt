// Numbers that states which are the same have in common.

/// A number made of two.
#[inline]
pub fn hashed(seed: u64, word: u64) -> u64 {
    let hash = (seed.rotate_left(5) ^ word).wrapping_mul(0x9e37_79b9_7f4a_7c15);
    hash ^ (hash >> 29)
}

/// A number made of another and of words.
pub fn hashed_all(seed: u64, words: &[u64]) -> u64 {
    let mut hash = hashed(seed, words.len() as u64);
    for word in words {
        hash = hashed(hash, *word);
    }
    hash
}
