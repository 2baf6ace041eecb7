// What a walk has met.

// The buckets that a key has met, at most three.
#[derive(Clone, Copy, Debug, PartialEq, Eq)]
pub struct Walk {
    pub met: [u32; 3],
    pub count: usize,
}
