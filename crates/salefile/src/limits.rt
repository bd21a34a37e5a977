// The limit that the rules set for a file.

// The most bytes of a file.
pub const MAX_BYTES: usize = 16_384;
