// The limits of the product that several crates share.

/// The greatest magnitude of a literal, of a common period and of a scaled reach: 2^62.
pub const LIMIT: i64 = 4_611_686_018_427_387_904;
