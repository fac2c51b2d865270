// The digest of the files that a page was computed from.
ghost use Rattle.std.specs.Prelude.{◌≡◌};
ghost use Rattle.lrp_token.specs.Files.{files_digest};

use sha2::{Digest, Sha256};

/// SHA-256 of the 64 bytes that are the SHA-256 of the database's bytes followed by that of the query's bytes.
pub fn digest(database: &[u8], query: &[u8]) -> [u8; 32]
    ensures { result ≡ files_digest database.now query.now }
{
    let mut hasher = Sha256::new();
    hasher.update(Sha256::digest(database));
    hasher.update(Sha256::digest(query));
    hasher.finalize()
}
