ghost use Rattle.std.specs.Prelude.{◌≡◌, ◌++◌, map};
ghost use Rattle.std.specs.List.{concat};
ghost use Rattle.md5.specs.Md5.{md5};

use md5::{Digest, Md5};

/// The MD5 digest (RFC 1321) of texts, one after the other.
pub fn md5_of(texts: &[&[u8]]) -> [u8; 16]
    ensures { result ≡ md5 (concat (map (λ text. text.now) texts.now)) }
{
    md5_behind(&[], texts)
}

// The digest of texts that stand behind another.
pub(crate) fn md5_behind(front: &[u8], texts: &[&[u8]]) -> [u8; 16]
    ensures { result ≡ md5 (front.now ++ concat (map (λ text. text.now) texts.now)) }
{
    let mut hasher = Md5::new();
    hasher.update(front);
    for text in texts {
        hasher.update(text);
    }
    hasher.finalize()
}
