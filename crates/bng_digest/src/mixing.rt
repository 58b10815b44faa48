ghost use Rattle.std.specs.Prelude.{◌≡◌, ◌≤◌, ◌<◌, ◌*◌, ◌+◌, length, take, drop};
ghost use Rattle.bng_digest.specs.Mixing.{xored, chunk, mask, IsHidden};

use crate::texts::md5_of;

// The octets of a chunk, which are those of an MD5 digest.
const CHUNK: usize = 16;

// Xors octets with those of a digest.
fn xor_into(part: &mut [u8], digest: &[u8; 16])
    requires { length part.old ≤ CHUNK }
    ensures { part.new ≡ xored part.old digest.now }
{
    for i in 0..part.len() {
        part[i] ^= digest[i];
    }
}

// Xors one chunk of a value with a digest.
fn xor_chunk(value: &mut [u8], i: usize, digest: &[u8; 16])
    requires { 16 * i < length value.old }
    ensures size { length value.new ≡ length value.old }
    ensures before { take (16 * i) value.new ≡ take (16 * i) value.old }
    ensures xored { chunk value.new i ≡ xored (chunk value.old i) digest.now }
    ensures behind { drop (16 * (i + 1)) value.new ≡ drop (16 * (i + 1)) value.old }
{
    let start = CHUNK * i;
    let end = value.len().min(start + CHUNK);
    xor_into(&mut value[start..end], digest);
}

// The digest that a chunk of a cipher was xored with.
fn mask(secret: &[u8], first: &[u8; 16], cipher: &[u8], i: usize) -> [u8; 16]
    requires { 16 * i < length cipher.now }
    ensures { result ≡ mask secret.now first.now cipher.now i }
{
    if i == 0 {
        return *first;
    }
    md5_of(&[secret, &cipher[CHUNK * (i - 1)..CHUNK * i]])
}

/// Hides a value in place: each chunk is xored with the digest of the secret and the hidden chunk before it,
/// and the first chunk with the digest that is given.
pub(crate) fn hide(secret: &[u8], first: &[u8; 16], value: &mut [u8])
    ensures { IsHidden secret.now first.now value.old value.new }
{
    for i in 0..value.len().div_ceil(CHUNK) {
        let digest = mask(secret, first, value, i);
        xor_chunk(value, i, &digest);
    }
}

/// Undoes `hide`, from the last chunk to the first, since a chunk's digest is that of the hidden chunk before it.
pub(crate) fn reveal(secret: &[u8], first: &[u8; 16], value: &mut [u8])
    ensures { IsHidden secret.now first.now value.new value.old }
{
    let mut left = value.len().div_ceil(CHUNK);
    while left > 0 {
        left -= 1;
        let digest = mask(secret, first, value, left);
        xor_chunk(value, left, &digest);
    }
}
