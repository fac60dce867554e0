//! Numbers in lent memory: little-endian, at a byte offset.
#![tactic(auto)]

ghost use Rattle.std.specs.Prelude.{◌≡◌, ◌+◌, ◌*◌, ◌≤◌, length, replicate};
ghost use Rattle.memory.specs.Bytes.{num, le, part, patch, bytes_of, words_at};

/// The number in the eight bytes from `at` on.
#[tactic(auto, using(crate::proofs::Laws::num_of_le), unfolding(crate::specs::Bytes::part))]
pub fn load_u64(s: &[u8], at: usize) -> u64
    requires { at + 8 ≤ length s.now }
    ensures { result ≡ num (part s.now at 8) }
{
    let Some(word) = s[at..at + 8].first_chunk() else {
        unreachable!();
    };
    u64::from_le_bytes(*word)
}

/// The eight bytes from `at` on become those of `v`.
#[tactic(auto, using(crate::proofs::Laws::le_of_le), unfolding(crate::specs::Bytes::patch))]
pub fn store_u64(s: &mut [u8], at: usize, v: u64)
    requires { at + 8 ≤ length s.old }
    ensures { s.new ≡ patch s.old at (le 8 v) }
{
    s[at..at + 8].copy_from_slice(&v.to_le_bytes());
}

/// All of `src`, from `at`. Byte by byte: `copy_from_slice` may become a `memmove`, and the library needs memcpy and memset alone.
pub fn copy_at(dst: &mut [u8], at: usize, src: &[u8])
    requires { at + length src.now ≤ length dst.old }
    ensures { dst.new ≡ patch dst.old at src.now }
{
    for k in 0..src.len() {
        dst[at + k] = src[k];
    }
}

/// Every byte of `s` becomes `b`.
pub fn fill(s: &mut [u8], b: u8)
    ensures { s.new ≡ replicate (length s.old) b }
{
    s.fill(b);
}

/// All of `ws`, from `at`.
#[tactic(auto, using(crate::proofs::Words::stored_none, crate::proofs::Words::stored_more, crate::proofs::Words::stored_all))]
pub fn store_words(s: &mut [u8], at: usize, ws: &[u64])
    requires { at + 8 * length ws.now ≤ length s.old }
    ensures { s.new ≡ patch s.old at (bytes_of ws.now) }
{
    for (k, word) in ws.iter().enumerate() {
        store_u64(s, at + 8 * k, *word);
    }
}

/// As many words from `at` as `ws` has.
#[tactic(auto, using(crate::proofs::Words::loaded_more, crate::proofs::Words::loaded_all))]
pub fn load_words(s: &[u8], at: usize, ws: &mut [u64])
    requires { at + 8 * length ws.old ≤ length s.now }
    ensures { ws.new ≡ words_at s.now at (length ws.old) }
{
    for (k, word) in ws.iter_mut().enumerate() {
        *word = load_u64(s, at + 8 * k);
    }
}
