// SHA-256 (FIPS 180-4) of a string of bytes. The functions have the names that the standard gives their steps.
#![tactic(auto)]

mod constants;

ghost use Rattle.std.specs.Prelude.{◌≡◌, ◌+◌, ◌-◌, ◌*◌, ◌/◌, ◌%◌, ◌<◌, ◌≤◌, ◌++◌, length, take};
ghost use Rattle.limits.specs.Limits.{max_hashed};
ghost use Rattle.sha256.specs.Sha256 as fips;
ghost use Rattle.sha256.specs.Sha256.{◌⊞◌, Ch, Maj, Σ0, Σ1, σ0, σ1, padding, hashed, hash_of};
ghost use Rattle.sha256.specs.Rest.{digest_from};
ghost use Rattle.sha256.specs.declared.Working as declared;

use cause::Cause;
use constants::{INITIAL, K};
use limits::MAX_HASHED;

// A hash.
pub type Digest = [u8; 32];

// The eight working variables of 6.2.2.
#[derive(Clone, Copy)]
struct Working {
    a: u32,
    b: u32,
    c: u32,
    d: u32,
    e: u32,
    f: u32,
    g: u32,
    h: u32,
}

// 4.1.2: Ch, and in the functions below Maj, Σ0, Σ1, σ0 and σ1.
fn ch(x: u32, y: u32, z: u32) -> u32
    ensures { result ≡ Ch x y z }
{
    (x & y) ^ (!x & z)
}

fn maj(x: u32, y: u32, z: u32) -> u32
    ensures { result ≡ Maj x y z }
{
    (x & y) ^ (x & z) ^ (y & z)
}

fn big_sigma0(x: u32) -> u32
    ensures { result ≡ Σ0 x }
{
    x.rotate_right(2) ^ x.rotate_right(13) ^ x.rotate_right(22)
}

fn big_sigma1(x: u32) -> u32
    ensures { result ≡ Σ1 x }
{
    x.rotate_right(6) ^ x.rotate_right(11) ^ x.rotate_right(25)
}

fn small_sigma0(x: u32) -> u32
    ensures { result ≡ σ0 x }
{
    x.rotate_right(7) ^ x.rotate_right(18) ^ (x >> 3)
}

fn small_sigma1(x: u32) -> u32
    ensures { result ≡ σ1 x }
{
    x.rotate_right(17) ^ x.rotate_right(19) ^ (x >> 10)
}

// 5.1.1: the padded end of a message of n bytes, of which `rest` are those past its whole blocks. It is one block or two, up to `end`.
fn pad(rest: &[u8], n: usize, end: usize) -> [u8; 128]
    requires { (n ≤ max_hashed) × (length rest.now ≡ n % 64) × (end ≡ (n % 64 + 72) / 64 * 64) }
    ensures { take end result ≡ rest.now ++ padding n }
{
    let mut tail = [0u8; 128];
    let len = rest.len();
    tail[..len].copy_from_slice(rest);
    tail[len] = 0x80;
    let bits = (8 * n).to_be_bytes();
    tail[end - 8..end].copy_from_slice(&bits);
    tail
}

// 6.2.2, step 1: the first sixteen words of the schedule, which are the block's, each with its highest byte first (5.2.1).
fn parse(block: &[u8; 64]) -> [u32; 64]
    ensures { take 16 result ≡ fips.schedule 16 block.now }
{
    let mut w = [0u32; 64];
    let (words, _) = block.as_chunks::<4>();
    for (t, word) in words.iter().enumerate() {
        w[t] = u32::from_be_bytes(*word);
    }
    w
}

// A later word of the schedule, from those 2, 7, 15 and 16 places before it.
fn later_word(w2: u32, w7: u32, w15: u32, w16: u32) -> u32
    ensures { result ≡ σ1 w2 ⊞ w7 ⊞ σ0 w15 ⊞ w16 }
{
    small_sigma1(w2)
        .wrapping_add(w7)
        .wrapping_add(small_sigma0(w15))
        .wrapping_add(w16)
}

// The whole schedule.
fn schedule(block: &[u8; 64]) -> [u32; 64]
    ensures { result ≡ fips.schedule 64 block.now }
{
    let mut w = parse(block);
    for t in 16..64 {
        w[t] = later_word(w[t - 2], w[t - 7], w[t - 15], w[t - 16]);
    }
    w
}

// Step 3: one round, with the constant k and the word w.
#[tactic(auto, unfolding(crate::specs::Sha256::round))]
fn round(k: u32, w: u32, v: Working) -> Working
    ensures { result ≡ fips.round k w v }
{
    let Working {
        a,
        b,
        c,
        d,
        e,
        f,
        g,
        h,
    } = v;
    let t1 = h
        .wrapping_add(big_sigma1(e))
        .wrapping_add(ch(e, f, g))
        .wrapping_add(k)
        .wrapping_add(w);
    let t2 = big_sigma0(a).wrapping_add(maj(a, b, c));
    Working {
        a: t1.wrapping_add(t2),
        b: a,
        c: b,
        d: c,
        e: d.wrapping_add(t1),
        f: e,
        g: f,
        h: g,
    }
}

// Eight rounds, from round t on, which the compiler lays out one behind the other: after eight the variables stand in their first places again, so
// that none is moved. One loop of 64 rounds moves them at each turn, and takes a quarter longer.
fn eight_rounds(k: &[u32; 64], w: &[u32; 64], t: usize, v: Working) -> Working
    requires { (k.now ≡ fips.K) × (t ≤ 56) }
    ensures { (first : declared.Working) → v ≡ fips.rounds t w.now first
        → result ≡ fips.rounds (t + 8) w.now first }
{
    let mut v = v;
    for j in t..t + 8 {
        v = round(k[j], w[j], v);
    }
    v
}

// All rounds.
fn rounds(w: &[u32; 64], first: Working) -> Working
    ensures { result ≡ fips.rounds 64 w.now first }
{
    // A copy, since a constant that is read in the loop would be laid down anew at each turn.
    let k = K;
    let mut v = first;
    for i in 0..8 {
        v = eight_rounds(&k, w, 8 * i, v);
    }
    v
}

// Step 2.
fn variables(h: [u32; 8]) -> Working
    ensures { result ≡ fips.working h }
{
    Working {
        a: h[0],
        b: h[1],
        c: h[2],
        d: h[3],
        e: h[4],
        f: h[5],
        g: h[6],
        h: h[7],
    }
}

// Step 4.
#[tactic(auto, unfolding(crate::specs::Sha256::sums))]
fn sums(v: Working, h: [u32; 8]) -> [u32; 8]
    ensures { result ≡ fips.sums v h }
{
    [
        v.a.wrapping_add(h[0]),
        v.b.wrapping_add(h[1]),
        v.c.wrapping_add(h[2]),
        v.d.wrapping_add(h[3]),
        v.e.wrapping_add(h[4]),
        v.f.wrapping_add(h[5]),
        v.g.wrapping_add(h[6]),
        v.h.wrapping_add(h[7]),
    ]
}

// The hash value after one block.
#[tactic(auto, unfolding(crate::specs::Sha256::compress))]
fn compress(h: [u32; 8], block: &[u8; 64]) -> [u32; 8]
    ensures { result ≡ fips.compress h block.now }
{
    let w = schedule(block);
    let v = rounds(&w, variables(h));
    sums(v, h)
}

// The hash value after the whole blocks of s, each read where it lies.
#[tactic(auto, using(crate::proofs::Blocks::blocks_more), unfolding(crate::specs::Sha256::hash_value))]
fn hash_value(first: [u32; 8], s: &[u8]) -> [u32; 8]
    ensures { result ≡ fips.hash_value first (length s.now / 64) s.now }
{
    let (blocks, _) = s.as_chunks::<64>();
    let mut h = first;
    for block in blocks {
        let next = compress(h, block);
        h = next;
    }
    h
}

// The words of the last hash value as bytes.
#[tactic(auto, unfolding(crate::specs::Sha256::digest_of))]
fn digest_of(h: [u32; 8]) -> Digest
    ensures { result ≡ fips.digest_of h }
{
    let mut digest = [0u8; 32];
    for (i, word) in h.iter().enumerate() {
        let at = 4 * i;
        digest[at..at + 4].copy_from_slice(&word.to_be_bytes());
    }
    digest
}

// The digest of a message of n bytes that ends with `rest`, from the hash value of the blocks before: the whole blocks of `rest` are read where
// they lie; only what is left is copied, to be padded.
fn finish(start: [u32; 8], rest: &[u8], n: usize) -> Digest
    requires { (n ≤ max_hashed) × (length rest.now % 64 ≡ n % 64) }
    ensures { result ≡ digest_from start rest.now n }
{
    let (_, last) = rest.as_chunks::<64>();
    let end = (n % 64 + 72) / 64 * 64;
    let tail = pad(last, n, end);
    let h = hash_value(start, rest);
    digest_of(hash_value(h, &tail[..end]))
}

// SHA-256 of a message.
pub fn hash(message: &[u8]) -> Result<Digest, Cause>
    ensures { hashed result ≡ hash_of message.now }
{
    let n = message.len();
    if MAX_HASHED < n {
        return Err(Cause::Length);
    }
    Ok(finish(INITIAL, message, n))
}

// SHA-256 of the first `len` bytes of `front`, or of all its 64, with `rest` behind them. The caller need not put the message together: `rest` is
// read where it lies.
pub fn hash_with_front(front: [u8; 64], len: usize, rest: &[u8]) -> Result<Digest, Cause>
    ensures { hashed result ≡ hash_of (take len front ++ rest.now) }
{
    hash_behind(front, len.min(64), rest)
}

// The same for a front of k bytes.
fn hash_behind(front: [u8; 64], k: usize, rest: &[u8]) -> Result<Digest, Cause>
    requires { k ≤ 64 }
    ensures { hashed result ≡ hash_of (take k front ++ rest.now) }
{
    if MAX_HASHED - k < rest.len() {
        return Err(Cause::Length);
    }
    let n = k + rest.len();
    let first = first_block(front, k, rest);
    if n < 64 {
        return Ok(finish(INITIAL, &first[..n], n));
    }
    let h = compress(INITIAL, &first);
    let at = 64 - k;
    Ok(finish(h, &rest[at..], n))
}

// A block that begins with k bytes of `front` and then with as much of `rest` as it holds.
fn first_block(front: [u8; 64], k: usize, rest: &[u8]) -> [u8; 64]
    requires { k ≤ 64 }
    ensures { take (k + length rest.now) result ≡ take k front ++ take (64 - k) rest.now }
{
    let mut block = front;
    let len = rest.len().min(64 - k);
    block[k..k + len].copy_from_slice(&rest[..len]);
    block
}
