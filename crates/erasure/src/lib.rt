// The erasure code: a message becomes n shares, and any b = n - t of them give it back.
#![tactic(auto)]

ghost use Rattle.std.specs.Prelude.{◌≡◌, true, false, ◌++◌, ℕ, ◌+◌, ◌-◌, ◌*◌, ◌≤◌, ◌<◌, MatchOption, map, length, get_or, take, drop};
ghost use Rattle.std.specs.Int.Bits.{bit_xor};
ghost use Rattle.limits.specs.Limits.{max_parties, max_message, max_share};
ghost use Rattle.buffer.specs.Splice.{spliced};
ghost use Rattle.buffer.specs.Entries.{fills, bodies};
ghost use Rattle.gf256.specs.Field.{product};
ghost use Rattle.polynomial.specs.Polynomial.{factor, numerator, denominator, basis};
ghost use Rattle.erasure.specs.Bytes.{bytes};
ghost use Rattle.buffer.specs.Given.{said, gave};
ghost use Rattle.erasure.specs.Coding.{share_length, headed, share_of, encode_of};
ghost use Rattle.erasure.specs.Rebuild.{present, point, cause, message, framed, joined, recovered, other, unframed, answered, rebuild_of, parts_at, lies, all_lie, rebuild_at_of};
ghost use Rattle.erasure.specs.Arrays.{shares_of, slices, points, number_of, size_of};

use buffer::Written;
use cause::{Cause, Refusal};
use limits::{MAX_ENTRY, MAX_MESSAGE, MAX_PARTIES, MAX_SHARE};

// The greatest length of a frame: fewer than b zeros follow the message.
const MAX_FRAME: usize = MAX_SHARE + MAX_PARTIES;

// Writes shares 1 to n of a message, one behind the other.
#[tactic(auto, using(crate::proofs::Outcomes::group_fits))]
pub fn encode(n: usize, t: usize, message: &[u8], out: &mut [u8]) -> Written
    ensures { gave (said result) out.new ≡ encode_of n t message.now out.old }
{
    limits::check_group(n, t)?;
    if MAX_MESSAGE < message.len() {
        return Err(Refusal::Because(Cause::Length));
    }
    let b = n - t;
    let s = share_length(b, message.len());
    let need = n * s;
    if out.len() < need {
        return Err(Refusal::Short(need));
    }
    let mut frame = [0; MAX_FRAME];
    frame_of(message, &mut frame);
    write_shares(&frame, n, b, s, out);
    Ok(need)
}

// The length of each share of a message of `len` bytes in b blocks.
fn share_length(b: usize, len: usize) -> usize
    requires { (1 ≤ b) × (b ≤ max_parties) × (len ≤ max_message) }
    ensures { result ≡ share_length b len }
{
    (len + 2).div_ceil(b)
}

// Writes the frame of a message into an array of zeros of the caller's, as is done with that of shares: given back by value, one lies on the stack twice and more.
fn frame_of(message: &[u8], frame: &mut [u8; MAX_FRAME])
    requires { (length message.now ≤ max_message) × ((i : ℕ) → get_or frame.old i 0 ≡ 0) }
    ensures { (i : ℕ) → get_or frame.new i 0 ≡ get_or (headed message.now) i 0 }
{
    let len = message.len();
    frame[..2].copy_from_slice(&(len as u16).to_be_bytes());
    frame[2..len + 2].copy_from_slice(message);
}

// Horner's rule on each byte of a row: j times it, and the byte of a block.
fn add_block(row: &mut [u8], block: &[u8], j: u8)
    requires { length block.now ≡ length row.old }
    ensures { (c : ℕ) → c < length row.old → get_or row.new c 0
        ≡ bit_xor (get_or block.now c 0) (product j (get_or row.old c 0)) }
{
    for (c, x) in row.iter_mut().enumerate() {
        *x = block[c] ^ gf256::mul_bits(j, *x);
    }
}

// Writes share j: by Horner's rule from the last block down, a whole block at a time.
fn write_share(frame: &[u8], b: usize, j: u8, share: &mut [u8])
    requires { b * length share.old ≤ length frame.now }
    ensures { share.new ≡ share_of b (length share.old) frame.now j }
{
    let s = share.len();
    share.fill(0);
    for k in (0..b).rev() {
        let at = k * s;
        add_block(share, &frame[at..at + s], j);
    }
}

// Writes shares 1 to n from the start of out.
fn write_shares(frame: &[u8], n: usize, b: usize, s: usize, out: &mut [u8])
    requires { (n ≤ max_parties) × (b * s ≤ length frame.now) × (n * s ≤ length out.old) }
    ensures { out.new ≡ spliced out.old 0 (shares_of n b s frame.now) }
{
    for j in 0..n {
        let at = j * s;
        write_share(frame, b, (j + 1) as u8, &mut out[at..at + s]);
    }
}

// Writes the message that n entries give.
#[tactic(auto, using(crate::proofs::Outcomes::group_fits))]
pub fn rebuild(n: usize, t: usize, entries: &[u8], out: &mut [u8]) -> Written
    ensures { gave (said result) out.new ≡ rebuild_of n t entries.now out.old }
{
    limits::check_group(n, t)?;
    if !buffer::laid_out(entries, n) {
        return Err(Refusal::Because(Cause::Layout));
    }
    let shares = shares_in(entries, n);
    recover(&shares.each[..n], n - t, out)
}

// Where a share lies in bytes: it begins here and is so long; a length of 0 is a missing one.
#[derive(Clone, Copy)]
pub struct Place {
    pub from: usize,
    pub len: usize,
}

// Where the shares lie, for numbers 1 on.
pub type Places = [Place; MAX_PARTIES];

// Writes the message that n shares give, where they lie in two strings of bytes; places count on from the first into the second.
#[tactic(auto, using(crate::proofs::Outcomes::group_fits))]
pub fn rebuild_at(
    n: usize,
    t: usize,
    first: &[u8],
    second: &[u8],
    places: Places,
    out: &mut [u8],
) -> Written
    ensures { gave (said result) out.new
        ≡ rebuild_at_of n t first.now second.now places out.old }
{
    limits::check_group(n, t)?;
    let shares = shares_at(first, second, &places[..n]).ok_or(Cause::Layout)?;
    recover(&shares.each[..n], n - t, out)
}

// A share for each number from 1 on; no bytes for a missing one.
#[derive(Clone, Copy)]
struct Shares<'a> {
    each: [&'a [u8]; MAX_PARTIES],
}

// The bytes of n entries.
#[tactic(auto, using(crate::proofs::Points::entry_inside))]
fn shares_in(entries: &[u8], n: usize) -> Shares
    requires { (fills n entries.now ≡ true) × (n ≤ max_parties) }
    ensures { slices (take n result.each) ≡ bodies n entries.now }
{
    let mut each: [&[u8]; MAX_PARTIES] = [&[]; MAX_PARTIES];
    let mut rest = entries;
    for i in 0..n {
        let end = 2 + buffer::size_at(rest, 0);
        each[i] = &rest[2..end];
        rest = &rest[end..];
    }
    Shares { each }
}

// The bytes of shares where they lie, unless one does not lie well.
fn shares_at<'a>(first: &'a [u8], second: &'a [u8], places: &[Place]) -> Option<Shares<'a>>
    requires { length places.now ≤ max_parties }
    ensures { MatchOption result (all_lie (length places.now) (length first.now) (length second.now) places.now ≡ false)
        (λ shares. (all_lie (length places.now) (length first.now) (length second.now) places.now ≡ true)
        × (slices (take (length places.now) shares.each) ≡ parts_at (length places.now) (first.now ++ second.now) places.now)) }
{
    let mut each: [&[u8]; MAX_PARTIES] = [&[]; MAX_PARTIES];
    for (i, place) in places.iter().enumerate() {
        each[i] = share_at(first, second, *place)?;
    }
    Some(Shares { each })
}

// The bytes at a place: none, or as many as an entry may have, whole in one of two strings, the second behind the first.
fn share_at<'a>(first: &'a [u8], second: &'a [u8], place: Place) -> Option<&'a [u8]>
    ensures { MatchOption result (lies (length first.now) (length second.now) place.from place.len ≡ false)
        (λ share. (lies (length first.now) (length second.now) place.from place.len ≡ true)
        × (share.now ≡ take place.len (drop place.from (first.now ++ second.now)))) }
{
    let Place { from, len } = place;
    if len == 0 {
        return Some(&[]);
    }
    if MAX_ENTRY < len {
        return None;
    }
    if from < first.len() {
        first[from..].get(..len)
    } else {
        second.get(from - first.len()..)?.get(..len)
    }
}

// A share that is present, with its number.
#[derive(Clone, Copy)]
struct Share<'a> {
    number: u8,
    bytes: &'a [u8],
}

// The shares to use, from the lowest number on.
#[derive(Clone, Copy)]
struct Used<'a> {
    shares: [Share<'a>; MAX_PARTIES],
}

// Writes the message that shares 1 on give, of which b are used.
fn recover(shares: &[&[u8]], b: usize, out: &mut [u8]) -> Written
    requires { (1 ≤ b) × (b ≤ length shares.now) × (length shares.now ≤ max_parties) }
    ensures { gave (said result) out.new ≡ answered (recovered b (present 1 (slices shares.now))) out.old }
{
    let lowest = lowest_present(shares, b).ok_or(Cause::TooFew)?;
    let used = &lowest.shares[..b];
    let s = size_of(used).ok_or(Cause::NoMessage)?;
    let mut frame = [0; MAX_FRAME];
    whole_frame(used, s, &mut frame);
    let message = message_in(&frame[..b * s], b, s).ok_or(Cause::NoMessage)?;
    buffer::give(message, out)
}

// The length that all shares have, unless they are unequal in length or no frame is so long.
fn size_of(shares: &[Share]) -> Option<usize>
    requires { (1 ≤ length shares.now) × (length shares.now ≤ max_parties) }
    ensures { MatchOption result (joined (length shares.now) (size_of shares.now) (points shares.now) ≡ cause 12)
        (λ s. (s ≡ size_of shares.now) × (other s (map (λ p. length p.share) (points shares.now)) ≡ false)
        × (length shares.now * s ≤ max_share + max_parties)) }
{
    let s = shares[0].bytes.len();
    if uneven(shares, s) || MAX_SHARE < s || MAX_FRAME < shares.len() * s {
        return None;
    }
    Some(s)
}

// Whether a share is not s bytes long.
fn uneven(shares: &[Share], s: usize) -> bool
    ensures { result ≡ other s (map (λ p. length p.share) (points shares.now)) }
{
    shares.iter().any(|share| share.bytes.len() != s)
}

// The b lowest-numbered present shares at the start of an array, unless fewer are present.
fn lowest_present<'a>(shares: &[&'a [u8]], b: usize) -> Option<Used<'a>>
    requires { length shares.now ≤ max_parties }
    ensures { MatchOption result (length (present 1 (slices shares.now)) < b)
        (λ lowest. (b ≤ length (present 1 (slices shares.now)))
        × (points (take b lowest.shares) ≡ take b (present 1 (slices shares.now)))) }
{
    let none = Share {
        number: 0,
        bytes: &[],
    };
    let mut lowest = [none; MAX_PARTIES];
    let mut count = 0;
    for (i, bytes) in shares.iter().enumerate() {
        if bytes.len() != 0 {
            lowest[count] = Share {
                number: (i + 1) as u8,
                bytes,
            };
            count += 1;
        }
    }
    if count < b {
        return None;
    }
    Some(Used { shares: lowest })
}

// Multiplies a polynomial by (X + r), up to the coefficients that there can be.
fn times_factor(w: &mut [u8; MAX_PARTIES], r: u8)
    ensures { (k : ℕ) → k < max_parties → get_or w.new k 0 ≡ factor bytes r (λ i. get_or w.old i 0) k }
{
    let mut row = *w;
    gf256::mul_row(r, &mut row);
    let mut below = 0;
    for (k, x) in w.iter_mut().enumerate() {
        let old = *x;
        *x = below ^ row[k];
        below = old;
    }
}

// The product of (X + x) over the numbers x of the shares but share i.
fn numerator_of(shares: &[Share], i: usize) -> [u8; MAX_PARTIES]
    ensures { (k : ℕ) → k < max_parties
        → get_or result k 0 ≡ numerator bytes (length shares.now) (number_of shares.now) i k }
{
    let mut w = [0; MAX_PARTIES];
    w[0] = 1;
    for (m, share) in shares.iter().enumerate() {
        if m != i {
            times_factor(&mut w, share.number);
        }
    }
    w
}

// Its value at number i.
fn denominator_of(shares: &[Share], i: usize) -> u8
    requires { (length shares.now ≤ max_parties) × (i < length shares.now) }
    ensures { result ≡ denominator bytes (length shares.now) (number_of shares.now) i }
{
    let x = shares[i].number;
    let mut factors = [0; MAX_PARTIES];
    let mut len = 0;
    for (m, share) in shares.iter().enumerate() {
        if m != i {
            factors[len] = x ^ share.number;
            len += 1;
        }
    }
    gf256::row_product(&factors[..len])
}

// The coefficients of Lagrange's polynomial for share i: worked out once, they serve every byte of the share.
fn basis_of(shares: &[Share], i: usize) -> [u8; MAX_PARTIES]
    requires { (length shares.now ≤ max_parties) × (i < length shares.now) }
    ensures { (k : ℕ) → k < max_parties
        → get_or result k 0 ≡ basis bytes (length shares.now) (number_of shares.now) i k }
{
    let mut w = numerator_of(shares, i);
    let d = gf256::inv(denominator_of(shares, i));
    gf256::mul_row(d, &mut w);
    w
}

// Adds a times a share to a block.
fn add_multiple(block: &mut [u8], share: &[u8], a: u8)
    requires { length share.now ≡ length block.old }
    ensures { (c : ℕ) → c < length block.old → get_or block.new c 0
        ≡ bit_xor (get_or block.old c 0) (product a (get_or share.now c 0)) }
{
    for (c, x) in block.iter_mut().enumerate() {
        *x ^= gf256::mul_bits(a, share[c]);
    }
}

// Adds a share to each block of a frame, times the block's coefficient.
fn add_share(frame: &mut [u8], coefficients: &[u8], share: &[u8])
    requires { length coefficients.now * length share.now ≤ length frame.old }
    ensures { (k c : ℕ) → k < length coefficients.now → c < length share.now
        → get_or frame.new (k * length share.now + c) 0
        ≡ bit_xor (get_or frame.old (k * length share.now + c) 0)
        (product (get_or coefficients.now k 0) (get_or share.now c 0)) }
{
    let s = share.len();
    for (k, a) in coefficients.iter().enumerate() {
        let at = k * s;
        add_multiple(&mut frame[at..at + s], share, *a);
    }
}

// Writes the frame of shares of s bytes to the start of an array of zeros: they are added one after the other.
fn whole_frame(shares: &[Share], s: usize, frame: &mut [u8; MAX_FRAME])
    requires { (length shares.now ≤ max_parties) × (length shares.now * s ≤ max_share + max_parties)
        × ((m : ℕ) → m < length shares.now → length (point (points shares.now) m).share ≡ s)
        × ((i : ℕ) → get_or frame.old i 0 ≡ 0) }
    ensures { take (length shares.now * s) frame.new ≡ framed (length shares.now) s (points shares.now) }
{
    let b = shares.len();
    for (m, share) in shares.iter().enumerate() {
        let row = basis_of(shares, m);
        add_share(frame, &row[..b], share.bytes);
    }
}

// The message in a frame of b blocks of s bytes, unless the frame is none.
fn message_in(frame: &[u8], b: usize, s: usize) -> Option<&[u8]>
    requires { (1 ≤ b) × (b ≤ max_parties) × (length frame.now ≡ b * s) }
    ensures { MatchOption result (unframed b s frame.now ≡ cause 12)
        (λ found. unframed b s frame.now ≡ message found.now) }
{
    if frame.len() < 2 {
        return None;
    }
    let len = usize::from(u16::from_be_bytes([frame[0], frame[1]]));
    if MAX_MESSAGE < len {
        return None;
    }
    if s != share_length(b, len) {
        return None;
    }
    let end = len + 2;
    if nonzero(&frame[end..]) {
        return None;
    }
    Some(&frame[2..end])
}

// Whether a byte is not 0.
fn nonzero(bytes: &[u8]) -> bool
    ensures { result ≡ other 0 bytes.now }
{
    bytes.iter().any(|x| *x != 0)
}
