// The field, the erasure code, and rebuilding with a root.
//
// Products: a (1 byte). Its 256 products with 0 to 255, on which the four functions that make products have to agree.
// Inverses: nothing. The 256 inverses of 0 to 255.
// Powers: a (1), k (8). The power (1).
// Encode and rebuild: n (2), t (2), the length of the buffer lent (4), the bytes. The answer, and the buffer.
// Rebuild with root: the session's number (4), n (2), t (2), the length of the buffer lent (4), the root's length (2), the root, the bytes.
// The answer, and the buffer.
use crate::answer::{ANSWER, Answer, byte_at, number_at, room};
use buffer::Written;
use limits::{MAX_PARTIES, MAX_SHARE};
use std::array;

// The greatest length of a buffer lent: about twice what all shares of the longest message need.
const MAX_ROOM: usize = 4 * (MAX_SHARE + MAX_PARTIES);

// The bytes in front of what is encoded or rebuilt, and of a root.
const FRONT: usize = 8;

const AT_ROOT: usize = 14;

// The products of a number: as a row, by themselves, without tables, and each as the product of a row of two.
pub(crate) fn products(input: &[u8], out: &mut [u8]) -> Option<usize> {
    let a = byte_at(input, 0);
    let mut row = all_bytes();
    gf256::mul_row(a, &mut row);
    let mut pairs = (0..=255).zip(&row);
    if !pairs.all(|(b, product)| is_product(*product, a, b)) {
        return None;
    }
    buffer::put(out, 0, &row);
    Some(256)
}

fn is_product(product: u8, a: u8, b: u8) -> bool {
    gf256::mul(a, b) == product
        && gf256::mul_bits(a, b) == product
        && gf256::row_product(&[a, b]) == product
}

pub(crate) fn inverses(out: &mut [u8]) -> Option<usize> {
    buffer::put(out, 0, &all_bytes().map(gf256::inv));
    Some(256)
}

// 0 to 255.
fn all_bytes() -> [u8; 256] {
    array::from_fn(|b| (b & 0xff) as u8)
}

pub(crate) fn power(input: &[u8], out: &mut [u8]) -> Option<usize> {
    let power = gf256::pow(byte_at(input, 0), number_at(input, 1, 8));
    buffer::put(out, 0, &[power]);
    Some(1)
}

pub(crate) fn encode(input: &[u8], out: &mut [u8]) -> Option<usize> {
    coding(input, out, erasure::encode)
}

pub(crate) fn rebuild(input: &[u8], out: &mut [u8]) -> Option<usize> {
    coding(input, out, erasure::rebuild)
}

// One call of the erasure code.
fn coding<F: Fn(usize, usize, &[u8], &mut [u8]) -> Written>(
    input: &[u8],
    out: &mut [u8],
    call: F,
) -> Option<usize>
    requires { F.IsAlwaysCallable call }
{
    let (front, bytes) = input.split_at_checked(FRONT)?;
    let end = ANSWER + room(number_at(front, 4, 4), MAX_ROOM)?;
    let lent = out.get_mut(ANSWER..end)?;
    let got = call(number_at(front, 0, 2), number_at(front, 2, 2), bytes, lent);
    Answer::from(got).put(out, 0);
    Some(end)
}

// A rebuilding with a root.
pub(crate) fn rebuild_with_root(input: &[u8], out: &mut [u8]) -> Option<usize> {
    let (front, rest) = input.split_at_checked(AT_ROOT)?;
    let (root, entries) = rest.split_at_checked(number_at(front, 12, 2))?;
    let end = ANSWER + room(number_at(front, 8, 4), MAX_ROOM)?;
    let lent = out.get_mut(ANSWER..end)?;
    let got = commitment::rebuild_with_root(
        buffer::number_at(front, 0),
        number_at(front, 4, 2),
        number_at(front, 6, 2),
        root,
        entries,
        lent,
    );
    Answer::from(got).put(out, 0);
    Some(end)
}
