// SHA-256 and the tree.
//
// Hashes: the string. The cause (1 byte) and the digest (32).
// Trees: the session's number (4), n (1), the shares. The cause (1), the root (32), and for each leaf the answer to its path's length, and
// the path's four hashes.
// Checks: the session's number (4), n (2), j (2), the count told to the check (1), the root's length (1), the path's four hashes, the root,
// the share. The answer: done with 1 for yes and 0 for no.
// Path lengths: n (1). For each leaf the answer to its path's length.
// The cause is 0 where there is none, and digest and root are zeros where there is one.
ghost use Rattle.std.specs.Prelude.{◌≤◌, IfSome};
ghost use Rattle.limits.specs.Limits.{max_parties};

use crate::answer::{ANSWER, Answer, byte_at, number_at};
use cause::Cause;
use limits::{MAX_PARTIES, MAX_PATH};
use merkle::Hash;

// The length of a path's hashes, and the same with the answer to its length.
const PATH: usize = MAX_PATH * 32;

const LEAF: usize = ANSWER + PATH;

// The bytes of a tree in front of its shares, and of its outcome in front of the paths.
const FRONT: usize = 5;

const TOP: usize = 33;

// The places of the path and of the root in a check.
const AT_PATH: usize = 10;

const AT_ROOT: usize = AT_PATH + PATH;

pub(crate) fn hash(string: &[u8], out: &mut [u8]) -> Option<usize> {
    let got = sha256::hash(string);
    buffer::put(out, 0, &[cause_byte(got.err())]);
    buffer::put(out, 1, &got.unwrap_or([0; 32]));
    Some(33)
}

// Document 01's number of a cause, or 0.
fn cause_byte(cause: Option<Cause>) -> u8 {
    match cause {
        Some(cause) => u8::from(cause),
        None => 0,
    }
}

pub(crate) fn tree(input: &[u8], out: &mut [u8]) -> Option<usize> {
    let (front, shares) = input.split_at_checked(FRONT)?;
    let session = buffer::number_at(front, 0);
    let n = parties(byte_at(front, 4))?;
    let cause = merkle::check_shares(session, n, shares.len()).err();
    let leaves = merkle::leaves(session, n, shares);
    buffer::put(out, 0, &[cause_byte(cause)]);
    buffer::put(out, 1, &merkle::root(n, &leaves).unwrap_or([0; 32]));
    put_paths(n, &leaves, out);
    Some(TOP + n * LEAF)
}

// The number of leaves of a tree, if there may be as many.
fn parties(n: u8) -> Option<usize>
    ensures { IfSome result (λ n. n ≤ max_parties) }
{
    let n = usize::from(n);
    (n <= MAX_PARTIES).then_some(n)
}

// Each leaf's path, with the answer to its length, behind the root.
fn put_paths(n: usize, leaves: &[Hash; MAX_PARTIES], out: &mut [u8])
    requires { n ≤ max_parties }
{
    for j in 0..n {
        let at = TOP + j * LEAF;
        Answer::from(merkle::path_length(n, j + 1)).put(out, at);
        let path = merkle::path(n, j + 1, leaves);
        buffer::put(out, at + ANSWER, path.as_flattened());
    }
}

pub(crate) fn check(input: &[u8], out: &mut [u8]) -> Option<usize> {
    let (front, rest) = input.split_at_checked(AT_ROOT)?;
    let (root, share) = rest.split_at_checked(number_at(front, 9, 1))?;
    let got = merkle::check(
        buffer::number_at(front, 0),
        number_at(front, 4, 2),
        number_at(front, 6, 2),
        share,
        packet::path_at(front, AT_PATH, MAX_PATH),
        number_at(front, 8, 1),
        root,
    );
    Answer::from(got).put(out, 0);
    Some(ANSWER)
}

// The path lengths of all leaves of one tree.
pub(crate) fn path_lengths(input: &[u8], out: &mut [u8]) -> Option<usize> {
    let n = parties(byte_at(input, 0))?;
    for j in 0..n {
        Answer::from(merkle::path_length(n, j + 1)).put(out, j * ANSWER);
    }
    Some(n * ANSWER)
}
