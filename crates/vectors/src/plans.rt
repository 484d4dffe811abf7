// Rehearsals.
//
// Handed in: the plan. What comes of it: the answer, and the digest of the text that is printed (32 bytes). The text may be longer than a
// string that is hashed, so that SHA-256 is taken of its first MAX_HASHED bytes and of the others, and then of these two digests.
use crate::answer::{ANSWER, Answer, digest};
use limits::MAX_HASHED;

// The bytes in front of the place that the text is printed at.
pub(crate) const FRONT: usize = ANSWER + 32;

pub(crate) fn rehearse(plan: &[u8], out: &mut [u8]) -> Option<usize> {
    let text = out.get_mut(FRONT..)?;
    let len = session::print(plan, text).ok()?;
    let digest = digest_of(text.get(..len)?);
    Answer::Done(len).put(out, 0);
    buffer::put(out, ANSWER, &digest);
    Some(FRONT)
}

// The digest of a text.
fn digest_of(text: &[u8]) -> [u8; 32] {
    let (first, second) = text.split_at(text.len().min(MAX_HASHED));
    digest([digest(first), digest(second)].as_flattened())
}
