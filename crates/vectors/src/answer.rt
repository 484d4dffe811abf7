// What the modules of cases share: numbers in what is handed in, and the answers of calls in what comes of it.
ghost use Rattle.std.specs.Prelude.{◌≤◌, IfSome};

use cause::{Cause, Refusal};

// The length of an answer in bytes: its code (1) and its value (8).
pub(crate) const ANSWER: usize = 9;

// What a call answered.
#[derive(Clone, Copy, Debug, PartialEq, Eq)]
pub(crate) enum Answer {
    // With the bytes written or another result.
    Done(usize),
    Nothing,
    // With the length needed.
    Short(usize),
    Refused(Cause),
}

impl Answer {
    // The codes: 0 done, 1 nothing, 2 short, 3 refused, whose value is document 01's number of the cause.
    pub(crate) fn bytes(self) -> [u8; ANSWER] {
        let (code, value) = match self {
            Answer::Done(value) => (0, value),
            Answer::Nothing => (1, 0),
            Answer::Short(needed) => (2, needed),
            Answer::Refused(cause) => (3, usize::from(u8::from(cause))),
        };
        let mut bytes = [code; ANSWER];
        buffer::put(&mut bytes, 1, &value.to_be_bytes());
        bytes
    }

    // Writes it from a place on.
    pub(crate) fn put(self, out: &mut [u8], at: usize) {
        buffer::put(out, at, &self.bytes());
    }
}

impl From<Cause> for Answer {
    fn from(cause: Cause) -> Answer {
        Answer::Refused(cause)
    }
}

impl From<Refusal> for Answer {
    fn from(refusal: Refusal) -> Answer {
        match refusal {
            Refusal::Because(cause) => Answer::Refused(cause),
            Refusal::Short(needed) => Answer::Short(needed),
        }
    }
}

impl<T: Into<usize>, E: Into<Answer>> From<Result<T, E>> for Answer {
    fn from(got: Result<T, E>) -> Answer {
        match got {
            Ok(value) => Answer::Done(value.into()),
            Err(why) => why.into(),
        }
    }
}

// The byte at a place; 0 past the end.
pub(crate) fn byte_at(bytes: &[u8], at: usize) -> u8 {
    match bytes.get(at) {
        Some(byte) => *byte,
        None => 0,
    }
}

// The number in so many bytes from a place on; 0 where there are fewer.
pub(crate) fn number_at(bytes: &[u8], at: usize, width: usize) -> usize {
    match bytes.get(at..).and_then(|rest| rest.get(..width)) {
        Some(part) => stream::number(part),
        None => 0,
    }
}

// The length of a buffer lent, which a kind bounds.
pub(crate) fn room(len: usize, most: usize) -> Option<usize>
    ensures { IfSome result (λ room. room ≤ most) }
{
    (len <= most).then_some(len)
}

// SHA-256 of a string; zeros where it is longer than any that is hashed.
pub(crate) fn digest(string: &[u8]) -> [u8; 32] {
    sha256::hash(string).unwrap_or([0; 32])
}
