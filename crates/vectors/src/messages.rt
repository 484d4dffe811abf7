// Packets with a whole message.
//
// Message reads: the bytes. The answer (nothing for silence, done with the message's length).
// Message writes: the length of the buffer lent (2), the message. The answer, and the buffer.
use crate::answer::{ANSWER, Answer, number_at, room};
use packet::MAX_MESSAGE_PACKET;

// The bytes in front of a message that is written.
const FRONT: usize = 2;

// The greatest length of a buffer lent: more than any such packet needs.
const MAX_ROOM: usize = 2 * MAX_MESSAGE_PACKET;

pub(crate) fn read(input: &[u8], out: &mut [u8]) -> Option<usize> {
    let answer = match packet::read_message(input) {
        Ok(Some(len)) => Answer::Done(len),
        Ok(None) => Answer::Nothing,
        Err(cause) => Answer::from(cause),
    };
    answer.put(out, 0);
    Some(ANSWER)
}

pub(crate) fn write(input: &[u8], out: &mut [u8]) -> Option<usize> {
    let (front, message) = input.split_at_checked(FRONT)?;
    let end = ANSWER + room(number_at(front, 0, 2), MAX_ROOM)?;
    let got = packet::write_message(message, out.get_mut(ANSWER..end)?);
    Answer::from(got).put(out, 0);
    Some(end)
}
