// The packets and the inbox layout.
//
// Reads: n (2 bytes), a place (8), the bytes. What is read of the packet from the place to the end, and of that of the entry at the place:
// each the answer (done with 1 for a share and 0 for silence), and the share's number, place and length and the count of hashes (8 each, 0
// where there is no share). Then the place of the next entry (8).
// Judgements: the session's number (4), n (2), j (2), the root (32), what was read (1: 0 for silence, 1 for a share, 2 for no packet) with the
// share's number, place and length and the count of hashes (8 each), the bytes. The answer (done with 0 for a silent, 1 for a valid and 2 for a
// faulty packet).
// Inboxes: n (1), the inbox. 1 if it is well laid out, else 0 (1).
// Writes: n (2), the number (2), the count of hashes (1), the length of the buffer lent (2), the path's four hashes, the share. The
// answer, and the buffer; then the same of the packet's entry, for which the buffer has two bytes more.
use crate::answer::{ANSWER, Answer, byte_at, number_at, room};
use cause::Cause;
use commitment::MAX_PACKET;
use limits::MAX_PATH;
use packet::{Entry, Judged, Read, Share};

// The length of what is told of a packet that is read.
const TOLD: usize = ANSWER + 32;

// The bytes of a reading in front of those that are read.
const READ: usize = 10;

// The bytes of a judgement in front of the root, of what was read, and of the bytes that it was read from.
const NUMBERS: usize = 8;

const DEMAND: usize = NUMBERS + 32;

const JUDGED: usize = DEMAND + 33;

// The bytes of a writing in front of its path and of its share.
const AT_PATH: usize = 7;

const AT_SHARE: usize = AT_PATH + MAX_PATH * 32;

// The greatest length of a buffer lent: more than any packet needs.
const MAX_ROOM: usize = 2 * MAX_PACKET;

pub(crate) fn read(input: &[u8], out: &mut [u8]) -> Option<usize> {
    let (front, bytes) = input.split_at_checked(READ)?;
    let n = number_at(front, 0, 2);
    let at = number_at(front, 2, 8);
    let Entry { packet, next } = packet::read_entry(n, bytes, at);
    buffer::put(out, 0, &told(packet::read_at(n, bytes, at)));
    buffer::put(out, TOLD, &told(packet));
    buffer::put(out, 2 * TOLD, &next.to_be_bytes());
    Some(2 * TOLD + 8)
}

// What is told of a packet.
fn told(got: Read) -> [u8; TOLD] {
    let mut bytes = [0u8; TOLD];
    let answer = match got {
        Ok(Some(share)) => {
            buffer::put(&mut bytes, ANSWER, &numbers(share));
            Answer::Done(1)
        }
        Ok(None) => Answer::Done(0),
        Err(cause) => Answer::from(cause),
    };
    answer.put(&mut bytes, 0);
    bytes
}

// What is told of a share.
fn numbers(share: Share) -> [u8; 32] {
    let mut bytes = [0u8; 32];
    buffer::put(&mut bytes, 0, &share.number.to_be_bytes());
    buffer::put(&mut bytes, 8, &share.from.to_be_bytes());
    buffer::put(&mut bytes, 16, &share.len.to_be_bytes());
    buffer::put(&mut bytes, 24, &share.count.to_be_bytes());
    bytes
}

pub(crate) fn judge(input: &[u8], out: &mut [u8]) -> Option<usize> {
    let (front, bytes) = input.split_at_checked(JUDGED)?;
    let got = packet::judge(
        buffer::number_at(front, 0),
        number_at(front, 4, 2),
        number_at(front, 6, 2),
        &front[NUMBERS..DEMAND],
        bytes,
        found(&front[DEMAND..]),
    );
    judged(got).put(out, 0);
    Some(ANSWER)
}

// What a case says was read.
fn found(bytes: &[u8]) -> Read {
    match byte_at(bytes, 0) {
        0 => Ok(None),
        2 => Err(Cause::Unreadable),
        _ => Ok(Some(Share {
            number: number_at(bytes, 1, 8),
            from: number_at(bytes, 9, 8),
            len: number_at(bytes, 17, 8),
            count: number_at(bytes, 25, 8),
        })),
    }
}

fn judged(got: Result<Judged, Cause>) -> Answer {
    match got {
        Ok(Judged::Silent) => Answer::Done(0),
        Ok(Judged::Valid) => Answer::Done(1),
        Ok(Judged::Faulty) => Answer::Done(2),
        Err(cause) => Answer::from(cause),
    }
}

pub(crate) fn inbox(input: &[u8], out: &mut [u8]) -> Option<usize> {
    let (n, entries) = input.split_first()?;
    let well = buffer::laid_out(entries, usize::from(*n));
    buffer::put(out, 0, &[u8::from(well)]);
    Some(1)
}

pub(crate) fn write(input: &[u8], out: &mut [u8]) -> Option<usize> {
    let (front, share) = input.split_at_checked(AT_SHARE)?;
    let room = room(number_at(front, 5, 2), MAX_ROOM)?;
    let behind = ANSWER + room;
    let from = behind + ANSWER;
    let end = from + room + 2;
    let n = number_at(front, 0, 2);
    let number = number_at(front, 2, 2);
    let count = number_at(front, 4, 1);
    let path = packet::path_at(front, AT_PATH, MAX_PATH);
    let alone = packet::write(n, number, share, path, count, out.get_mut(ANSWER..behind)?);
    let entry = packet::write_entry(n, number, share, path, count, out.get_mut(from..end)?);
    Answer::from(alone).put(out, 0);
    Answer::from(entry).put(out, behind);
    Some(end)
}
