// One party, call after call.
//
// The party and an inbox are carried from case to case, each call taking the state that the last one gave back.
// Openings: the session's number (4 bytes), n, t and own (8 each), the message. The verdict, and the root (32, zero if refused).
// Openings by a sender: the session's number (4), n, t, own and the sender's number (8 each), the length of the buffer lent (2), the sender's
// own message or the packet that came. The verdict, the root as before, and how many bytes were written, or are needed with cause 9 (8, zero
// with other causes).
// Agreed roots, step 2: the root. The verdict.
// Agreed bits, step 3: the bit (2), the length of the buffer lent (2). The verdict.
// First inboxes, step 4, and second inboxes, step 5: how many bytes of the inbox are handed in (2), the length of the buffer lent
// (2). The verdict; for step 5 also the map given with the result (4, zero where none is given).
// Numbers changed: where (1: 0 n, 1 t, 2 own, 3 len, 4 held, 5 the session's, 6 the map of the parties seen to cheat), the number (8; of the
// last two the low four bytes count). Nothing.
// Stages changed: which (1: 0 root, 1 bit, 2 first, 3 second, 4 ended with nothing, 5 with a message), that message's length (8).
// Nothing.
// Bytes changed: where (1: 0 message, 1 root, 2 share, 3 the inbox), from which place (2), the bytes. Nothing.
// The verdict: the answer, and SHA-256 (32) of the state given back with SHA-256 of the buffer behind it, which is empty where none is
// lent. The state for it: the session's number (4), the map (4), n, t, own (8 each), the stage as in a change (1) with its message's length or 0
// (8), len, held (8 each), the root, the message's MAX_MESSAGE bytes and the share's MAX_SHARE.
use crate::answer::{ANSWER, Answer, byte_at, digest, number_at, room};
use cause::Refusal;
use commitment::{MAX_OUTBOX, Seat};
use limits::{MAX_MESSAGE, MAX_SHARE};
use party::{Begun, Opened, OpenedBySender, Party, Reply, Stage};

// The greatest length of an inbox: packets of the longest message, or a few of the longest packets, with bytes over.
const MAX_INBOX: usize = 2 * MAX_OUTBOX;

// The greatest length of a buffer lent: more than any outbox needs.
const MAX_ROOM: usize = 2 * MAX_OUTBOX;

// The length of a verdict, and of what is told of step 5 and of an opening by a sender.
const VERDICT: usize = ANSWER + 32;

const ENDED: usize = VERDICT + 4;

const BEGUN: usize = VERDICT + 40;

// The bytes of an opening, and of one by a sender, in front of what the party is handed.
const AT_OPENING: usize = 28;

const AT_BYTES: usize = 38;

// The length of the numbers at the start of what a digest is taken of, the places of what follows the root, and the whole length.
const NUMBERS: usize = 57;

const AT_MESSAGE: usize = NUMBERS + 32;

const AT_SHARE: usize = AT_MESSAGE + MAX_MESSAGE;

const AT_LENT: usize = AT_SHARE + MAX_SHARE;

const DIGESTED: usize = AT_LENT + 32;

// What a case finds.
#[derive(Drop)]
pub(crate) struct World {
    state: Party,
    inbox: [u8; MAX_INBOX],
}

impl World {
    // What the first case finds.
    pub(crate) fn blank() -> World {
        World {
            state: Party {
                seat: Seat {
                    session: 0,
                    n: 0,
                    t: 0,
                    own: 0,
                },
                stage: Stage::Root,
                message: [0; MAX_MESSAGE],
                len: 0,
                root: [0; 32],
                share: [0; MAX_SHARE],
                held: 0,
                faulty: 0,
            },
            inbox: [0; MAX_INBOX],
        }
    }
}

pub(crate) fn open(world: &mut World, input: &[u8], out: &mut [u8]) -> Option<usize> {
    let (front, message) = input.split_at_checked(AT_OPENING)?;
    let Opened { state, root } = Party::open(
        buffer::number_at(front, 0),
        number_at(front, 4, 8),
        number_at(front, 12, 8),
        number_at(front, 20, 8),
        message,
    );
    world.state = state;
    let answer = Answer::from(root.map(|_| 0usize));
    buffer::put(out, 0, &verdict(&world.state, answer, b""));
    buffer::put(out, VERDICT, &root.unwrap_or([0; 32]));
    Some(VERDICT + 32)
}

// An opening by a sender. The buffer lent lies behind what is told.
pub(crate) fn open_by_sender(world: &mut World, input: &[u8], out: &mut [u8]) -> Option<usize> {
    let (front, bytes) = input.split_at_checked(AT_BYTES)?;
    let end = BEGUN + room(number_at(front, 36, 2), MAX_ROOM)?;
    let lent = out.get_mut(BEGUN..end)?;
    let OpenedBySender { state, answer } = Party::open_by_sender(
        buffer::number_at(front, 0),
        number_at(front, 4, 8),
        number_at(front, 12, 8),
        number_at(front, 20, 8),
        number_at(front, 28, 8),
        bytes,
        lent,
    );
    world.state = state;
    let written = answer.map(|begun| begun.len);
    let bytes = verdict(&world.state, Answer::from(written), lent);
    buffer::put(out, 0, &bytes);
    buffer::put(out, VERDICT, &root_of(answer));
    buffer::put(out, VERDICT + 32, &buffer::value_of(written).to_be_bytes());
    Some(BEGUN)
}

fn root_of(answer: Result<Begun, Refusal>) -> [u8; 32] {
    match answer {
        Ok(begun) => begun.root,
        Err(_) => [0; 32],
    }
}

pub(crate) fn agree_root(world: &mut World, root: &[u8], out: &mut [u8]) -> Option<usize> {
    let Reply { state, answer } = world.state.agree_root(root);
    world.state = state;
    buffer::put(out, 0, &verdict(&world.state, answered(answer), b""));
    Some(VERDICT)
}

fn answered(answer: Result<party::Answer, Refusal>) -> Answer {
    match answer {
        Ok(party::Answer::Happy(happy)) => Answer::Done(usize::from(happy)),
        Ok(party::Answer::Sent(len)) => Answer::Done(len),
        Ok(party::Answer::Nothing(_)) => Answer::Nothing,
        Ok(party::Answer::Message(len, _)) => Answer::Done(len),
        Err(refusal) => Answer::from(refusal),
    }
}

// The map given with a result, 0 with any other answer.
fn map_given(answer: Result<party::Answer, Refusal>) -> u32 {
    match answer {
        Ok(party::Answer::Nothing(faulty) | party::Answer::Message(_, faulty)) => faulty,
        _ => 0,
    }
}

pub(crate) fn agree_bit(world: &mut World, input: &[u8], out: &mut [u8]) -> Option<usize> {
    let bit = number_at(input, 0, 2);
    step(world, input, out, |own, _, lent| own.agree_bit(bit, lent))?;
    Some(VERDICT)
}

pub(crate) fn take_shares(world: &mut World, input: &[u8], out: &mut [u8]) -> Option<usize> {
    step(world, input, out, Party::take_shares)?;
    Some(VERDICT)
}

// The map is told of step 5 alone.
pub(crate) fn take_relays(world: &mut World, input: &[u8], out: &mut [u8]) -> Option<usize> {
    let map = step(world, input, out, Party::take_relays)?;
    buffer::put(out, VERDICT, &map.to_be_bytes());
    Some(ENDED)
}

// A step that is handed as many bytes of the inbox as the case says, where step 3 has its bit, and a buffer, which lies behind the verdict and a map.
// The map that the step gave comes back.
fn step<F: Fn(Party, &[u8], &mut [u8]) -> Reply>(
    world: &mut World,
    input: &[u8],
    out: &mut [u8],
    call: F,
) -> Option<u32>
    requires { F.IsAlwaysCallable call }
{
    let inbox = world.inbox.get(..number_at(input, 0, 2))?;
    let end = ENDED + room(number_at(input, 2, 2), MAX_ROOM)?;
    let lent = out.get_mut(ENDED..end)?;
    let Reply { state, answer } = call(world.state, inbox, lent);
    world.state = state;
    let bytes = verdict(&world.state, answered(answer), lent);
    buffer::put(out, 0, &bytes);
    Some(map_given(answer))
}

fn verdict(state: &Party, answer: Answer, lent: &[u8]) -> [u8; VERDICT] {
    let mut bytes = [0u8; VERDICT];
    answer.put(&mut bytes, 0);
    buffer::put(&mut bytes, ANSWER, &digest_of(state, lent));
    bytes
}

// The digest that a verdict gives.
fn digest_of(state: &Party, lent: &[u8]) -> [u8; 32] {
    let mut text = [0u8; DIGESTED];
    buffer::put(&mut text, 0, &numbers(state));
    buffer::put(&mut text, NUMBERS, &state.root);
    buffer::put(&mut text, AT_MESSAGE, &state.message);
    buffer::put(&mut text, AT_SHARE, &state.share);
    buffer::put(&mut text, AT_LENT, &digest(lent));
    digest(&text)
}

// The state's numbers and its stage.
fn numbers(state: &Party) -> [u8; NUMBERS] {
    let mut bytes = [0u8; NUMBERS];
    let (stage, ended) = number_of(state.stage);
    buffer::put(&mut bytes, 0, &state.seat.session.to_be_bytes());
    buffer::put(&mut bytes, 4, &state.faulty.to_be_bytes());
    buffer::put(&mut bytes, 8, &state.seat.n.to_be_bytes());
    buffer::put(&mut bytes, 16, &state.seat.t.to_be_bytes());
    buffer::put(&mut bytes, 24, &state.seat.own.to_be_bytes());
    buffer::put(&mut bytes, 32, &[stage]);
    buffer::put(&mut bytes, 33, &ended.to_be_bytes());
    buffer::put(&mut bytes, 41, &state.len.to_be_bytes());
    buffer::put(&mut bytes, 49, &state.held.to_be_bytes());
    bytes
}

// A stage's number, and the length of the message that it ended with.
fn number_of(stage: Stage) -> (u8, usize) {
    match stage {
        Stage::Root => (0, 0),
        Stage::Bit => (1, 0),
        Stage::First => (2, 0),
        Stage::Second => (3, 0),
        Stage::Ended(None) => (4, 0),
        Stage::Ended(Some(len)) => (5, len),
    }
}

// The stage of a number, from 5 on one that ended with a message.
fn stage_of(number: u8, len: usize) -> Stage {
    match number {
        0 => Stage::Root,
        1 => Stage::Bit,
        2 => Stage::First,
        3 => Stage::Second,
        4 => Stage::Ended(None),
        _ => Stage::Ended(Some(len)),
    }
}

// Past the last number that can be changed, the map changes, and nothing comes of it.
pub(crate) fn change_number(world: &mut World, input: &[u8]) -> Option<usize> {
    let place = byte_at(input, 0);
    let number = number_at(input, 1, 8);
    let low = buffer::number_at(input, 5);
    match place {
        0 => world.state.seat.n = number,
        1 => world.state.seat.t = number,
        2 => world.state.seat.own = number,
        3 => world.state.len = number,
        4 => world.state.held = number,
        5 => world.state.seat.session = low,
        _ => world.state.faulty = low,
    }
    (place <= 6).then_some(0)
}

// Past the last stage, the last is taken, and nothing comes of it.
pub(crate) fn change_stage(world: &mut World, input: &[u8]) -> Option<usize> {
    let number = byte_at(input, 0);
    world.state.stage = stage_of(number, number_at(input, 1, 8));
    (number <= 5).then_some(0)
}

pub(crate) fn change_bytes(world: &mut World, input: &[u8]) -> Option<usize> {
    match byte_at(input, 0) {
        0 => put_bytes(&mut world.state.message, input),
        1 => put_bytes(&mut world.state.root, input),
        2 => put_bytes(&mut world.state.share, input),
        3 => put_bytes(&mut world.inbox, input),
        _ => None,
    }
}

// Changes bytes from a place on.
fn put_bytes(bytes: &mut [u8], input: &[u8]) -> Option<usize> {
    let (front, new) = input.split_at_checked(3)?;
    buffer::put(bytes, number_at(front, 1, 2), new).then_some(0)
}
