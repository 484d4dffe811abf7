// The state of a party as bytes, which a host can keep between two calls.
#![tactic(auto)]

ghost use Rattle.std.specs.Prelude.{◌≡◌, cond, eqb, ◌+◌, ◌%◌, ◌≤◌, length, take, drop};
ghost use Rattle.buffer.specs.Given.{said, gave, written};
ghost use Rattle.party.specs.State.{blank_state};
ghost use Rattle.state_bytes.specs.Layout.{state_length, stage_number, length_for, head_of, state_bytes, stage_of, read_in, state_of};

use buffer::Written;
use cause::Refusal;
use commitment::Seat;
use limits::{MAX_MESSAGE, MAX_SHARE};
use party::{Party, Stage};

// The version of the layout, with which a state's bytes begin.
const VERSION: u8 = 4;

// Where the session's number stands, behind it the map of parties seen to be faulty, and behind that, as the last number, where the agreed root begins.
const SESSION: usize = 9;

const FAULTY: usize = SESSION + 4;

const ROOT: usize = FAULTY + 4;

// Where the message begins.
const HEAD: usize = ROOT + 32;

// Where the relayed share begins.
const SHARE: usize = HEAD + MAX_MESSAGE;

// The length of every state.
pub const LENGTH: usize = SHARE + MAX_SHARE;

// The state that bytes say; the blank one, which every step refuses, where they say none.
#[tactic(auto, unfolding(crate::specs::Layout::state_of))]
pub fn read(bytes: &[u8]) -> Party
    ensures { result ≡ state_of bytes.now }
{
    if bytes.len() < LENGTH {
        return blank();
    }
    if bytes[0] != VERSION {
        return blank();
    }
    if 5 < bytes[4] {
        return blank();
    }
    read_fields(bytes)
}

// A state at the start of a lent buffer; cause 9 where it is shorter.
pub fn write(x: Party, out: &mut [u8]) -> Written
    ensures { gave (said result) out.new ≡ written (state_bytes x) out.old }
{
    if out.len() < LENGTH {
        return Err(Refusal::Short(LENGTH));
    }
    let head = head_of(x);
    buffer::put(out, 0, &head);
    buffer::put(out, ROOT, &x.root);
    buffer::put(out, HEAD, &x.message);
    buffer::put(out, SHARE, &x.share);
    Ok(LENGTH)
}

// A stage's number, as it stands in the bytes.
pub fn stage_number(stage: Stage) -> u8
    ensures { result ≡ stage_number stage }
{
    match stage {
        Stage::Root => 0,
        Stage::Bit => 1,
        Stage::First => 2,
        Stage::Second => 3,
        Stage::Ended(None) => 4,
        Stage::Ended(Some(_)) => 5,
    }
}

// A refused opening gives it.
#[tactic(auto, unfolding(party::specs::Steps::open_of, limits::specs::Limits::group_cause, limits::specs::Limits::parties, party::specs::Steps::open_cause))]
fn blank() -> Party
    ensures { result ≡ blank_state }
{
    Party::open(0, 0, 0, 0, &[]).state
}

fn read_fields(bytes: &[u8]) -> Party
    requires { state_length ≤ length bytes.now }
    ensures { result ≡ read_in bytes.now }
{
    let number = bytes[4];
    let len = buffer::size_at(bytes, 5);
    Party {
        seat: Seat {
            session: buffer::number_at(bytes, SESSION),
            n: usize::from(bytes[1]),
            t: usize::from(bytes[2]),
            own: usize::from(bytes[3]),
        },
        stage: stage_of(number, len),
        message: array_at(bytes, HEAD),
        len: length_of(number, len),
        root: array_at(bytes, ROOT),
        share: array_at(bytes, SHARE),
        held: buffer::size_at(bytes, 7),
        faulty: buffer::number_at(bytes, FAULTY),
    }
}

// The bytes at a place, as many as the array has.
fn array_at<const N: usize>(bytes: &[u8], at: usize) -> [u8; N]
    requires { at + N ≤ length bytes.now }
    ensures { result ≡ take N (drop at bytes.now) }
{
    let mut array = [0; N];
    array.copy_from_slice(&bytes[at..at + N]);
    array
}

#[tactic(auto, unfolding(crate::specs::Layout::stage_of))]
fn stage_of(number: u8, len: usize) -> Stage
    ensures { result ≡ stage_of number len }
{
    match number {
        0 => Stage::Root,
        1 => Stage::Bit,
        2 => Stage::First,
        3 => Stage::Second,
        4 => Stage::Ended(None),
        _ => Stage::Ended(Some(len)),
    }
}

// The length of the message held: none where the length is the result's.
fn length_of(number: u8, len: usize) -> usize
    ensures { result ≡ cond (eqb number 5) 0 len }
{
    if number == 5 { 0 } else { len }
}

// The numbers before the agreed root.
fn head_of(x: Party) -> [u8; ROOT]
    ensures { result ≡ head_of x }
{
    let len = length_for(x.stage, x.len).to_be_bytes();
    let held = x.held.to_be_bytes();
    let session = x.seat.session.to_be_bytes();
    let faulty = x.faulty.to_be_bytes();
    [
        VERSION,
        low(x.seat.n),
        low(x.seat.t),
        low(x.seat.own),
        stage_number(x.stage),
        len[6],
        len[7],
        held[6],
        held[7],
        session[0],
        session[1],
        session[2],
        session[3],
        faulty[0],
        faulty[1],
        faulty[2],
        faulty[3],
    ]
}

fn low(x: usize) -> u8
    ensures { result ≡ x % 256 }
{
    x.to_le_bytes()[0]
}

fn length_for(stage: Stage, len: usize) -> usize
    ensures { result ≡ length_for stage len }
{
    match stage {
        Stage::Ended(Some(told)) => told,
        Stage::Root | Stage::Bit | Stage::First | Stage::Second | Stage::Ended(None) => len,
    }
}
