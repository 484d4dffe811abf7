// What C and Rust hosts link: the steps of a party on a state of bytes that the host keeps, and the tools beside them. A `&[u8]` passes as a
// pointer and a length. Every function that can refuse answers one number, the cause in its upper 32 bits (0: accepted) and the value in its
// lower; a refused call leaves every lent byte.
#![tactic(auto)]

ghost use Rattle.std.specs.Prelude.{◌≡◌, true, false, List, [], ℕ, ◌<◌, ◌^◌};
ghost use Rattle.std.specs.Prelude as std;
ghost use Rattle.sha256.specs.Sha256.{sha256};
ghost use Rattle.buffer.specs.Given.{said, cause_of, value_of};
ghost use Rattle.party.specs.State.{broken, overlong};
ghost use Rattle.party.specs.Answer.{answered};
ghost use Rattle.party.specs.Steps.{result_given, faulty_given, stepped};
ghost use Rattle.party.specs.Steps as step;
ghost use Rattle.state_bytes.specs.Layout.{state_length, state_of};
ghost use Rattle.agreement.specs.Calls.{agree_root, agree_bit, take_shares, take_relays};
ghost use Rattle.capi.specs.Calls.{library_version, packed, returned, replies, value_shown, over, open_call, opens, open_by_sender_call, called, read_packet_call};
ghost use Rattle.capi.specs.Calls.{read_message_call};
ghost use Rattle.capi.specs.Calls.{stage_call, own_call, session_call, faulty_call, length_answer, result_length_call};
ghost use Rattle.capi.specs.Calls.{check_path_call, shares_call, rebuild_call, rebuild_with_root_call, hash_call};

use buffer::Written;
use cause::{Cause, Refusal};
use party::{Answer, Opened, OpenedBySender, Party, Reply, Stage};
use state_bytes::LENGTH;

// The version of the library.
const MAJOR: u32 = 4;

const MINOR: u32 = 0;

const PATCH: u32 = 0;

// The version of the library that is linked, as one number.
#[unsafe(no_mangle)]
pub extern "C" fn cipangohu_version() -> u32
    ensures { result ≡ library_version }
{
    MAJOR * 65536 + MINOR * 256 + PATCH
}

// How many bytes a state has.
#[unsafe(no_mangle)]
pub extern "C" fn cipangohu_state_size() -> usize
    ensures { result ≡ state_length }
{
    LENGTH
}

// Step 1. The state and the root are written only where both fit.
#[tactic(auto, unfolding(crate::specs::Calls::open_call))]
#[unsafe(no_mangle)]
pub extern "C" fn cipangohu_open(
    session: u32,
    n: usize,
    t: usize,
    own: usize,
    message: &[u8],
    state: &mut [u8],
    root: &mut [u8],
) -> u64
    ensures { replies result state.new root.new
        ≡ open_call sha256 session n t own message.now state.old root.old }
{
    let Opened {
        state: next,
        root: opened,
    } = Party::open(session, n, t, own, message);
    let digest = match opened {
        Ok(digest) => digest,
        Err(cause) => return pack(Err(Refusal::Because(cause))),
    };
    if state.len() < LENGTH {
        return pack(Err(Refusal::Short(LENGTH)));
    }
    if root.len() < 32 {
        return pack(Err(Refusal::Short(32)));
    }
    // Both have room.
    let _ = state_bytes::write(next, state);
    let _ = buffer::give(&digest, root);
    pack(Ok(32))
}

// Step 1 by a named sender. The state, the root and the sender's packet are written only where all fit; the value is the length of that packet.
#[tactic(auto, unfolding(crate::specs::Calls::open_by_sender_call))]
#[unsafe(no_mangle)]
pub extern "C" fn cipangohu_open_by_sender(
    session: u32,
    n: usize,
    t: usize,
    own: usize,
    sender: usize,
    bytes: &[u8],
    state: &mut [u8],
    root: &mut [u8],
    out: &mut [u8],
) -> u64
    ensures { opens result state.new root.new out.new
        ≡ open_by_sender_call sha256 session n t own sender bytes.now state.old root.old out.old }
{
    if let Err(cause) = Party::check_sender(n, t, own, sender, bytes) {
        return pack(Err(Refusal::Because(cause)));
    }
    if state.len() < LENGTH {
        return pack(Err(Refusal::Short(LENGTH)));
    }
    if root.len() < 32 {
        return pack(Err(Refusal::Short(32)));
    }
    let OpenedBySender {
        state: next,
        answer,
    } = Party::open_by_sender(session, n, t, own, sender, bytes, out);
    match answer {
        Ok(begun) => {
            // Both have room.
            let _ = state_bytes::write(next, state);
            let _ = buffer::give(&begun.root, root);
            pack(Ok(begun.len))
        }
        Err(short) => pack(Err(short)),
    }
}

// Step 2: the agreed root. The value is the party's bit for the second short agreement.
#[tactic(auto, using(crate::proofs::Small::root_fits))]
#[unsafe(no_mangle)]
pub extern "C" fn cipangohu_agree_root(state: &mut [u8], root: &[u8]) -> u64
    ensures { replies result state.new [] ≡ called sha256 state.old (agree_root root.now) }
{
    let reply = state_bytes::read(state).agree_root(root);
    finish(reply, state)
}

// Step 3: the agreed bit. The outbox goes to out.
#[tactic(auto, using(crate::proofs::Small::bit_fits))]
#[unsafe(no_mangle)]
pub extern "C" fn cipangohu_agree_bit(state: &mut [u8], bit: usize, out: &mut [u8]) -> u64
    ensures { replies result state.new out.new
        ≡ called sha256 state.old (agree_bit bit out.old) }
{
    let reply = state_bytes::read(state).agree_bit(bit, out);
    finish(reply, state)
}

// Step 4: the first inbox. The relayed packet goes to out.
#[tactic(auto, using(crate::proofs::Small::shares_fit))]
#[unsafe(no_mangle)]
pub extern "C" fn cipangohu_take_shares(state: &mut [u8], inbox: &[u8], out: &mut [u8]) -> u64
    ensures { replies result state.new out.new
        ≡ called sha256 state.old (take_shares inbox.now out.old) }
{
    let reply = state_bytes::read(state).take_shares(inbox, out);
    finish(reply, state)
}

// Step 5: the second inbox. A message goes to out. The value is odd for a message and even for nothing, and above that bit lies the map of those seen to be
// faulty.
#[tactic(auto, using(crate::proofs::Small::relays_fit))]
#[unsafe(no_mangle)]
pub extern "C" fn cipangohu_take_relays(state: &mut [u8], inbox: &[u8], out: &mut [u8]) -> u64
    ensures { replies result state.new out.new
        ≡ called sha256 state.old (take_relays inbox.now out.old) }
{
    let reply = state_bytes::read(state).take_relays(inbox, out);
    finish(reply, state)
}

// The number of the stage that a state is at.
#[tactic(auto, unfolding(crate::specs::Calls::stage_call))]
#[unsafe(no_mangle)]
pub extern "C" fn cipangohu_stage(state: &[u8]) -> u64
    ensures { result ≡ stage_call state.now }
{
    ask(
        state,
        |party| pack(Ok(usize::from(state_bytes::stage_number(party.stage)))),
    )
}

// The party's own number.
#[tactic(auto, unfolding(crate::specs::Calls::own_call))]
#[unsafe(no_mangle)]
pub extern "C" fn cipangohu_own(state: &[u8]) -> u64
    ensures { result ≡ own_call state.now }
{
    ask(state, |party| pack(Ok(party.seat.own)))
}

// The number of the session that the party sits in.
#[tactic(auto, unfolding(crate::specs::Calls::session_call))]
#[unsafe(no_mangle)]
pub extern "C" fn cipangohu_session(state: &[u8]) -> u64
    ensures { result ≡ session_call state.now }
{
    ask(state, |party| pack(Ok(party.seat.session as usize)))
}

// The map of the parties that this one saw to be faulty.
#[tactic(auto, unfolding(crate::specs::Calls::faulty_call))]
#[unsafe(no_mangle)]
pub extern "C" fn cipangohu_faulty(state: &[u8]) -> u64
    ensures { result ≡ faulty_call state.now }
{
    ask(state, |party| pack(Ok(party.faulty as usize)))
}

// The length of the message that the party ended with.
#[tactic(auto, unfolding(crate::specs::Calls::result_length_call))]
#[unsafe(no_mangle)]
pub extern "C" fn cipangohu_result_length(state: &[u8]) -> u64
    ensures { result ≡ result_length_call state.now }
{
    ask(state, |party| length_answer(party.stage))
}

// What bytes say as the packet of a named sender; its message begins at byte 3.
#[tactic(auto, using(crate::proofs::Tools::message_short), unfolding(crate::specs::Calls::read_message_call))]
#[unsafe(no_mangle)]
pub extern "C" fn cipangohu_read_message(packet: &[u8]) -> u64
    ensures { result ≡ read_message_call packet.now }
{
    match packet::read_message(packet) {
        Ok(Some(len)) => pack(Ok(65536 + len)),
        Ok(None) => pack(Ok(0)),
        Err(cause) => pack(Err(Refusal::Because(cause))),
    }
}

// What a packet says among n parties; its share begins at byte 4, and its path follows the share.
#[tactic(auto, using(crate::proofs::Tools::parts_told), unfolding(crate::specs::Calls::read_packet_call))]
#[unsafe(no_mangle)]
pub extern "C" fn cipangohu_read_packet(n: usize, packet: &[u8]) -> u64
    ensures { result ≡ read_packet_call n packet.now }
{
    match packet::read_at(n, packet, 0) {
        Ok(Some(share)) => pack(Ok(share.count * 16777216 + share.number * 65536 + share.len)),
        Ok(None) => pack(Ok(0)),
        Err(cause) => pack(Err(Refusal::Because(cause))),
    }
}

// Whether the path leads from share j of n to the root.
#[tactic(auto, using(crate::proofs::Tools::path_checked), unfolding(crate::specs::Calls::check_path_call))]
#[unsafe(no_mangle)]
pub extern "C" fn cipangohu_check_path(
    session: u32,
    n: usize,
    j: usize,
    share: &[u8],
    path: &[u8],
    root: &[u8],
) -> u64
    ensures { result
        ≡ check_path_call sha256 session n j share.now path.now root.now }
{
    let count = path.len() / 32;
    let hashes = packet::path_at(path, 0, count);
    let whole = path.len() % 32 == 0;
    match merkle::check(session, n, j, share, hashes, count, root) {
        Ok(passed) => pack(Ok(usize::from(whole && passed))),
        Err(cause) => pack(Err(Refusal::Because(cause))),
    }
}

// The n shares of a message, one behind the other.
#[tactic(auto, using(crate::proofs::Small::encode_small, crate::proofs::Small::given_small), unfolding(crate::specs::Calls::shares_call))]
#[unsafe(no_mangle)]
pub extern "C" fn cipangohu_shares(n: usize, t: usize, message: &[u8], out: &mut [u8]) -> u64
    ensures { returned result out.new ≡ shares_call n t message.now out.old }
{
    pack(erasure::encode(n, t, message, out))
}

// The message again from n entries.
#[tactic(auto, using(crate::proofs::Small::rebuild_small, crate::proofs::Small::given_small), unfolding(crate::specs::Calls::rebuild_call))]
#[unsafe(no_mangle)]
pub extern "C" fn cipangohu_rebuild(n: usize, t: usize, entries: &[u8], out: &mut [u8]) -> u64
    ensures { returned result out.new ≡ rebuild_call n t entries.now out.old }
{
    pack(erasure::rebuild(n, t, entries, out))
}

// The message again from n entries, if it has this root.
#[tactic(auto, using(crate::proofs::Small::with_root_small, crate::proofs::Small::given_small), unfolding(crate::specs::Calls::rebuild_with_root_call))]
#[unsafe(no_mangle)]
pub extern "C" fn cipangohu_rebuild_with_root(
    session: u32,
    n: usize,
    t: usize,
    root: &[u8],
    entries: &[u8],
    out: &mut [u8],
) -> u64
    ensures { returned result out.new
        ≡ rebuild_with_root_call sha256 session n t root.now entries.now out.old }
{
    pack(commitment::rebuild_with_root(session, n, t, root, entries, out))
}

// SHA-256 of a message.
#[tactic(auto, using(crate::proofs::Small::digest_small, crate::proofs::Small::given_small), unfolding(crate::specs::Calls::hash_call))]
#[unsafe(no_mangle)]
pub extern "C" fn cipangohu_hash(message: &[u8], out: &mut [u8]) -> u64
    ensures { returned result out.new ≡ hash_call message.now out.old }
{
    match sha256::hash(message) {
        Ok(digest) => pack(buffer::give(&digest, out)),
        Err(cause) => pack(Err(Refusal::Because(cause))),
    }
}

// What is asked of a state: cause 5 where the bytes are none, as the steps judge it.
fn ask<F: FnOnce(Party) -> u64>(state: &[u8], answer: F) -> u64
    requires { broken (state_of state.now) ≡ false → F.pre answer (state_of state.now) }
    ensures refused { broken (state_of state.now) ≡ true → result ≡ packed 5 0 }
    ensures answered { broken (state_of state.now) ≡ false → F.post answer (state_of state.now) result }
{
    let party = state_bytes::read(state);
    if party.broken() {
        return pack(Err(Refusal::Because(Cause::State)));
    }
    answer(party)
}

// An answer as one number: the cause in the upper half, the value in the lower.
#[tactic(auto, using(std::proofs::lemmas::Nat::shl_whole), unfolding(crate::specs::Calls::packed))]
fn pack(answer: Written) -> u64
    requires { value_of (said answer) < 2 ^ 32 }
    ensures { result ≡ packed (cause_of (said answer)) (value_of (said answer)) }
{
    (u64::from(cause_of(answer)) << 32) + buffer::value_of(answer) as u64
}

// Document 01's number of the cause; 0 for an answer that is none.
fn cause_of(answer: Written) -> u8
    ensures { result ≡ cause_of (said answer) }
{
    match answer {
        Ok(_) => 0,
        Err(Refusal::Because(cause)) => u8::from(cause),
        Err(Refusal::Short(_)) => 9,
    }
}

// The next state over the old one, unless the call was refused, and the answer as one number.
fn finish(reply: Reply, state: &mut [u8]) -> u64
    requires { ((stepped reply []).value < 2 ^ 32) × ((stepped reply []).faulty < 2 ^ 31) }
    ensures { (out : List ℕ) → replies result state.new out ≡ over state.old (stepped reply out) }
{
    match reply.answer {
        Ok(answer) => {
            // There is room: only bytes that say a state are taken.
            let _ = state_bytes::write(reply.state, state);
            pack(Ok(value_of(answer)))
        }
        Err(refusal) => pack(Err(refusal)),
    }
}

fn value_of(answer: Answer) -> usize
    ensures { let r = answered (std.Ok answer) in
        result ≡ value_shown (result_given r []) (faulty_given r) (step.value_of r) }
{
    match answer {
        Answer::Happy(happy) => usize::from(happy),
        Answer::Sent(len) => len,
        Answer::Nothing(faulty) => 2 * (faulty as usize),
        Answer::Message(_, faulty) => 2 * (faulty as usize) + 1,
    }
}

// The length of the result's message, or cause 6.
fn length_answer(stage: Stage) -> u64
    requires { overlong stage ≡ false }
    ensures { result ≡ length_answer stage }
{
    match stage {
        Stage::Ended(Some(len)) => pack(Ok(len)),
        Stage::Root | Stage::Bit | Stage::First | Stage::Second | Stage::Ended(None) => {
            pack(Err(Refusal::Because(Cause::Turn)))
        }
    }
}
