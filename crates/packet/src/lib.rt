// Packets: the bytes in which one party sends another a share with its audit path, or a whole message. Reading them, judging them, and writing them.
#![tactic(auto)]

ghost use Rattle.std.specs.Prelude.{◌≡◌, ◌≢◌, ℕ, drop, ◌+◌, ◌*◌, ◌≤◌, ◌<◌, ◌++◌, length, MatchOption, MatchResult};
ghost use Rattle.limits.specs.Limits.{max_parties, max_path, max_share};
ghost use Rattle.buffer.specs.Given.{said, gave, written};
ghost use Rattle.packet.specs.Format.{share_in};
ghost use Rattle.sha256.specs.Sha256.{sha256};
ghost use Rattle.cause.specs.Cause.{number as number_of};
ghost use Rattle.packet.specs.Packet as packet;
ghost use Rattle.packet.specs.Packet.{read_said, read_by, entry_said};
ghost use Rattle.packet.specs.Judged.{judgement, judged_said};
ghost use Rattle.packet.specs.Answer.{told, read_at, placed, told_entry, entry_read, next_at, path_at, verdict, verdict_on, judge_of};
ghost use Rattle.packet.specs.Answer.{write_cause, write_of, write_entry_of};
ghost use Rattle.packet.specs.Private.{laid};
ghost use Rattle.packet.specs.Message.{read_message, write_message_of};
ghost use Rattle.packet.specs.Message as message;
ghost use Rattle.packet.specs.MessagePacket.{message_said};

use buffer::Written;
use cause::{Cause, Refusal};
use limits::{MAX_MESSAGE, MAX_PATH, MAX_SHARE};
use merkle::Hash;

// A share in a packet: its number, where it lies and how long it is, and how many hashes of its path follow it.
#[derive(Clone, Copy, Debug, PartialEq, Eq)]
pub struct Share {
    pub number: usize,
    pub from: usize,
    pub len: usize,
    pub count: usize,
}

// What stands at a place: a share, or nothing, which is silence. Cause 1, n is out of its range; 8, its entry runs short; or 10, it is neither silence nor
// readable.
pub type Read = Result<Option<Share>, Cause>;

// An entry of an inbox: the packet in it, and where the next entry begins.
#[derive(Clone, Copy, Debug, PartialEq, Eq)]
pub struct Entry {
    pub packet: Read,
    pub next: usize,
}

// A packet that was read, judged against a number and a root.
#[derive(Clone, Copy, Debug, PartialEq, Eq)]
pub enum Judged {
    Silent,
    Faulty,
    Valid,
}

// The greatest length of a packet with a whole message: its map, the message's length and the message.
pub const MAX_MESSAGE_PACKET: usize = 3 + MAX_MESSAGE;

// Reads the packet that stands from place at on to the end of s, among n parties.
#[tactic(auto, using(std::proofs::lemmas::Bool::Decides::nat_tests), unfolding(limits::specs::Limits::parties, crate::specs::Answer::read_at, crate::specs::Format::read_of))]
pub fn read_at(n: usize, s: &[u8], at: usize) -> Read
    ensures { told (read_said result) ≡ told (read_at n s.now at) }
{
    if !limits::parties(n) {
        return Err(Cause::Parties);
    }
    match s.get(at..) {
        None | Some([] | [0]) => Ok(None),
        Some([7, ..]) => read_share(n, s, at),
        Some(_) => Err(Cause::Unreadable),
    }
}

// The same of a packet whose map is 7. No length that it states is used before the bytes present are found to be as many.
#[tactic(auto, using(std::proofs::lemmas::Bool::Decides::nat_tests), unfolding(limits::specs::Limits::parties, limits::specs::Limits::numbered, merkle::specs::Shares::path_length_of, crate::specs::Format::share_in))]
fn read_share(n: usize, s: &[u8], at: usize) -> Read
    requires { (1 ≤ n) × (n ≤ max_parties) × (at < length s.now) }
    ensures { read_said result ≡ placed at (share_in n (drop at s.now)) }
{
    let size = s.len() - at;
    if size < 4 {
        return Err(Cause::Unreadable);
    }
    let number = usize::from(s[at + 1]);
    let stated = buffer::size_at(s, at + 2);
    let Ok(count) = merkle::path_length(n, number) else {
        return Err(Cause::Unreadable);
    };
    if stated < 1 || MAX_SHARE < stated || size != 4 + stated + 32 * count {
        return Err(Cause::Unreadable);
    }
    Ok(Some(Share {
        number,
        from: at + 4,
        len: stated,
        count,
    }))
}

// Reads the entry that stands at a place of an inbox, among n parties. The place stays where it is turned away.
#[tactic(auto, using(std::proofs::lemmas::Bool::Decides::nat_tests), unfolding(limits::specs::Limits::parties, crate::specs::Answer::entry_read))]
pub fn read_entry(n: usize, s: &[u8], at: usize) -> Entry
    ensures { told_entry (entry_said result) ≡ told_entry (entry_read n s.now at) }
{
    if !limits::parties(n) {
        return Entry {
            packet: Err(Cause::Parties),
            next: at,
        };
    }
    let Some(next) = next_at(s, at) else {
        return Entry {
            packet: Err(Cause::Layout),
            next: at,
        };
    };
    let packet = read_at(n, &s[..next], at + 2);
    Entry { packet, next }
}

// The place behind the entry at a place, unless that runs short.
fn next_at(s: &[u8], at: usize) -> Option<usize>
    ensures { MatchOption result (length s.now < next_at s.now at) (λ next. (next ≡ next_at s.now at) × (next ≤ length s.now)) }
{
    let room = s.len().checked_sub(2)?.checked_sub(at)?;
    let size = buffer::size_at(s, at);
    if room < size {
        return None;
    }
    Some(at + 2 + size)
}

// The path of `count` hashes at a place. Blanks stand past it, and everywhere if it is longer than any path or runs past the end.
#[tactic(auto, using(std::proofs::lemmas::Bool::Decides::nat_tests), unfolding(crate::specs::Answer::path_at))]
pub fn path_at(s: &[u8], at: usize, count: usize) -> [Hash; MAX_PATH]
    ensures { result ≡ path_at s.now at count }
{
    let mut path = [[0; 32]; MAX_PATH];
    if MAX_PATH < count || s.len() < at || s.len() - at < 32 * count {
        return path;
    }
    let end = at + 32 * count;
    let (hashes, _) = s[at..end].as_chunks();
    path[..count].copy_from_slice(hashes);
    path
}

// Judges a packet that was read from s: whether it bears number j and its path leads to the root under the session's number. Cause 1, 3 or 7. Why a packet was
// not read plays no part in it, whatever the kind of that cause.
#[tactic(auto, using(std::proofs::lemmas::Bool::Decides::nat_tests), unfolding(limits::specs::Limits::parties, limits::specs::Limits::numbered, crate::specs::Answer::judge_of))]
pub fn judge<E: Copy>(
    session: u32,
    n: usize,
    j: usize,
    root: &[u8],
    s: &[u8],
    packet: Result<Option<Share>, E>,
) -> Result<Judged, Cause>
    ensures { (f : E → ℕ) → verdict (judged_said result) ≡ verdict (judge_of sha256 session n j root.now s.now (read_by f packet)) }
{
    if !limits::parties(n) {
        return Err(Cause::Parties);
    }
    if !limits::numbered(n, j) {
        return Err(Cause::Number);
    }
    if root.len() != 32 {
        return Err(Cause::Argument);
    }
    Ok(match packet {
        Err(_) => Judged::Faulty,
        Ok(None) => Judged::Silent,
        Ok(Some(share)) if share.number != j => Judged::Faulty,
        Ok(Some(share)) => judge_share(session, n, root, s, share),
    })
}

// The same of a share that bears the number demanded. No place that it states is used before the bytes present are found to be as many.
fn judge_share(session: u32, n: usize, root: &[u8], s: &[u8], share: Share) -> Judged
    requires { (1 ≤ n) × (n ≤ max_parties) × (1 ≤ share.number) × (share.number ≤ n) × (length root.now ≡ 32) }
    ensures { judgement result ≡ verdict_on sha256 session n share.number root.now s.now (packet.Share share.number share.from share.len share.count) }
{
    let Share {
        number,
        from,
        len,
        count,
    } = share;
    if MAX_SHARE < len || MAX_PATH < count || s.len() < from || s.len() - from < len + 32 * count {
        return Judged::Faulty;
    }
    let end = from + len;
    let path = path_at(s, end, count);
    let leads = merkle::check(session, n, number, &s[from..end], path, count, root).unwrap();
    if leads { Judged::Valid } else { Judged::Faulty }
}

// How long the packet of a share of `len` bytes with `count` hashes is, or why it is not written: cause 1, 3 or 10.
#[tactic(auto, using(std::proofs::lemmas::Bool::Decides::nat_tests), unfolding(limits::specs::Limits::parties, limits::specs::Limits::numbered, merkle::specs::Shares::path_length_of, crate::specs::Answer::write_cause))]
fn packet_size(n: usize, number: usize, len: usize, count: usize) -> Result<u16, Cause>
    ensures { MatchResult result
        (λ size. (write_cause n number len count ≡ 0) × (size ≡ 4 + len + 32 * count))
        (λ cause. number_of cause ≡ write_cause n number len count) }
{
    let right = merkle::path_length(n, number)?;
    if len < 1 || MAX_SHARE < len || count != right {
        return Err(Cause::Unreadable);
    }
    Ok((4 + len + 32 * count) as u16)
}

// Writes the packet of a share with its path of `count` hashes to the start of out.
#[tactic(auto, using(std::proofs::lemmas::Bool::Decides::nat_tests), unfolding(crate::specs::Answer::write_of))]
pub fn write(
    n: usize,
    number: usize,
    share: &[u8],
    path: [Hash; MAX_PATH],
    count: usize,
    out: &mut [u8],
) -> Written
    ensures { gave (said result) out.new ≡ write_of n number share.now path count out.old }
{
    packet_size(n, number, share.len(), count)?;
    write_behind(&[], number, share, path[..count].as_flattened(), out)
}

// The same as an entry, with the packet's length in front of it.
#[tactic(auto, using(std::proofs::lemmas::Bool::Decides::nat_tests), unfolding(crate::specs::Answer::write_entry_of))]
pub fn write_entry(
    n: usize,
    number: usize,
    share: &[u8],
    path: [Hash; MAX_PATH],
    count: usize,
    out: &mut [u8],
) -> Written
    ensures { gave (said result) out.new ≡ write_entry_of n number share.now path count out.old }
{
    let size = packet_size(n, number, share.len(), count)?;
    let path = path[..count].as_flattened();
    write_behind(&size.to_be_bytes(), number, share, path, out)
}

// Writes a packet behind what stands in front of it. The path is here its hashes' bytes.
#[tactic(auto, using(std::proofs::lemmas::Bool::Decides::nat_tests), unfolding(buffer::specs::Given::written))]
fn write_behind(front: &[u8], number: usize, share: &[u8], path: &[u8], out: &mut [u8]) -> Written
    requires { (length front.now ≤ 2) × (number < 256) × (length share.now ≤ max_share) × (length path.now ≤ 32 * max_path) }
    ensures { gave (said result) out.new ≡ written (front.now ++ laid number share.now path.now) out.old }
{
    let from = front.len() + 4;
    let end = from + share.len();
    let need = end + path.len();
    if out.len() < need {
        return Err(Refusal::Short(need));
    }
    let [high, low] = (share.len() as u16).to_be_bytes();
    buffer::put(out, 0, front);
    buffer::put(out, front.len(), &[7, number as u8, high, low]);
    buffer::put(out, from, share);
    buffer::put(out, end, path);
    Ok(need)
}

// An inbox, read entry by entry from a place that it remembers (document 01: the cursor).
#[derive(Clone, Copy)]
pub struct Reader<'a> {
    pub src: &'a [u8],
    pub at: usize,
}

// A reader at the start of the bytes.
pub fn start<'a>(src: &'a [u8]) -> Reader<'a>
    ensures { (result.src ≡ src.entry) × (result.at ≡ 0) }
{
    Reader { src, at: 0 }
}

// The packet of the entry at the reader's place, among n parties.
pub fn next<'a>(r: Reader<'a>, n: usize) -> Read
    ensures { told (read_said result) ≡ told (entry_read n r.entry.src.now r.entry.at).packet }
{
    read_entry(n, r.src, r.at).packet
}

// The reader at the next entry.
pub fn moved<'a>(r: Reader<'a>, n: usize) -> Reader<'a>
    ensures { (result.src ≡ r.entry.src) × (result.at ≡ (entry_read n r.entry.src.now r.entry.at).next) }
{
    Reader {
        src: r.src,
        at: read_entry(n, r.src, r.at).next,
    }
}

// Reads a packet with a whole message: how many bytes it has, from byte 3 on, or nothing, which is silence. Cause 10, it is neither. The length that it states is not used before the bytes present are found to be as many.
#[tactic(auto, using(std::proofs::lemmas::Bool::Decides::nat_tests), unfolding(crate::specs::Message::read_message, crate::specs::Message::message_in))]
pub fn read_message(s: &[u8]) -> Result<Option<usize>, Cause>
    ensures { message.told (message_said result) ≡ message.told (message.placed (read_message s.now)) }
{
    match s {
        [] | [0] => Ok(None),
        [8, high, low, message @ ..]
            if usize::from(u16::from_be_bytes([*high, *low])) == message.len()
                && message.len() <= MAX_MESSAGE => { Ok(Some(message.len())) }
        _ => Err(Cause::Unreadable),
    }
}

// Writes the packet of a message to the start of out.
#[tactic(auto, using(std::proofs::lemmas::Bool::Decides::nat_tests), unfolding(crate::specs::Message::write_message_of, crate::specs::Message::message_packet, buffer::specs::Given::written))]
pub fn write_message(message: &[u8], out: &mut [u8]) -> Written
    ensures { gave (said result) out.new ≡ write_message_of message.now out.old }
{
    let len = message.len();
    if MAX_MESSAGE < len {
        return Err(Refusal::Because(Cause::Length));
    }
    let need = 3 + len;
    if out.len() < need {
        return Err(Refusal::Short(need));
    }
    let [high, low] = (len as u16).to_be_bytes();
    buffer::put(out, 0, &[8, high, low]);
    buffer::put(out, 3, message);
    Ok(need)
}
