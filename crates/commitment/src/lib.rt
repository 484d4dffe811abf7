// What a session's number, n, t and a message give without a state: the root of the message's shares, and the packets that carry them; and the message again,
// if it has the root given. The message is coded, and each hash of its tree made, once a call.
#![tactic(auto)]

ghost use Rattle.std.specs.Prelude.{◌≡◌, ◌+◌, ◌-◌, ◌*◌, ◌≤◌, length, take, drop};
ghost use Rattle.sha256.specs.Sha256.{sha256};
ghost use Rattle.limits.specs.Limits.{max_parties, max_path, max_share};
ghost use Rattle.buffer.specs.Splice.{spliced};
ghost use Rattle.cause.specs.Cause.{cause_of};
ghost use Rattle.buffer.specs.Given.{said, gave, written};
ghost use Rattle.erasure.specs.Coding.{shares};
ghost use Rattle.merkle.specs.Answer.{root_said};
ghost use Rattle.merkle.specs.Shares.{sides_of, leaves_of, nodes_of};
ghost use Rattle.commitment.specs.Commitment.{open_cause, rooted_of, sent, send_of};
ghost use Rattle.commitment.specs.Sent.{sent_said};
ghost use Rattle.commitment.specs.Rebuild.{rebuild_with_root_of};
ghost use Rattle.commitment.specs.Private.{Coded};
ghost use Rattle.commitment.specs.Mail.{relay, entry, outbox, mail};

mod shares;

use buffer::Written;
use cause::{Cause, Refusal};
use limits::{MAX_MESSAGE, MAX_PARTIES, MAX_PATH, MAX_SHARE};
use merkle::Hash;
use shares::Shares;

// The greatest length of all shares of a message together: n is less than 2·b, and b·s less than the message with its length and b.
const MAX_SHARES: usize = 2 * (MAX_SHARE + MAX_PARTIES);

// The greatest length of a packet that a party writes, and of its outbox: each entry has, beside its share, its length, map, number, share length
// and path.
pub const MAX_PACKET: usize = 4 + MAX_SHARE + 32 * MAX_PATH;

pub const MAX_OUTBOX: usize = MAX_SHARES + MAX_PARTIES * (6 + 32 * MAX_PATH);

// Where a party sits: the session's number (document 02, No. 6: the sitting's), how many parties there are, how many of them may be bad, and its own number.
#[derive(Clone, Copy, Debug, PartialEq, Eq)]
pub struct Seat {
    pub session: u32,
    pub n: usize,
    pub t: usize,
    pub own: usize,
}

// The root that a party in this seat puts into the short agreement for its message, or the cause for which there is none.
#[tactic(auto, using(std::proofs::lemmas::Bool::Decides::nat_tests), unfolding(crate::specs::Commitment::rooted_of))]
pub fn root(seat: Seat, message: &[u8]) -> Result<Hash, Cause>
    ensures { root_said result ≡ rooted_of sha256 seat.session seat.n seat.t seat.own message.now }
{
    let Seat { session, n, t, own } = seat;
    check_opening(n, t, own, message.len())?;
    let mut room: [u8; MAX_SHARES] = blank();
    let shares = code(n, t, message, &mut room);
    let leaves = merkle::leaves(session, n, shares);
    merkle::root(n, &leaves)
}

// What a party sends whose message has the agreed root: in step 4 its relay, the packet with its own share, but none where it is alone; or else, in
// step 3 on bit 1, its outbox, for each other party a packet with its share. The answer is the length written, or none if the message has another root.
#[tactic(auto, using(std::proofs::lemmas::Bool::Decides::nat_tests), unfolding(crate::specs::Commitment::send_of))]
pub fn send(
    relays: bool,
    seat: Seat,
    message: &[u8],
    root: &Hash,
    out: &mut [u8],
) -> Result<Option<usize>, Refusal>
    ensures { sent (sent_said result) out.new
        ≡ send_of sha256 seat.session relays seat.n seat.t seat.own message.now root.now out.old }
{
    let Seat { session, n, t, own } = seat;
    check_opening(n, t, own, message.len())?;
    let mut room: [u8; MAX_SHARES] = blank();
    let all = code(n, t, message, &mut room);
    let leaves = merkle::leaves(session, n, all);
    let nodes = merkle::nodes(n, &leaves);
    let top = merkle::root_in(n, &leaves, &nodes).unwrap();
    if !check::same(&top, root) {
        return Ok(None);
    }
    let shares = Shares {
        seat,
        len: all.len() / n,
        all,
        leaves: &leaves,
        nodes: &nodes,
    };
    let len = shares.put(relays, out)?;
    Ok(Some(len))
}

// Writes the message that n entries give, if its root is the one given: it is coded again before a byte is written.
#[tactic(auto, using(std::proofs::lemmas::Bool::Decides::nat_tests), unfolding(crate::specs::Rebuild::rebuild_with_root_of))]
pub fn rebuild_with_root(
    session: u32,
    n: usize,
    t: usize,
    given: &[u8],
    entries: &[u8],
    out: &mut [u8],
) -> Written
    ensures { gave (said result) out.new
        ≡ rebuild_with_root_of sha256 session n t given.now entries.now out.old }
{
    limits::check_group(n, t)?;
    if given.len() != 32 {
        return Err(Refusal::Because(Cause::Argument));
    }
    let mut message: [u8; MAX_MESSAGE] = blank();
    let len = erasure::rebuild(n, t, entries, &mut message)?;
    let seat = Seat {
        session,
        n,
        t,
        own: 1,
    };
    let coded = root(seat, &message[..len]).unwrap();
    if !check::same(&coded, given) {
        return Err(Refusal::Because(Cause::OtherRoot));
    }
    buffer::give(&message[..len], out)
}

// Whether a party with this number and a message of `len` bytes is opened; cause 1, 2, 3 or 4.
#[tactic(auto, using(std::proofs::lemmas::Bool::Decides::nat_tests), unfolding(limits::specs::Limits::numbered, crate::specs::Commitment::open_cause))]
pub fn check_opening(n: usize, t: usize, own: usize, len: usize) -> Result<(), Cause>
    ensures { cause_of result ≡ open_cause n t own len }
{
    limits::check_group(n, t)?;
    if !limits::numbered(n, own) {
        return Err(Cause::Number);
    }
    if MAX_MESSAGE < len {
        return Err(Cause::Length);
    }
    Ok(())
}

// Room for N bytes, in a function of its own: its callers' proofs then meet its length and not its bytes.
fn blank<const N: usize>() -> [u8; N]
    ensures { length result ≡ N }
{
    [0; N]
}

// The shares of a message, one behind the other, where there is room for all shares of any.
fn code<'a>(n: usize, t: usize, message: &[u8], room: &'a mut [u8; MAX_SHARES]) -> &'a [u8]
    requires { Coded n t message.now }
    ensures { result.now ≡ shares n (n - t) message.now }
{
    let size = erasure::encode(n, t, message, room).unwrap();
    &room[..size]
}

// How many hashes the path of a party's number has.
fn path_len(n: usize, j: usize) -> usize
    requires { (1 ≤ n) × (n ≤ max_parties) × (1 ≤ j) × (j ≤ n) }
    ensures { (result ≡ length (sides_of n j)) × (result ≤ max_path) }
{
    merkle::path_length(n, j).unwrap()
}

impl Shares<'_> {
    // Share j.
    fn share(&self, j: usize) -> &[u8]
        requires { (1 ≤ j) × (j ≤ self.now.seat.n) }
        ensures { result.now ≡ take self.now.len (drop ((j - 1) * self.now.len) self.now.all.now) }
    {
        let from = (j - 1) * self.len;
        let end = from + self.len;
        &self.all[from..end]
    }

    // The relay, or else the outbox.
    fn put(&self, relays: bool, out: &mut [u8]) -> Written
        ensures { gave (said result) out.new ≡ written (mail relays self.now) out.old }
    {
        if relays {
            self.put_relay(out)
        } else {
            self.put_outbox(out)
        }
    }

    // The packet with the own share, if there are others.
    fn put_relay(&self, out: &mut [u8]) -> Written
        ensures { gave (said result) out.new ≡ written (relay self.now) out.old }
    {
        let Seat { n, own, .. } = self.seat;
        if n == 1 {
            return Ok(0);
        }
        let path = merkle::path_in(n, own, self.leaves, self.nodes);
        packet::write(n, own, self.share(own), path, path_len(n, own), out)
    }

    // The outbox with packets for all parties but the own one, each with its share and the path of that share.
    #[tactic(auto, using(std::proofs::lemmas::Bool::Decides::nat_tests), unfolding(buffer::specs::Given::written))]
    fn put_outbox(&self, out: &mut [u8]) -> Written
        ensures { gave (said result) out.new ≡ written (outbox self.now) out.old }
    {
        let need = self.outbox_len();
        if out.len() < need {
            return Err(Refusal::Short(need));
        }
        self.write_outbox(out);
        Ok(need)
    }

    // Its length.
    fn outbox_len(&self) -> usize
        ensures { result ≡ length (outbox self.now) }
    {
        let mut len = 0;
        for k in 0..self.seat.n {
            len += self.entry_len(k + 1);
        }
        len
    }

    // The length of its entry for party j.
    fn entry_len(&self, j: usize) -> usize
        requires { (1 ≤ j) × (j ≤ self.now.seat.n) }
        ensures { (result ≡ length (entry self.now j))
            × (result ≤ 6 + max_share + 32 * max_path) }
    {
        if j == self.seat.own {
            return 2;
        }
        2 + 4 + self.len + 32 * path_len(self.seat.n, j)
    }

    // Its entries, one behind the other.
    fn write_outbox(&self, out: &mut [u8])
        requires { length (outbox self.now) ≤ length out.old }
        ensures { out.new ≡ spliced out.old 0 (outbox self.now) }
    {
        let mut at = 0;
        for k in 0..self.seat.n {
            at += self.write_entry(k + 1, &mut out[at..]);
        }
    }

    // The entry for party j, at the start of out; its length.
    fn write_entry(&self, j: usize, out: &mut [u8]) -> usize
        requires { (1 ≤ j) × (j ≤ self.now.seat.n)
            × (length (entry self.now j) ≤ length out.old) }
        ensures { (result ≡ length (entry self.now j))
            × (out.new ≡ spliced out.old 0 (entry self.now j)) }
    {
        let Seat { n, own, .. } = self.seat;
        if j == own {
            buffer::put(out, 0, &[0, 0]);
            return 2;
        }
        let path = merkle::path_in(n, j, self.leaves, self.nodes);
        packet::write_entry(n, j, self.share(j), path, path_len(n, j), out).unwrap()
    }
}
