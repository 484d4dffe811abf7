// One party of a session (document 01: a box): its state, its opening, and the four steps that follow.
#![tactic(auto)]

ghost use Rattle.std.specs.Prelude.{◌≡◌, ℕ, true, false, cond, eqb, [], ◌+◌, ◌-◌, ◌*◌, ◌≤◌, ◌<◌, length, get_or, replicate, Result, unwrap_or, MatchOption};
ghost use Rattle.sha256.specs.Sha256.{sha256};
ghost use Rattle.limits.specs.Limits.{max_parties, max_message, max_share};
ghost use Rattle.bitmap.specs.Bitmap.{map_of};
ghost use Rattle.buffer.specs.Entries.{fills, bodies};
ghost use Rattle.buffer.specs.Given.{said, gave, written};
ghost use Rattle.cause.specs.Cause.{number, cause_of};
ghost use Rattle.merkle.specs.Shares.{blank, same};
ghost use Rattle.commitment.specs.Commitment.{message_root, mail_with};
ghost use Rattle.party.specs.Answer.{opened};
ghost use Rattle.party.specs.State.{party_limits, padded, message_in, share_held, nothing, settled, at_end, result_from, has_ended, blank_state, overlong, stray, broken, happy};
ghost use Rattle.party.specs.Steps.{turn_of, open_cause, refused_opening, state_cause, root_cause, bit_cause, inbox_cause, relays_cause, first_valid, gathered, result_found, faulty_shares, faulty_relays};
ghost use Rattle.party.specs.Steps.{stepped, writes, ending, open_of, agree_root_of, agree_bit_of, take_shares_of, take_relays_of};
ghost use Rattle.packet.specs.Message.{read_message};
ghost use Rattle.party.specs.Sender.{message_read, sender_cause, begun, open_by_sender_of};
ghost use Rattle.packet.specs.Packet.{read_said};
ghost use Rattle.packet.specs.Answer.{judge_of};
ghost use Rattle.erasure.specs.Rebuild.{place_at};
ghost use Rattle.party.specs.Private.{Fit, Judges, Found, TakenIs, Gathered, finding_of, found_faulty, marks, first_place, Lies_as, after, with_length, Begins};

use buffer::Written;
use cause::{Cause, Refusal};
use commitment::Seat;
use erasure::{Place, Places};
use limits::MAX_SHARE;
use merkle::Hash;
use packet::{Entry, Judged, Read, Share};

// What a party waits for, or that it has ended with its result: nothing, or a message of so many bytes.
#[derive(Clone, Copy)]
pub enum Stage {
    Root,
    Bit,
    First,
    Second,
    Ended(Option<usize>),
}

// The state of a party.
#[derive(Clone, Copy)]
pub struct Party {
    pub seat: Seat,
    pub stage: Stage,
    pub message: [u8; Party::MAX_MESSAGE],
    pub len: usize,
    pub root: [u8; 32],
    pub share: [u8; MAX_SHARE],
    pub held: usize,
    pub faulty: u32,
}

// The limits that belong to a party: how many parties there may be, and how long a message.
#[derive(Clone, Copy)]
pub struct Limits {
    pub parties: usize,
    pub message: usize,
}

// What the opening gives: a state, and the root of the message's shares or the cause for which it was refused.
#[derive(Clone, Copy)]
pub struct Opened {
    pub state: Party,
    pub root: Result<Hash, Cause>,
}

// What the opening by a named sender gives: a state, and what it begins with or why it was refused.
#[derive(Clone, Copy)]
pub struct OpenedBySender {
    pub state: Party,
    pub answer: Result<Begun, Refusal>,
}

// The root of the message's shares, and how many bytes were written for the others.
#[derive(Clone, Copy)]
pub struct Begun {
    pub root: Hash,
    pub len: usize,
}

// The answer of a step that was taken: of step 2 the party's bit, of steps 3 and 4 how many bytes were written, of step 5 the result with the map of
// parties seen to be faulty.
#[derive(Clone, Copy)]
pub enum Answer {
    Happy(bool),
    Sent(usize),
    Nothing(u32),
    Message(usize, u32),
}

// What a step gives back.
#[derive(Clone, Copy)]
pub struct Reply {
    pub state: Party,
    pub answer: Result<Answer, Refusal>,
}

impl Party {
    // These limits belong to the party, not to its caller.
    pub const MAX_PARTIES: usize = limits::MAX_PARTIES;

    pub const MAX_MESSAGE: usize = limits::MAX_MESSAGE;

    // They are the definitions': this is where the two are held together.
    pub fn limits() -> Limits
        ensures { result ≡ party_limits }
    {
        Limits {
            parties: Party::MAX_PARTIES,
            message: Party::MAX_MESSAGE,
        }
    }

    // Step 1: the opening, in the session of this number, which every good party opens with. The root goes to the short agreement.
    pub fn open(session: u32, n: usize, t: usize, own: usize, message: &[u8]) -> Opened
        ensures { opened result ≡ open_of sha256 session n t own message.now }
    {
        if let Err(cause) = Party::check_opening(n, t, own, message.len()) {
            return refused_opening(cause);
        }
        let seat = Seat { session, n, t, own };
        let mut held = [0; Party::MAX_MESSAGE];
        buffer::put(&mut held, 0, message);
        let state = Party {
            seat,
            stage: Stage::Root,
            message: held,
            len: message.len(),
            root: [0; 32],
            share: [0; MAX_SHARE],
            held: 0,
            faulty: 0,
        };
        Opened {
            state,
            root: commitment::root(seat, message),
        }
    }

    // The same where one party alone, the sender, has the message. It is handed its message, and writes a packet with it that goes to every other party;
    // each of these is handed the packet that came, and opens with the empty message where it can read none.
    pub fn open_by_sender(
        session: u32,
        n: usize,
        t: usize,
        own: usize,
        sender: usize,
        bytes: &[u8],
        out: &mut [u8],
    ) -> OpenedBySender
        ensures { begun result out.new ≡ open_by_sender_of sha256 session n t own sender bytes.now out.old }
    {
        if let Err(cause) = Party::check_sender(n, t, own, sender, bytes) {
            return turned_away(Refusal::Because(cause));
        }
        if own != sender {
            return begin(Party::open_with_packet(session, n, t, own, bytes), 0);
        }
        if n == 1 {
            return open_and_begin(session, n, t, own, bytes, 0);
        }
        match packet::write_message(bytes, out) {
            Ok(len) => open_and_begin(session, n, t, own, bytes, len),
            Err(refusal) => turned_away(refusal),
        }
    }

    // Whether an opening by a named sender is taken, before any buffer is looked at; cause 1, 2, 3 or 4.
    #[tactic(auto, unfolding(crate::specs::Sender::sender_cause, commitment::specs::Commitment::open_cause))]
    pub fn check_sender(
        n: usize,
        t: usize,
        own: usize,
        sender: usize,
        bytes: &[u8],
    ) -> Result<(), Cause>
        ensures { cause_of result ≡ sender_cause n t own sender bytes.now }
    {
        Party::check_opening(n, t, own, 0)?;
        if !limits::numbered(n, sender) {
            return Err(Cause::Number);
        }
        if own == sender && Party::MAX_MESSAGE < bytes.len() {
            return Err(Cause::Length);
        }
        Ok(())
    }

    // The opening with the message of a packet, or with the empty one.
    fn open_with_packet(session: u32, n: usize, t: usize, own: usize, bytes: &[u8]) -> Opened
        ensures { opened result ≡ open_of sha256 session n t own (message_read (read_message bytes.now)) }
    {
        match packet::read_message(bytes) {
            Ok(Some(len)) => Party::open(session, n, t, own, &bytes[3..3 + len]),
            Ok(None) | Err(_) => Party::open(session, n, t, own, &[]),
        }
    }

    // Step 2: the agreed root comes; the answer is this party's bit for the second short agreement.
    pub fn agree_root(self, root: &[u8]) -> Reply
        ensures { stepped result [] ≡ agree_root_of sha256 self root.now }
    {
        if let Err(cause) = self.check_root(root) {
            return self.refused(cause);
        }
        let mut agreed = [0; 32];
        buffer::put(&mut agreed, 0, root);
        let state = self.waiting(Stage::Bit, agreed, [0; MAX_SHARE], 0, 0);
        Reply {
            state,
            answer: Ok(Answer::Happy(state.happy())),
        }
    }

    // Step 3: the agreed bit comes. On 1 a happy party writes a packet for each other party.
    pub fn agree_bit(self, bit: usize, out: &mut [u8]) -> Reply
        ensures { stepped result out.new ≡ agree_bit_of sha256 self bit out.old }
    {
        if let Err(cause) = self.check_bit(bit) {
            return self.refused(cause);
        }
        if bit == 0 {
            let next = self.ended(None, [0; Party::MAX_MESSAGE], 0);
            return self.silent(next, out);
        }
        let sent = self.send(false, out);
        let next = self.waiting(Stage::First, self.root, [0; MAX_SHARE], 0, 0);
        let Some(written) = sent else {
            return self.silent(next, out);
        };
        self.after(next, written)
    }

    // Step 4: the first inbox comes. A happy party relays its own share, another the one it was sent; both note whose packets are faulty.
    pub fn take_shares(self, inbox: &[u8], out: &mut [u8]) -> Reply
        ensures { stepped result out.new ≡ take_shares_of sha256 self inbox.now out.old }
    {
        if let Err(cause) = self.check_inbox(4, inbox) {
            return self.refused(cause);
        }
        let Shares { taken, faulty } = self.judge_shares(inbox);
        let sent = self.send(true, out);
        let next = self.waiting(Stage::Second, self.root, [0; MAX_SHARE], 0, faulty);
        if let Some(written) = sent {
            return self.after(next, written);
        }
        let Some(
            Share {
                from,
                len,
                count,
                ..
            },
        ) = taken
        else {
            return self.after(next, Ok(0));
        };
        let end = from + len;
        let path = packet::path_at(inbox, end, count);
        let mut share = [0; MAX_SHARE];
        buffer::put(&mut share, 0, &inbox[from..end]);
        let holding = self.waiting(Stage::Second, self.root, share, len, faulty);
        let Seat { n, own, .. } = self.seat;
        let written = packet::write(n, own, &inbox[from..end], path, count, out);
        self.after(holding, written)
    }

    // Step 5: the second inbox comes, and the party ends. One that has ended gives its result again and does not look at the inbox.
    pub fn take_relays(self, inbox: &[u8], out: &mut [u8]) -> Reply
        ensures { stepped result out.new ≡ take_relays_of sha256 self inbox.now out.old }
    {
        if let Err(cause) = self.check_relays(inbox) {
            return self.refused(cause);
        }
        match self.stage {
            Stage::Ended(len) => self.give_again(len, out),
            Stage::Root | Stage::Bit | Stage::First | Stage::Second => self.conclude(inbox, out),
        }
    }

    // Ends: a happy party with its message, another with what it rebuilds, if that has the agreed root; both with the map of those whose packets were faulty.
    fn conclude(self, inbox: &[u8], out: &mut [u8]) -> Reply
        requires { Fit self × (fills self.seat.n inbox.now ≡ true) }
        ensures { stepped result out.new ≡ ending self (result_found sha256 self inbox.now) (faulty_relays sha256 self inbox.now) out.old }
    {
        let Relays { places, faulty } = self.judge_relays(inbox);
        if self.happy() {
            return self.settle(&self.message[..self.len], faulty, out);
        }
        let mut message = [0; Party::MAX_MESSAGE];
        let Ok(len) = erasure::rebuild_at(
            self.seat.n,
            self.seat.t,
            inbox,
            &self.share[..self.held],
            places,
            &mut message,
        ) else {
            return self.settle_nothing(faulty);
        };
        if self.has_root(&message[..len]) {
            return self.settle(&message[..len], faulty, out);
        }
        self.settle_nothing(faulty)
    }

    // Gives the result and the map that the state holds, in the ended form built anew.
    fn give_again(self, len: Option<usize>, out: &mut [u8]) -> Reply
        requires { overlong (Stage.Ended len) ≡ false }
        ensures { stepped result out.new ≡ ending self (result_from len self.message) self.faulty out.old }
    {
        match len {
            None => self.settle_nothing(self.faulty),
            Some(len) => self.settle(&self.message[..len], self.faulty, out),
        }
    }

    // Whether the agreed root is taken; cause 5, 6 or 7.
    #[tactic(auto, unfolding(crate::specs::Steps::root_cause))]
    fn check_root(self, root: &[u8]) -> Result<(), Cause>
        ensures { cause_of result ≡ root_cause self root.now }
    {
        self.check_state(2)?;
        if root.len() != 32 {
            return Err(Cause::Argument);
        }
        Ok(())
    }

    // Whether the agreed bit is taken; cause 5, 6 or 7.
    #[tactic(auto, unfolding(crate::specs::Steps::bit_cause))]
    fn check_bit(self, bit: usize) -> Result<(), Cause>
        ensures { cause_of result ≡ bit_cause self bit }
    {
        self.check_state(3)?;
        if 1 < bit {
            return Err(Cause::Argument);
        }
        Ok(())
    }

    // Whether the second inbox is taken; cause 5, 6 or 8.
    #[tactic(auto, unfolding(crate::specs::Steps::relays_cause))]
    fn check_relays(self, inbox: &[u8]) -> Result<(), Cause>
        ensures { cause_of result ≡ relays_cause self inbox.now }
    {
        match self.stage {
            Stage::Ended(_) => self.check_state(5),
            Stage::Root | Stage::Bit | Stage::First | Stage::Second => self.check_inbox(5, inbox),
        }
    }

    // Whether an inbox is taken; cause 5, 6 or 8.
    #[tactic(auto, unfolding(crate::specs::Steps::inbox_cause))]
    fn check_inbox(self, turn: usize, inbox: &[u8]) -> Result<(), Cause>
        ensures { cause_of result ≡ inbox_cause turn self inbox.now }
    {
        self.check_state(turn)?;
        if !buffer::laid_out(inbox, self.seat.n) {
            return Err(Cause::Layout);
        }
        Ok(())
    }

    // What a happy party sends, its relay or else its outbox; nothing is touched if the party is not happy.
    fn send(self, relays: bool, out: &mut [u8]) -> Option<Written>
        requires { Fit self }
        ensures { MatchOption result
            ((happy sha256 self ≡ false) × (out.new ≡ out.old))
            (λ written_. (happy sha256 self ≡ true)
            × (gave (said written_) out.new ≡ written (mail_with sha256 self.seat.session relays self.seat.n self.seat.t self.seat.own (message_in self)) out.old)) }
    {
        commitment::send(
            relays,
            self.seat,
            &self.message[..self.len],
            &self.root,
            out,
        )
        .transpose()
    }

    // What comes of writing: the next state where bytes were written, else this one.
    fn after(self, next: Party, written: Written) -> Reply
        ensures { result ≡ after self next written }
    {
        match written {
            Ok(len) => Reply {
                state: next,
                answer: Ok(Answer::Sent(len)),
            },
            Err(refusal) => Reply {
                state: self,
                answer: Err(refusal),
            },
        }
    }

    // Ends with a message, which is written to out, and with a map; cause 9 where out is too short.
    fn settle(self, message: &[u8], faulty: u32, out: &mut [u8]) -> Reply
        requires { length message.now ≤ max_message }
        ensures { stepped result out.new ≡ ending self (settled message.now) faulty out.old }
    {
        let len = message.len();
        if out.len() < len {
            return self.short(len);
        }
        buffer::put(out, 0, message);
        let mut kept = [0; Party::MAX_MESSAGE];
        buffer::put(&mut kept, 0, message);
        Reply {
            state: self.ended(Some(len), kept, faulty),
            answer: Ok(Answer::Message(len, faulty)),
        }
    }

    // Ends with nothing, and with a map.
    fn settle_nothing(self, faulty: u32) -> Reply
        ensures { result ≡ record { state = at_end self.seat nothing faulty; answer = Result.Ok (Answer.Nothing faulty) } }
    {
        Reply {
            state: self.ended(None, [0; Party::MAX_MESSAGE], faulty),
            answer: Ok(Answer::Nothing(faulty)),
        }
    }

    // Of the lowest-numbered sender whose packet bears the own number and passes the check, its share; and the map of the parties whose packets are faulty.
    fn judge_shares(self, inbox: &[u8]) -> Shares
        requires { Fit self × (fills self.seat.n inbox.now ≡ true) }
        ensures { TakenIs result.taken (first_valid sha256 self.seat.session self.seat.n self.seat.own self.root 1 (bodies self.seat.n inbox.now)) inbox.now
            × (result.faulty ≡ faulty_shares sha256 self inbox.now) }
    {
        let n = self.seat.n;
        let found = findings(self.seat, &self.root, inbox, Some(self.seat.own));
        Shares {
            taken: first_place(&found[..n]),
            faulty: marked(0, &found[..n]),
        }
    }

    // Where the shares lie to rebuild from: of each sender j a share numbered j that passes the check, in the inbox; the own relayed share, behind it. And
    // the map of the parties seen to be faulty, with those whose packets are so here.
    fn judge_relays(self, inbox: &[u8]) -> Relays
        requires { Fit self × (fills self.seat.n inbox.now ≡ true) }
        ensures { Gathered self.seat.n (gathered sha256 self 1 (bodies self.seat.n inbox.now)) inbox.now (share_held self) result.places
            × (result.faulty ≡ faulty_relays sha256 self inbox.now) }
    {
        let n = self.seat.n;
        let found = findings(self.seat, &self.root, inbox, None);
        let mut places = places(&found[..n]);
        places[self.seat.own - 1] = Place {
            from: inbox.len(),
            len: self.held,
        };
        Relays {
            places,
            faulty: marked(self.faulty, &found[..n]),
        }
    }

    // Whether a step may be taken; cause 5 or 6.
    #[tactic(auto, unfolding(crate::specs::Steps::state_cause))]
    fn check_state(self, turn: usize) -> Result<(), Cause>
        ensures { cause_of result ≡ state_cause turn self }
    {
        if self.broken() {
            return Err(Cause::State);
        }
        if turn_of(self.stage) != turn {
            return Err(Cause::Turn);
        }
        Ok(())
    }

    // Whether the state breaks causes 1 to 4, holds a length over its limit, or a map of parties that it cannot hold.
    #[tactic(auto, unfolding(crate::specs::State::broken, commitment::specs::Commitment::open_cause))]
    pub fn broken(self) -> bool
        ensures { result ≡ broken self }
    {
        if Party::check_opening(self.seat.n, self.seat.t, self.seat.own, self.len).is_err() {
            return true;
        }
        if MAX_SHARE < self.held {
            return true;
        }
        if self.stray() {
            return true;
        }
        overlong(self.stage)
    }

    // Whether the map names a party beyond n, or the party itself.
    fn stray(self) -> bool
        ensures { result ≡ stray self }
    {
        let map = self.faulty as usize;
        !bitmap::up_to(self.seat.n, map) || bitmap::names(map, self.seat.own)
    }

    // Whether a party with this number opens with a message of `len` bytes; cause 1, 2, 3 or 4. The first three are judged with no message, the length by
    // the party's own limit.
    #[tactic(auto, unfolding(commitment::specs::Commitment::open_cause))]
    fn check_opening(n: usize, t: usize, own: usize, len: usize) -> Result<(), Cause>
        ensures { cause_of result ≡ open_cause n t own len }
    {
        commitment::check_opening(n, t, own, 0)?;
        if Party::MAX_MESSAGE < len {
            return Err(Cause::Length);
        }
        Ok(())
    }

    // The state at another stage, with its message and with zeros past every length.
    fn waiting(
        self,
        stage: Stage,
        root: Hash,
        share: [u8; MAX_SHARE],
        held: usize,
        faulty: u32,
    ) -> Party
        requires { self.len ≤ max_message }
        ensures { result ≡ record { seat = self.seat; stage = stage; message = padded max_message (message_in self); len = self.len; root = root; share = share; held = held; faulty = faulty } }
    {
        let mut kept = [0; Party::MAX_MESSAGE];
        buffer::put(&mut kept, 0, &self.message[..self.len]);
        Party {
            seat: self.seat,
            stage,
            message: kept,
            len: self.len,
            root,
            share,
            held,
            faulty,
        }
    }

    fn ended(self, len: Option<usize>, message: [u8; Party::MAX_MESSAGE], faulty: u32) -> Party
        ensures { result ≡ record { seat = self.seat; stage = Stage.Ended len; message = message; len = 0; root = blank; share = replicate max_share 0; held = 0; faulty = faulty } }
    {
        Party {
            seat: self.seat,
            stage: Stage::Ended(len),
            message,
            len: 0,
            root: [0; 32],
            share: [0; MAX_SHARE],
            held: 0,
            faulty,
        }
    }

    fn refused(self, cause: Cause) -> Reply
        ensures { result ≡ record { state = self; answer = Result.Err (Refusal.Because cause) } }
    {
        Reply {
            state: self,
            answer: Err(Refusal::Because(cause)),
        }
    }

    // Cause 9, with the length needed.
    fn short(self, need: usize) -> Reply
        ensures { result ≡ record { state = self; answer = Result.Err (Refusal.Short need) } }
    {
        Reply {
            state: self,
            answer: Err(Refusal::Short(need)),
        }
    }

    // Whether the agreed root is that of the party's own message.
    #[tactic(auto, unfolding(crate::specs::State::happy))]
    fn happy(self) -> bool
        requires { Fit self }
        ensures { result ≡ happy sha256 self }
    {
        self.has_root(&self.message[..self.len])
    }

    // Whether the agreed root is that of a message.
    fn has_root(self, message: &[u8]) -> bool
        requires { Fit self × (length message.now ≤ max_message) }
        ensures { result ≡ same (message_root sha256 self.seat.session self.seat.n self.seat.t message.now) self.root }
    {
        let root = commitment::root(self.seat, message).unwrap();
        check::same(&root, &self.root)
    }

    // Lengths of zero for all parties, and the next state; cause 9 where out is too short.
    fn silent(self, next: Party, out: &mut [u8]) -> Reply
        requires { self.seat.n ≤ max_parties }
        ensures { stepped result out.new ≡ writes self next (replicate (2 * self.seat.n) 0) out.old }
    {
        let need = 2 * self.seat.n;
        if out.len() < need {
            return self.short(need);
        }
        out[..need].fill(0);
        Reply {
            state: next,
            answer: Ok(Answer::Sent(need)),
        }
    }
}

// What a sender's packet is to a walk over an inbox: silence, faulty, or a valid share.
#[derive(Clone, Copy)]
enum Finding {
    Silent,
    Faulty,
    Valid(Share),
}

impl Finding {
    fn is_faulty(&self) -> bool
        ensures { result ≡ found_faulty self.now }
    {
        matches!(self, Finding::Faulty)
    }
}

// What the first inbox gives: the share to relay, and a map of the senders whose packets are faulty.
#[derive(Clone, Copy)]
struct Shares {
    taken: Option<Share>,
    faulty: u32,
}

// What the second inbox gives: where the shares lie to rebuild from, and the map of all parties seen to be faulty.
#[derive(Clone, Copy)]
struct Relays {
    places: Places,
    faulty: u32,
}

// What is found of each sender's packet in an inbox. One number is demanded of all packets, or of each its sender's own. The own entry is ignored.
fn findings(
    seat: Seat,
    root: &Hash,
    inbox: &[u8],
    demanded: Option<usize>,
) -> [Finding; Party::MAX_PARTIES]
    requires { Judges seat root.now inbox.now demanded }
    ensures { Found sha256 seat root.now inbox.now demanded result }
{
    let mut found = [Finding::Silent; Party::MAX_PARTIES];
    let mut at = 0;
    for i in 0..seat.n {
        let Entry { packet, next } = packet::read_entry(seat.n, inbox, at);
        found[i] = find(seat, i + 1, demanded, root, inbox, packet);
        at = next;
    }
    found
}

// What a packet is that was read from an inbox, from sender j.
fn find(
    seat: Seat,
    j: usize,
    demanded: Option<usize>,
    root: &Hash,
    inbox: &[u8],
    packet: Read,
) -> Finding
    ensures { result ≡ cond (eqb j seat.own) Finding.Silent (finding_of (judge_of sha256 seat.session seat.n (unwrap_or demanded j) root.now inbox.now (read_said packet)) (read_said packet)) }
{
    if j == seat.own {
        return Finding::Silent;
    }
    let number = demanded.unwrap_or(j);
    let judged = packet::judge(seat.session, seat.n, number, root, inbox, packet);
    match (judged, packet) {
        (Ok(Judged::Faulty), _) => Finding::Faulty,
        (Ok(Judged::Valid), Ok(Some(share))) => Finding::Valid(share),
        _ => Finding::Silent,
    }
}

// The map of the senders whom a map names already, or whose packets are faulty.
fn marked(before: u32, found: &[Finding]) -> u32
    requires { length found.now ≤ max_parties }
    ensures { result ≡ map_of (marks before found.now) (length found.now) }
{
    let mut map = 0;
    for (i, finding) in found.iter().enumerate() {
        if bitmap::names(before as usize, i + 1) || finding.is_faulty() {
            map += 1 << i;
        }
    }
    map
}

// The first valid share.
fn first_place(found: &[Finding]) -> Option<Share>
    ensures { result ≡ first_place found.now }
{
    for finding in found {
        if let Finding::Valid(share) = finding {
            return Some(*share);
        }
    }
    None
}

// Where the valid shares lie, each under its sender's number.
fn places(found: &[Finding]) -> Places
    requires { length found.now ≤ max_parties }
    ensures { (i : ℕ) → i < length found.now → Lies_as (get_or found.now i Finding.Silent) (place_at result i) }
{
    let mut places = [Place { from: 0, len: 0 }; Party::MAX_PARTIES];
    for (i, finding) in found.iter().enumerate() {
        if let Finding::Valid(share) = finding {
            places[i] = Place {
                from: share.from,
                len: share.len,
            };
        }
    }
    places
}

#[tactic(auto, unfolding(crate::specs::State::blank_state))]
fn blank() -> Party
    ensures { result ≡ blank_state }
{
    Party {
        seat: Seat {
            session: 0,
            n: 0,
            t: 0,
            own: 0,
        },
        stage: Stage::Root,
        message: [0; Party::MAX_MESSAGE],
        len: 0,
        root: [0; 32],
        share: [0; MAX_SHARE],
        held: 0,
        faulty: 0,
    }
}

// What a refused opening gives: a blank state.
fn refused_opening(cause: Cause) -> Opened
    ensures { opened result ≡ refused_opening (number cause) }
{
    Opened {
        state: blank(),
        root: Err(cause),
    }
}

// The same of an opening by a named sender.
fn turned_away(refusal: Refusal) -> OpenedBySender
    ensures { result ≡ record { state = blank_state; answer = Result.Err refusal } }
{
    OpenedBySender {
        state: blank(),
        answer: Err(refusal),
    }
}

// The opening with a message, of which so many bytes were written for the others. It is a call of its own, so that its caller has no room for each.
#[inline(never)]
fn open_and_begin(
    session: u32,
    n: usize,
    t: usize,
    own: usize,
    message: &[u8],
    len: usize,
) -> OpenedBySender
    ensures { Begins (open_of sha256 session n t own message.now) len result }
{
    begin(Party::open(session, n, t, own, message), len)
}

// An opening, of which so many bytes were written for the others.
fn begin(opening: Opened, len: usize) -> OpenedBySender
    ensures { result ≡ with_length opening len }
{
    let answer = match opening.root {
        Ok(root) => Ok(Begun { root, len }),
        Err(cause) => Err(Refusal::Because(cause)),
    };
    OpenedBySender {
        state: opening.state,
        answer,
    }
}

fn turn_of(stage: Stage) -> usize
    ensures { result ≡ turn_of stage }
{
    match stage {
        Stage::Root => 2,
        Stage::Bit => 3,
        Stage::First => 4,
        Stage::Second => 5,
        Stage::Ended(_) => 5,
    }
}

fn overlong(stage: Stage) -> bool
    ensures { result ≡ overlong stage }
{
    match stage {
        Stage::Ended(Some(len)) => Party::MAX_MESSAGE < len,
        Stage::Root | Stage::Bit | Stage::First | Stage::Second | Stage::Ended(None) => false,
    }
}
