// A rehearsal: a plan played by the parties themselves, and what it prints.
#![tactic(auto)]

ghost use Rattle.std.specs.Prelude.{◌≡◌, true, cond, Some, None, [], ◌+◌, ◌*◌, ◌≤◌, ◌<◌, length, take, replicate, IfSome};
ghost use Rattle.sha256.specs.Sha256.{sha256};
ghost use Rattle.limits.specs.Limits.{max_parties, max_message, max_plan};
ghost use Rattle.buffer.specs.Splice.{spliced};
ghost use Rattle.buffer.specs.Entries.{bodies};
ghost use Rattle.buffer.specs.Given.{said, gave};
ghost use Rattle.packet.specs.Message.{max_message_packet};
ghost use Rattle.party.specs.Answer.{answered};
ghost use Rattle.party.specs.Sender.{begun};
ghost use Rattle.party.specs.State.{result_from};
ghost use Rattle.party.specs.Steps.{stepped};
ghost use Rattle.agreement.specs.Calls.{lengths};
ghost use Rattle.plan.specs.Layout.{unnamed, n_in, has_sender, sender_in, good_in, exchange_in};
ghost use Rattle.plan.specs.Plan.{parts_said, plan_of};
ghost use Rattle.exchange.specs.Exchange.{inbox_to, slot_of};
ghost use Rattle.session.specs.Session.{max_outbox, sent_length, wrote_in, line_with, whole_in, is_good, book_of, lowest_good, sender_wrote, handed_to, given_by};
ghost use Rattle.session.specs.Session.{opened_by_sender, opened, agreed_root, step2, agreed_bit, same_roots, same_bits, unlawful, step3, step4};
ghost use Rattle.session.specs.Session.{step5, ends_with, sent_later, sent_of, lines_from, sent_from, output, rehearse_of, print_of};
ghost use Rattle.session.specs.Private.{step_for, state_for, States, Wrote, Behind, Dealt, Relayed, Sizes, Finishing, number_of, inbox_room, max_line, max_text, opening_of, root_begun, message_in, own_bit, line_for, other_root, other_bit};

use buffer::Written;
use cause::{Cause, Refusal};
use commitment::MAX_OUTBOX;
use exchange::Mail;
use limits::{MAX_MESSAGE, MAX_PARTIES, MAX_PLAN};
use merkle::Hash;
use packet::MAX_MESSAGE_PACKET;
use party::{Answer, Begun, OpenedBySender, Party, Reply};
use plan::{BIT, Plan, ROOT};

// The greatest length of an inbox: the packets of bad parties stand in the plan, and one of a good party is no longer than an outbox.
const MAX_INBOX: usize = MAX_PLAN + MAX_PARTIES * (MAX_OUTBOX + 2);

// The longest line, and the longest output: a line for each party, and the last one.
const MAX_LINE: usize = 24 + 2 * MAX_MESSAGE;

pub const MAX_TEXT: usize = (MAX_PARTIES + 1) * MAX_LINE;

// Room for what all parties write for an exchange.
const MAX_BOXES: usize = MAX_PARTIES * MAX_OUTBOX;

// What parties wrote for an exchange: each in a slot of its own, party 1's first, with its length.
#[derive(Drop)]
struct Outgoing {
    slots: [u8; MAX_BOXES],
    lens: [usize; MAX_PARTIES],
}

// An exchange: of outboxes, of which each receiver gets a packet, or of relays, which go to all whole.
#[derive(Clone, Copy)]
enum Exchange {
    Outboxes,
    Relays,
}

impl Exchange {
    // Its number in a plan.
    fn number(self) -> usize
        ensures { result ≡ number_of self }
    {
        match self {
            Exchange::Outboxes => 0,
            Exchange::Relays => 1,
        }
    }
}

// The step in which a party writes for an exchange: its outbox, in step 3, or its relay, in step 4, on the outboxes of all.
#[derive(Clone, Copy)]
enum Step<'a> {
    Outbox,
    Relay(&'a Outgoing),
}

// The output of a plan in a lent buffer; causes 13, 1, 2, 13, 3, 4, 14, and 9 where the buffer is shorter.
pub fn rehearse(bytes: &[u8], out: &mut [u8]) -> Written
    ensures { gave (said result) out.new ≡ rehearse_of sha256 bytes.now out.old }
{
    let parts = plan::read(bytes)?;
    let play = Play { bytes, parts };
    let root = play.agreed_root();
    let vote = Vote { play, root };
    let bit = vote.agreed_bit();
    if vote.is_unlawful(bit) {
        return Err(Refusal::Because(Cause::Unlawful));
    }
    let mut states = vote.voted_all();
    let agreed = Agreed { play, bit };
    let mut text = [0u8; MAX_TEXT];
    let len = agreed.play(&mut states, &mut text);
    buffer::give(&text[..len], out)
}

// What a rehearsal prints, in a lent buffer: the output, or the line of a plan that is refused.
pub fn print(bytes: &[u8], out: &mut [u8]) -> Written
    ensures { gave (said result) out.new ≡ print_of sha256 bytes.now out.old }
{
    match rehearse(bytes, out) {
        Ok(len) => Ok(len),
        Err(Refusal::Because(cause)) => report::refused_line(usize::from(u8::from(cause)), out),
        Err(Refusal::Short(len)) => Err(Refusal::Short(len)),
    }
}

// A plan that is taken.
#[derive(Clone, Copy)]
struct Play<'a> {
    bytes: &'a [u8],
    parts: Plan,
    ghost read: { parts_said parts ≡ plan_of bytes.now },
    ghost sender_is: { parts.sender ≡ cond (has_sender bytes.now) (Some (sender_in bytes.now)) None },
}

// A party after step 1, and the root that it puts in: zeros, if its opening was refused.
#[derive(Clone, Copy)]
struct Opening {
    state: Party,
    root: Hash,
}

impl<'a> Play<'a> {
    // Whether party p is good.
    fn is_good(&self, p: usize) -> bool
        ensures { result ≡ is_good self.now.bytes.now p }
    {
        bitmap::names(self.parts.good, p)
    }

    // The lowest-numbered good party; 0 if there is none.
    fn lowest_good(&self) -> usize
        ensures { result ≡ lowest_good self.now.bytes.now }
    {
        (1..=self.parts.n).find(|p| self.is_good(*p)).unwrap_or(0)
    }

    // How many parties are not good.
    fn count_bad(&self) -> usize
        ensures { result ≡ unnamed (n_in self.now.bytes.now) 1 (good_in self.now.bytes.now) }
    {
        (1..=self.parts.n).filter(|p| !self.is_good(*p)).count()
    }

    // Step 1 of party q, with its book or by the sender.
    fn opened(&self, q: usize) -> Opening
        ensures { result ≡ opening_of (opened sha256 self.now.bytes.now q) }
    {
        if let Some(sender) = self.parts.sender {
            let gift = Gift {
                play: *self,
                sender,
            };
            return gift.opened(q);
        }
        let parts = self.parts;
        let mut message = [0u8; MAX_MESSAGE];
        let len = self.book(q, &mut message);
        let begun = Party::open(parts.session, parts.n, parts.t, q, &message[..len]);
        Opening {
            state: begun.state,
            root: begun.root.unwrap_or([0; 32]),
        }
    }

    // The length of the packet that party q gives to each other one in its opening; 0 where it gives none.
    fn given(&self, q: usize) -> usize
        ensures { (result ≤ max_message_packet) × (result ≡ length (given_by sha256 self.now.bytes.now q)) }
    {
        match self.parts.sender {
            Some(sender) if q == sender => {
                let gift = Gift {
                    play: *self,
                    sender,
                };
                let mut packet = [0u8; MAX_MESSAGE_PACKET];
                gift.wrote(&mut packet)
            }
            Some(_) | None => 0,
        }
    }

    // Party q's book, at the start of out; its length, 0 where it has none.
    fn book(&self, q: usize, out: &mut [u8]) -> usize
        requires { max_message ≤ length out.old }
        ensures { (result ≤ max_message) × (take result out.new ≡ book_of self.now.bytes.now q) }
    {
        let from = self.parts.books;
        buffer::value_of(plan::book(
            &self.bytes[from..],
            self.parts.n,
            self.parts.holders,
            q,
            out,
        ))
    }

    // The given root, or that of the lowest-numbered good party.
    fn agreed_root(&self) -> Hash
        ensures { result ≡ agreed_root sha256 self.now.bytes.now }
    {
        if bitmap::names(self.parts.options, ROOT) {
            let at = plan::field_at(self.parts.options, ROOT);
            let end = at + 32;
            let mut root = [0u8; 32];
            root.copy_from_slice(&self.bytes[at..end]);
            return root;
        }
        let q = self.lowest_good();
        self.opened(q).root
    }

    // Whether all good parties put in this root.
    fn same_roots(&self, w: &Hash) -> bool
        ensures { result ≡ same_roots sha256 self.now.bytes.now (n_in self.now.bytes.now) 1 w.now }
    {
        (1..=self.parts.n).all(|p| !self.is_good(p) || self.opened(p).root == *w)
    }

    // The bytes that all good parties sent.
    fn sent_all(&self, boxes: &Outgoing, relays: &Outgoing) -> usize
        requires { Dealt self.now.bytes.now boxes.now × Sizes self.now.bytes.now relays.now }
        ensures { result ≡ sent_from sha256 self.now.bytes.now (n_in self.now.bytes.now) 1 }
    {
        let mut sum = 0;
        for p in 1..=self.parts.n {
            if self.is_good(p) {
                sum += self.sent_in_all(boxes, relays, p);
            }
        }
        sum
    }

    // The bytes that good party q sent: as the sender its packet to all others, and what it sent from step 3 on.
    fn sent_in_all(&self, boxes: &Outgoing, relays: &Outgoing, q: usize) -> usize
        requires { Dealt self.now.bytes.now boxes.now × Sizes self.now.bytes.now relays.now
            × (1 ≤ q) × (q ≤ n_in self.now.bytes.now) × (is_good self.now.bytes.now q ≡ true) }
        ensures { (result ≡ sent_of sha256 self.now.bytes.now q) × (result ≤ max_parties * max_message_packet + (max_outbox + max_parties * max_outbox)) }
    {
        let n = self.parts.n;
        let first = (n - 1) * self.given(q);
        first + self.sent_by(boxes, relays, q)
    }

    // The bytes that good party q sent from step 3 on: its packets, and its relay to all others.
    fn sent_by(&self, boxes: &Outgoing, relays: &Outgoing, q: usize) -> usize
        requires { Dealt self.now.bytes.now boxes.now × Sizes self.now.bytes.now relays.now
            × (1 ≤ q) × (q ≤ n_in self.now.bytes.now) × (is_good self.now.bytes.now q ≡ true) }
        ensures { (result ≡ sent_later sha256 self.now.bytes.now q) × (result ≤ max_outbox + max_parties * max_outbox) }
    {
        let n = self.parts.n;
        let j = q - 1;
        let from = j * MAX_OUTBOX;
        let end = from + boxes.lens[j];
        let relayed = (n - 1) * relays.lens[j];
        packet_bytes(n, &boxes.slots[from..end]) + relayed
    }

    // Party i's inbox of an exchange in which this was sent; its length.
    fn inbox(&self, exchange: Exchange, sent: &Outgoing, i: usize, out: &mut [u8]) -> usize
        requires { (1 ≤ i) × (i ≤ n_in self.now.bytes.now) × (length out.old ≡ inbox_room) }
        ensures { (result ≤ length out.new)
            × (take result out.new ≡ inbox_to (n_in self.now.bytes.now) (good_in self.now.bytes.now) (whole_in (number_of exchange))
            (slot_of max_outbox sent.now.slots sent.now.lens) (exchange_in (number_of exchange) self.now.bytes.now) i) }
    {
        let e = exchange.number();
        let mail = Mail {
            n: self.parts.n,
            good: self.parts.good,
            size: MAX_OUTBOX,
            whole: e != 0,
        };
        let at = plan::exchange_at(self.bytes, self.parts, e);
        buffer::value_of(exchange::fill(mail, &sent.slots, &sent.lens, &self.bytes[at..], i, out))
    }

    // Step 5 of party q, on its second inbox; its message in out.
    fn ended(&self, state: Party, relays: &Outgoing, q: usize, out: &mut [u8]) -> Reply
        requires { (1 ≤ q) × (q ≤ n_in self.now.bytes.now) × (state ≡ (step4 sha256 self.now.bytes.now q).state)
            × Wrote self.now.bytes.now (λ p. wrote_in (step4 sha256 self.now.bytes.now p)) relays.now
            × (out.old ≡ replicate max_message 0) }
        ensures { stepped result out.new ≡ step5 sha256 self.now.bytes.now q }
    {
        let mut room = blank::<MAX_INBOX>();
        let len = self.inbox(Exchange::Relays, relays, q, &mut room);
        state.take_relays(&room[..len], out)
    }
}

// A plan with the sender that it names.
#[derive(Clone, Copy)]
struct Gift<'a> {
    play: Play<'a>,
    sender: usize,
    ghost named: { has_sender play.bytes.now ≡ true },
    ghost sender_is: { sender ≡ sender_in play.bytes.now },
}

impl<'a> Gift<'a> {
    // Step 1 of party q: what it is handed is read or, if it is the sender, sent.
    fn opened(&self, q: usize) -> Opening
        ensures { result ≡ opening_of (opened_by_sender sha256 self.now.play.bytes.now q (handed_to sha256 self.now.play.bytes.now q)).opened }
    {
        let mut room = blank::<MAX_PLAN>();
        let len = self.handed(q, &mut room);
        let mut packet = [0u8; MAX_MESSAGE_PACKET];
        let begun = self.begun(q, &room[..len], &mut packet);
        Opening {
            state: begun.state,
            root: root_of(begun.answer),
        }
    }

    // The same, handed these bytes; what it writes for the others stands in out.
    fn begun(&self, q: usize, bytes: &[u8], out: &mut [u8]) -> OpenedBySender
        requires { out.old ≡ replicate max_message_packet 0 }
        ensures { begun result out.new ≡ opened_by_sender sha256 self.now.play.bytes.now q bytes.now }
    {
        let parts = self.play.parts;
        Party::open_by_sender(parts.session, parts.n, parts.t, q, self.sender, bytes, out)
    }

    // What party q's opening is handed, at the start of out; its length.
    fn handed(&self, q: usize, out: &mut [u8]) -> usize
        requires { length out.old ≡ max_plan }
        ensures { (result ≤ length out.new) × (take result out.new ≡ handed_to sha256 self.now.play.bytes.now q) }
    {
        let Gift { play, sender } = *self;
        if q == sender {
            return play.book(q, out);
        }
        if play.is_good(sender) {
            return self.wrote(out);
        }
        let at = play.parts.packets;
        buffer::value_of(plan::block(&play.bytes[at..], play.parts.n, q, out))
    }

    // The packet that the sender writes in its opening, at the start of out; its length.
    fn wrote(&self, out: &mut [u8]) -> usize
        requires { max_message_packet ≤ length out.old }
        ensures { (result ≤ max_message_packet) × (take result out.new ≡ sender_wrote sha256 self.now.play.bytes.now) }
    {
        let mut message = [0u8; MAX_MESSAGE];
        let len = self.play.book(self.sender, &mut message);
        let mut packet = [0u8; MAX_MESSAGE_PACKET];
        let begun = self.begun(self.sender, &message[..len], &mut packet);
        let size = begun.answer.unwrap().len;
        buffer::put(out, 0, &packet[..size]);
        size
    }
}

// A plan with its agreed root.
#[derive(Clone, Copy)]
struct Vote<'a> {
    play: Play<'a>,
    root: Hash,
    ghost root_is: { root ≡ agreed_root sha256 play.bytes.now },
}

impl<'a> Vote<'a> {
    // Step 2 of party q.
    fn ballot(&self, q: usize) -> Reply
        ensures { stepped result [] ≡ step2 sha256 self.now.play.bytes.now q }
    {
        self.play.opened(q).state.agree_root(&self.root)
    }

    // The bit that party q puts in.
    fn own_bit(&self, q: usize) -> u8
        ensures { result ≡ (step2 sha256 self.now.play.bytes.now q).value }
    {
        let answer = self.ballot(q).answer;
        bit_of(answer)
    }

    // The given bit, or that of the lowest-numbered good party.
    fn agreed_bit(&self) -> u8
        ensures { result ≡ agreed_bit sha256 self.now.play.bytes.now }
    {
        let options = self.play.parts.options;
        if bitmap::names(options, BIT) {
            let at = plan::field_at(options, BIT);
            return self.play.bytes[at];
        }
        let q = self.play.lowest_good();
        self.own_bit(q)
    }

    // Whether all good parties put in this bit.
    fn same_bits(&self, b: u8) -> bool
        ensures { result ≡ same_bits sha256 self.now.play.bytes.now (n_in self.now.play.bytes.now) 1 b }
    {
        (1..=self.play.parts.n).all(|p| !self.play.is_good(p) || self.own_bit(p) == b)
    }

    // Whether all good parties put in one root, and another one is agreed.
    fn has_other_root(&self) -> bool
        ensures { result ≡ other_root sha256 self.now.play.bytes.now }
    {
        let q = self.play.lowest_good();
        let own = self.play.opened(q).root;
        self.play.same_roots(&own) && self.root != own
    }

    // Whether all good parties put in one bit, and the other one is agreed.
    fn has_other_bit(&self, bit: u8) -> bool
        requires { bit ≡ agreed_bit sha256 self.now.play.bytes.now }
        ensures { result ≡ other_bit sha256 self.now.play.bytes.now }
    {
        let q = self.play.lowest_good();
        let own = self.own_bit(q);
        self.same_bits(own) && bit != own
    }

    // Cause 14: whether the plan is against the rule of the short agreement.
    fn is_unlawful(&self, bit: u8) -> bool
        requires { bit ≡ agreed_bit sha256 self.now.play.bytes.now }
        ensures { result ≡ unlawful sha256 self.now.play.bytes.now }
    {
        let parts = self.play.parts;
        if parts.t < self.play.count_bad() {
            return true;
        }
        if bitmap::names(parts.options, BIT) {
            if 1 < bit {
                return true;
            }
        }
        self.has_other_root() || self.has_other_bit(bit)
    }

    // The good parties after step 2.
    fn voted_all(&self) -> [Party; MAX_PARTIES]
        ensures { States self.now.play.bytes.now (λ p. (step2 sha256 self.now.play.bytes.now p).state) 0 (n_in self.now.play.bytes.now) result }
    {
        let Reply { state, .. } = self.ballot(1);
        let mut states = [state; MAX_PARTIES];
        for j in 0..self.play.parts.n {
            let q = j + 1;
            if self.play.is_good(q) {
                let Reply { state: own, .. } = self.ballot(q);
                states[j] = own;
            }
        }
        states
    }
}

// A plan with its agreed bit.
#[derive(Clone, Copy)]
struct Agreed<'a> {
    play: Play<'a>,
    bit: u8,
    ghost bit_is: { bit ≡ agreed_bit sha256 play.bytes.now },
}

impl<'a> Agreed<'a> {
    // The whole output, from the start of `text` on; its length.
    fn play(&self, states: &mut [Party; MAX_PARTIES], text: &mut [u8]) -> usize
        requires { States self.now.play.bytes.now (λ p. (step2 sha256 self.now.play.bytes.now p).state) 0 (n_in self.now.play.bytes.now) states.old
            × (length text.old ≡ max_text) }
        ensures { (result ≤ length text.new) × (take result text.new ≡ output sha256 self.now.play.bytes.now) }
    {
        let mut boxes = Outgoing {
            slots: [0; MAX_BOXES],
            lens: [0; MAX_PARTIES],
        };
        self.round(Step::Outbox, states, &mut boxes);
        let mut relays = Outgoing {
            slots: [0; MAX_BOXES],
            lens: [0; MAX_PARTIES],
        };
        self.relay_on_one(states, &boxes, &mut relays);
        let at = self.put_lines(states, &relays, text);
        let sent = self.play.sent_all(&boxes, &relays);
        at + buffer::value_of(report::sent_line(sent, &mut text[at..]))
    }

    // The good parties after step 4, and their relays; on bit 0 they have ended, and there are none.
    fn relay_on_one(
        &self,
        states: &mut [Party; MAX_PARTIES],
        boxes: &Outgoing,
        relays: &mut Outgoing,
    )
        requires { States self.now.play.bytes.now (λ p. (step3 sha256 self.now.play.bytes.now p).state) 0 (n_in self.now.play.bytes.now) states.old
            × Dealt self.now.play.bytes.now boxes.now × (relays.old.lens ≡ replicate max_parties 0) }
        ensures { Relayed self.now.play.bytes.now relays.new states.new × Sizes self.now.play.bytes.now relays.new }
    {
        if self.bit != 0 {
            self.round(Step::Relay(boxes), states, relays);
        }
    }

    // The good parties' lines; the place behind them.
    fn put_lines(&self, states: &[Party; MAX_PARTIES], relays: &Outgoing, text: &mut [u8]) -> usize
        requires { Relayed self.now.play.bytes.now relays.now states.now × (length text.old ≡ max_text) }
        ensures { (result + max_line ≤ length text.new)
            × (take result text.new ≡ lines_from sha256 self.now.play.bytes.now (n_in self.now.play.bytes.now) 1) }
    {
        let mut at = 0;
        for j in 0..self.play.parts.n {
            let q = j + 1;
            if self.play.is_good(q) {
                at += self.put_line(states[j], relays, q, &mut text[at..]);
            }
        }
        at
    }

    // Good party q's line at the start of `text`; its length.
    fn put_line(&self, state: Party, relays: &Outgoing, q: usize, text: &mut [u8]) -> usize
        requires { Finishing self.now.play.bytes.now relays.now state q × (max_line ≤ length text.old) }
        ensures { (result ≡ length (line_with q (ends_with sha256 self.now.play.bytes.now q))) × (result ≤ max_line)
            × (text.new ≡ spliced text.old 0 (line_with q (ends_with sha256 self.now.play.bytes.now q))) }
    {
        let mut message = [0u8; MAX_MESSAGE];
        let len = self.result_of(state, relays, q, &mut message);
        match len {
            Some(len) => write_line(q, Some(&message[..len]), text),
            None => write_line(q, None, text),
        }
    }

    // The length of the message that good party q ended with, which stands in out; none where it ended with nothing, as on bit 0 in step 3.
    fn result_of(&self, state: Party, relays: &Outgoing, q: usize, out: &mut [u8]) -> Option<usize>
        requires { Finishing self.now.play.bytes.now relays.now state q × (out.old ≡ replicate max_message 0) }
        ensures { IfSome result (λ len. len ≤ max_message)
            × (result_from result out.new ≡ ends_with sha256 self.now.play.bytes.now q) }
    {
        if self.bit == 0 {
            return None;
        }
        let Reply { answer, .. } = self.play.ended(state, relays, q, out);
        message_len(answer)
    }

    // The good parties take the step in which they write for an exchange; what each wrote stands in its slot then.
    fn round(&self, step: Step, states: &mut [Party; MAX_PARTIES], sent: &mut Outgoing)
        requires { Behind self.now.play.bytes.now step
            × States self.now.play.bytes.now (state_for step self.now.play.bytes.now) 0 (n_in self.now.play.bytes.now) states.old }
        ensures { States self.now.play.bytes.now (λ p. (step_for step.entry self.now.play.bytes.now p).state) 0 (n_in self.now.play.bytes.now) states.new
            × Wrote self.now.play.bytes.now (λ p. wrote_in (step_for step.entry self.now.play.bytes.now p)) sent.new
            × (length sent.new.slots ≡ max_parties * max_outbox) }
    {
        for j in 0..self.play.parts.n {
            let q = j + 1;
            if self.play.is_good(q) {
                let at = j * MAX_OUTBOX;
                let len = self.advance(step, q, &mut states[j], &mut sent.slots[at..]);
                sent.lens[j] = len;
            }
        }
    }

    // Party q takes that step; what it wrote stands at the start of its slot then. Its length.
    fn advance(&self, step: Step, q: usize, state: &mut Party, slot: &mut [u8]) -> usize
        requires { Behind self.now.play.bytes.now step × (1 ≤ q) × (q ≤ n_in self.now.play.bytes.now)
            × (state.old ≡ state_for step self.now.play.bytes.now q) × (max_outbox ≤ length slot.old) }
        ensures { (state.new ≡ (step_for step.entry self.now.play.bytes.now q).state)
            × (result ≡ length (wrote_in (step_for step.entry self.now.play.bytes.now q))) × (result ≤ max_outbox)
            × (slot.new ≡ spliced slot.old 0 (wrote_in (step_for step.entry self.now.play.bytes.now q))) }
    {
        let mut out = [0u8; MAX_OUTBOX];
        let Reply {
            state: after,
            answer,
        } = self.take_step(step, *state, q, &mut out);
        *state = after;
        let len = sent_len(answer);
        buffer::put(slot, 0, &out[..len]);
        len
    }

    // What that step of party q gives, with what it writes in out.
    fn take_step(&self, step: Step, state: Party, q: usize, out: &mut [u8]) -> Reply
        requires { Behind self.now.play.bytes.now step × (1 ≤ q) × (q ≤ n_in self.now.play.bytes.now)
            × (state ≡ state_for step self.now.play.bytes.now q) × (out.old ≡ replicate max_outbox 0) }
        ensures { stepped result out.new ≡ step_for step.entry self.now.play.bytes.now q }
    {
        match step {
            Step::Outbox => state.agree_bit(usize::from(self.bit), out),
            Step::Relay(boxes) => {
                let mut room = blank::<MAX_INBOX>();
                let len = self.play.inbox(Exchange::Outboxes, boxes, q, &mut room);
                state.take_shares(&room[..len], out)
            }
        }
    }
}

// Party q's line at the start of `text`, with the message that it ended with, or nothing; its length.
fn write_line(q: usize, message: Option<&[u8]>, text: &mut [u8]) -> usize
    requires { IfSome message (λ m. length m.now ≤ max_message) × (max_line ≤ length text.old) }
    ensures { (result ≡ length (line_for q message.entry)) × (result ≤ max_line)
        × (text.new ≡ spliced text.old 0 (line_for q message.entry)) }
{
    buffer::value_of(match message {
        None => report::line(q, false, &[], text),
        Some(m) => report::line(q, true, m, text),
    })
}

// The bytes of an outbox's packets, without their lengths; of one that runs short, those that are there.
fn packet_bytes(n: usize, outbox: &[u8]) -> usize
    ensures { (result ≡ lengths (bodies n outbox.now)) × (result ≤ length outbox.now) }
{
    let mut sum = 0;
    let mut at = 0;
    for _k in 0..n {
        if outbox.len() - at < 2 {
            return sum;
        }
        let size = buffer::size_at(outbox, at);
        let left = outbox.len() - at - 2;
        if left < size {
            return sum + left;
        }
        sum += size;
        at = at + 2 + size;
    }
    sum
}

// An array of zeros, in a function of its own: its callers' proofs then meet its length and not its bytes.
fn blank<const N: usize>() -> [u8; N]
    ensures { length result ≡ N }
{
    [0; N]
}

// The root of an opening by the sender; zeros, if it was refused.
fn root_of(answer: Result<Begun, Refusal>) -> Hash
    ensures { result ≡ root_begun answer }
{
    match answer {
        Ok(begun) => begun.root,
        Err(_) => [0; 32],
    }
}

// The bit of an answer; 0 if the step was refused.
fn bit_of(answer: Result<Answer, Refusal>) -> u8
    ensures { result ≡ own_bit (answered answer) }
{
    match answer {
        Ok(Answer::Happy(happy)) => u8::from(happy),
        Ok(Answer::Sent(_) | Answer::Nothing(_) | Answer::Message(_, _)) | Err(_) => 0,
    }
}

// The length of the message that a party ended with; none if it ended with nothing.
fn message_len(answer: Result<Answer, Refusal>) -> Option<usize>
    ensures { result ≡ message_in (answered answer) }
{
    match answer {
        Ok(Answer::Message(len, _)) => Some(len),
        Ok(Answer::Happy(_) | Answer::Sent(_) | Answer::Nothing(_)) | Err(_) => None,
    }
}

// How many bytes a step wrote; 0 if it was refused.
fn sent_len(answer: Result<Answer, Refusal>) -> usize
    ensures { result ≡ sent_length (answered answer) }
{
    match answer {
        Ok(Answer::Sent(len)) => len,
        Ok(Answer::Happy(_) | Answer::Nothing(_) | Answer::Message(_, _)) | Err(_) => 0,
    }
}
