// An exchange of a rehearsal: inboxes, from what good parties wrote and from what the plan says that bad ones send.
#![tactic(auto)]

ghost use Rattle.std.specs.Prelude.{◌≡◌, ◌+◌, ◌≤◌, length};
ghost use Rattle.limits.specs.Limits.{max_parties};
ghost use Rattle.buffer.specs.Given.{said, gave, written};
ghost use Rattle.packet.specs.Format.{entry_of};
ghost use Rattle.exchange.specs.Exchange.{max_inbox, slot_of, fill_of};
ghost use Rattle.exchange.specs.Private.{Lawful, Wrote, sent_by, inbox_by};

use buffer::Written;
use cause::{Cause, Refusal};
use limits::{MAX_ENTRY, MAX_PLAN};

// An exchange among n parties, of whom a map names the good ones. What a good party wrote lies in a slot of so many bytes; it goes to every
// other party whole, or has an entry for each.
#[derive(Clone, Copy)]
pub struct Mail {
    pub n: usize,
    pub good: usize,
    pub size: usize,
    pub whole: bool,
}

// Party i's inbox in an exchange: the slots have their lengths beside them; the blocks are those that the plan has of the exchange.
#[derive(Clone, Copy)]
struct Inbox<'a> {
    mail: Mail,
    slots: &'a [u8],
    lens: &'a [usize],
    blocks: &'a [u8],
    i: usize,
    ghost lawful: { Lawful mail blocks.now i },
}

// Party i's inbox at the start of a lent buffer; causes 1, 3, 4, 9 and 13. The slots have their lengths beside them; the blocks are those
// that the plan has of the exchange.
#[tactic(auto, unfolding(crate::specs::Exchange::fill_of, limits::specs::Limits::parties, limits::specs::Limits::numbered))]
pub fn fill(
    mail: Mail,
    slots: &[u8],
    lens: &[usize],
    blocks: &[u8],
    i: usize,
    out: &mut [u8],
) -> Written
    ensures { gave (said result) out.new
        ≡ fill_of mail slots.now lens.now blocks.now i out.old }
{
    if !limits::parties(mail.n) {
        return Err(Refusal::Because(Cause::Parties));
    }
    if !limits::numbered(mail.n, i) {
        return Err(Refusal::Because(Cause::Number));
    }
    if MAX_ENTRY < mail.size {
        return Err(Refusal::Because(Cause::Length));
    }
    let room = MAX_PLAN + mail.n * (mail.size + 2);
    if out.len() < room {
        return Err(Refusal::Short(room));
    }
    if MAX_PLAN < blocks.len() {
        return Err(Refusal::Because(Cause::Plan));
    }
    let inbox = Inbox {
        mail,
        slots,
        lens,
        blocks,
        i,
    };
    Ok(inbox.entries(out))
}

impl Inbox<'_> {
    // The entries of all senders, concatenated; their length.
    fn entries(&self, out: &mut [u8]) -> usize
        requires { max_inbox self.now.mail.n self.now.mail.size ≤ length out.old }
        ensures { Wrote result out.new (inbox_by self.now.mail self.now.slots.now self.now.lens.now self.now.blocks.now self.now.i) out.old }
    {
        let mut at = 0;
        for p in 0..self.mail.n {
            at += self.entry(p + 1, &mut out[at..]);
        }
        at
    }

    // Party p's entry, at the start of out; its length.
    fn entry(&self, p: usize, out: &mut [u8]) -> usize
        requires { (1 ≤ p) × (p ≤ self.now.mail.n) × (2 + length (sent_by self.now.mail self.now.slots.now self.now.lens.now self.now.blocks.now self.now.i p) ≤ length out.old) }
        ensures { Wrote result out.new (entry_of (sent_by self.now.mail self.now.slots.now self.now.lens.now self.now.blocks.now self.now.i p)) out.old }
    {
        let len = self.sent(p, &mut out[2..]).unwrap();
        buffer::put(out, 0, &(len as u16).to_be_bytes());
        2 + len
    }

    // What party p sends to party i, at the start of out.
    #[tactic(auto, unfolding(crate::specs::Exchange::sent_to, plan::specs::Plan::packet_given, limits::specs::Limits::parties, buffer::specs::Given::written, buffer::specs::Splice::spliced))]
    fn sent(&self, p: usize, out: &mut [u8]) -> Written
        requires { (1 ≤ p) × (p ≤ self.now.mail.n) }
        ensures { gave (said result) out.new ≡ written (sent_by self.now.mail self.now.slots.now self.now.lens.now self.now.blocks.now self.now.i p) out.old }
    {
        if p == self.i {
            return Ok(0);
        }
        if !bitmap::names(self.mail.good, p) {
            return plan::packet(self.blocks, self.mail.n, self.mail.good, p, self.i, out);
        }
        if self.mail.whole {
            return buffer::give(self.slot(p), out);
        }
        buffer::entry_at(self.slot(p), self.i - 1, out)
    }

    // What good party p wrote: of its slot as many bytes as the length beside it says.
    #[tactic(auto, unfolding(crate::specs::Exchange::slot_of))]
    fn slot(&self, p: usize) -> &[u8]
        requires { (1 ≤ p) × (p ≤ max_parties) }
        ensures { result.now ≡ slot_of self.now.mail.size self.now.slots.now self.now.lens.now p }
    {
        let size = self.mail.size;
        let len = self.lens.get(p - 1).map_or(0, |len| (*len).min(size));
        let slot = self.slots.get((p - 1) * size..).unwrap_or_default();
        slot.get(..len).unwrap_or(slot)
    }
}
