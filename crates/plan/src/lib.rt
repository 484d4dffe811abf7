// The plan of a rehearsal: what its bytes say, and why it is refused.
#![tactic(auto)]

ghost use Rattle.std.specs.Prelude.{◌≡◌, true, false, MatchOption, ℕ, Bool, List, ◌≤◌, length, MatchResult, IfSome};
ghost use Rattle.limits.specs.Limits.{max_parties};
ghost use Rattle.cause.specs.Cause.{number};
ghost use Rattle.buffer.specs.Given.{said, gave};
ghost use Rattle.plan.specs.Layout.{member, within, skip_entry, skip_entries, party_entry, books_fit, skip_block, skip_blocks, block_entry, packet_from};
ghost use Rattle.plan.specs.Layout.{field_at, n_in, options_in, session_of, good_at, good_in, holders, skip_exchanges, walk, laid_out};
ghost use Rattle.plan.specs.Plan.{parts_said, refused, plan_said, SenderIs, plan_of, book_given, packet_given, block_given, exchange_of};
ghost use Rattle.plan.specs.Private.{Found, Finds, HeaderOf, LaidIs, IsRead, sender_of, holders_by, BehindIs};
ghost use Rattle.buffer.specs.Entries.{body};

use buffer::Written;
use cause::{Cause, Refusal};
use limits::{MAX_MESSAGE, MAX_PLAN};

// The bytes of a map of parties.
const MAP: usize = 2;

// n, t and the option map stand first.
const HEAD: usize = 3;

// The number of options, and the bytes of the field of each: option k, from 1 on, has the value two to the k - 1 in the option map.
const OPTIONS: usize = 4;

const FIELDS: [usize; OPTIONS] = [32, 1, 1, 4];

pub const ROOT: usize = 1;

pub const BIT: usize = 2;

pub const SENDER: usize = 3;

const SESSION: usize = 4;

// The number of exchanges.
const EXCHANGES: usize = 2;

// A plan's parts: n, t, the option map, the sender's number if it names one, the session's number, the maps of good parties and of those whose books
// are listed, and where the books, a bad sender's packets and the exchanges start.
#[derive(Clone, Copy)]
pub struct Plan {
    pub n: usize,
    pub t: usize,
    pub options: usize,
    pub sender: Option<usize>,
    pub session: u32,
    pub good: usize,
    pub holders: usize,
    pub books: usize,
    pub packets: usize,
    pub exchanges: usize,
}

// The sender that a plan names: its number, and whether that is a good party's.
#[derive(Clone, Copy)]
struct Sender {
    number: usize,
    good: bool,
}

// n parties, of whom a map names the good ones.
#[derive(Clone, Copy)]
struct Group {
    n: usize,
    good: usize,
}

// What stands behind the books, and behind a bad sender's block.
#[derive(Clone, Copy)]
struct Behind<'a> {
    packets: &'a [u8],
    exchanges: &'a [u8],
}

// What a plan says behind n and t: the options, the map of good parties, the sender, the map of those whose books are listed, and what stands from the
// books on and behind them.
#[derive(Clone, Copy)]
struct Laid<'a> {
    options: usize,
    good: usize,
    sender: Option<Sender>,
    holders: usize,
    books: &'a [u8],
    behind: Behind<'a>,
}

// The parts of a plan, or the cause for which it is refused: 13 if n and t are not there, 1, 2, then 13 for the layout, then 3 and 4.
#[tactic(auto, using(crate::proofs::Tails::walks), unfolding(crate::specs::Plan::plan_of, crate::specs::Plan::plan_cause))]
pub fn read(plan: &[u8]) -> Result<Plan, Cause>
    ensures { (plan_said result ≡ plan_of plan.now) × SenderIs result plan.now }
{
    let (n, t) = judged(plan)?;
    let laid = laid_out(plan, n).ok_or(Cause::Plan)?;
    if laid.sender.is_some_and(|x| !limits::numbered(n, x.number)) {
        return Err(Cause::Number);
    }
    if !books_fit(laid.books, n, laid.holders) {
        return Err(Cause::Length);
    }
    Ok(Plan {
        n,
        t,
        options: laid.options,
        sender: laid.sender.map(|x| x.number),
        session: session_of(plan, laid.options),
        good: laid.good,
        holders: laid.holders,
        books: plan.len() - laid.books.len(),
        packets: plan.len() - laid.behind.packets.len(),
        exchanges: plan.len() - laid.behind.exchanges.len(),
    })
}

// The bytes of party q's book among the books of those that a map names; cause 3 for a party that has none.
#[tactic(auto, unfolding(crate::specs::Plan::book_given))]
pub fn book(books: &[u8], n: usize, holders: usize, q: usize, out: &mut [u8]) -> Written
    ensures { gave (said result) out.new ≡ book_given n holders q books.now out.old }
{
    if !limits::parties(n) {
        return Err(Refusal::Because(Cause::Parties));
    }
    if !member(n, holders, q) {
        return Err(Refusal::Because(Cause::Number));
    }
    buffer::give(party_entry(books, n, holders, q), out)
}

// The bytes that bad party q sends to party i in an exchange.
#[tactic(auto, unfolding(crate::specs::Plan::packet_given))]
pub fn packet(exchange: &[u8], n: usize, good: usize, q: usize, i: usize, out: &mut [u8]) -> Written
    ensures { gave (said result) out.new ≡ packet_given n good q i exchange.now out.old }
{
    if !limits::parties(n) {
        return Err(Refusal::Because(Cause::Parties));
    }
    buffer::give(Group { n, good }.packet_from(exchange, q, i), out)
}

// The bytes that a bad sender sends to party i in its block.
#[tactic(auto, unfolding(crate::specs::Plan::block_given))]
pub fn block(s: &[u8], n: usize, i: usize, out: &mut [u8]) -> Written
    ensures { gave (said result) out.new ≡ block_given n i s.now out.old }
{
    if !limits::parties(n) {
        return Err(Refusal::Because(Cause::Parties));
    }
    buffer::give(block_entry(s, n, i), out)
}

// The offset of option k's field, which stands behind those of the lower options that the map names; past the last option, the offset behind
// all fields.
#[tactic(auto, using(crate::proofs::Options::offsets), unfolding(crate::specs::Layout::field_bytes))]
pub fn field_at(options: usize, k: usize) -> usize
    ensures { result ≡ field_at options k }
{
    let mut at = HEAD;
    for (i, width) in FIELDS.iter().enumerate() {
        let option = i + 1;
        if option < k && bitmap::names(options, option) {
            at += *width;
        }
    }
    at
}

// The offset of exchange e, counted from 0; the end, if one before it is not in order.
#[tactic(auto, unfolding(crate::specs::Plan::exchange_of))]
pub fn exchange_at(plan: &[u8], parts: Plan, e: usize) -> usize
    ensures { result ≡ exchange_of (parts_said parts) e plan.now }
{
    let group = Group {
        n: parts.n,
        good: parts.good,
    };
    let first = plan.get(parts.exchanges..).unwrap_or_default();
    let rest = group.skip_exchanges(first, e).unwrap_or_default();
    plan.len() - rest.len()
}

// n and t, if they are there and in order, and the plan is not too long.
#[tactic(auto, unfolding(crate::specs::Plan::plan_of, crate::specs::Plan::plan_cause, limits::specs::Limits::group_cause, limits::specs::Limits::parties))]
fn judged(plan: &[u8]) -> Result<(usize, usize), Cause>
    ensures { MatchResult result (λ x. IsRead x.0 x.1 plan.now) (λ c. refused (number c) ≡ plan_of plan.now) }
{
    let [n, t, ..] = plan else {
        return Err(Cause::Plan);
    };
    let n = usize::from(*n);
    let t = usize::from(*t);
    limits::check_group(n, t)?;
    if MAX_PLAN < plan.len() {
        return Err(Cause::Plan);
    }
    Ok((n, t))
}

// What a plan that is laid out well says behind n and t.
fn laid_out(plan: &[u8], n: usize) -> Option<Laid>
    requires { (n ≡ n_in plan.now) × (n ≤ max_parties) }
    ensures { LaidIs result plan.now }
{
    let (options, good, books) = header(plan, n)?;
    let group = Group { n, good };
    let sender = sender_of(plan, options, group);
    let holders = holders(sender, good);
    let behind = group.behind(books, holders, sender)?;
    Some(Laid {
        options,
        good,
        sender,
        holders,
        books,
        behind,
    })
}

// The options, the map of good parties and what stands from the books on, if the options are known and the map names none beyond n.
#[tactic(auto, using(crate::proofs::Options::offsets), unfolding(crate::specs::Layout::laid_out, crate::specs::Layout::end_of))]
fn header(plan: &[u8], n: usize) -> Option<(usize, usize, &[u8])>
    requires { n ≡ n_in plan.now }
    ensures { MatchOption result (laid_out plan.now ≡ false) (λ x. HeaderOf x.0 x.1 x.2.now plan.now) }
{
    let options = usize::from(*plan.get(2)?);
    let map = field_at(options, OPTIONS + 1);
    let good = buffer::size_at(plan, map);
    let books = plan.get(map + MAP..)?;
    if !bitmap::up_to(OPTIONS, options) || !bitmap::up_to(n, good) {
        return None;
    }
    Some((options, good, books))
}

// The sender that a plan names.
fn sender_of(plan: &[u8], options: usize, group: Group) -> Option<Sender>
    requires { (options ≡ options_in plan.now) × (group.n ≡ n_in plan.now) × (group.good ≡ good_in plan.now)
        × (good_at plan.now ≤ length plan.now) }
    ensures { result ≡ sender_of plan.now }
{
    if !bitmap::names(options, SENDER) {
        return None;
    }
    let number = usize::from(plan[field_at(options, SENDER)]);
    let good = member(group.n, group.good, number);
    Some(Sender { number, good })
}

// The session's number: the one that a plan gives, or 0.
#[tactic(auto, using(crate::proofs::Options::offsets), unfolding(crate::specs::Layout::session_of))]
fn session_of(plan: &[u8], options: usize) -> u32
    requires { options ≡ options_in plan.now }
    ensures { result ≡ session_of plan.now }
{
    if bitmap::names(options, SESSION) {
        buffer::number_at(plan, field_at(options, SESSION))
    } else {
        0
    }
}

// The map of those whose books are listed.
fn holders(sender: Option<Sender>, good: usize) -> usize
    requires { IfSome sender (λ x. x.good ≡ true → (1 ≤ x.number) × (x.number ≤ max_parties)) }
    ensures { result ≡ holders_by sender good }
{
    match sender {
        None => good,
        Some(x) if x.good => 1 << (x.number - 1),
        Some(_) => 0,
    }
}

// Whether q is one of n parties, and a map names it.
fn member(n: usize, map: usize, q: usize) -> bool
    ensures { result ≡ member n map q }
{
    limits::numbered(n, q) && bitmap::names(map, q)
}

// Of the first k numbers, those that a test takes go a step each, one after the other: what stands behind them, none if a step finds nothing.
fn walk<'a, T: Fn(usize) -> bool, S: Fn(&'a [u8]) -> Option<&'a [u8]>>(
    s: &'a [u8],
    k: usize,
    takes: T,
    step: S,
) -> Option<&'a [u8]>
    requires test { T.IsAlwaysCallable takes }
    requires step { S.IsAlwaysCallable step }
    ensures { (test : ℕ → Bool) (f : List ℕ → Found)
        → ((p : ℕ) (b : Bool) → T.post takes p b → b ≡ test p)
        → ((x : _) (r : _) → S.post step x r → Finds r (f x.now))
        → Finds result (walk test f k s.now) }
{
    let mut rest = s;
    for p in 0..k {
        if takes(p + 1) {
            rest = step(rest)?;
        }
    }
    Some(rest)
}

// What stands behind an entry; none if it runs short.
#[tactic(auto, unfolding(crate::specs::Layout::skip_entry, buffer::specs::Entries::rest))]
fn skip_entry(s: &[u8]) -> Option<&[u8]>
    ensures { Finds result (skip_entry s.now) }
{
    let rest = s.get(2..)?;
    rest.get(buffer::size_at(s, 0)..)
}

// What stands behind the entries of those of the first k parties that a map names.
fn skip_entries(s: &[u8], k: usize, map: usize) -> Option<&[u8]>
    ensures { Finds result (skip_entries k map s.now) }
{
    walk(s, k, |p| bitmap::names(map, p), skip_entry)
}

// An entry's bytes; those that are there, if it runs short.
#[tactic(auto, unfolding(buffer::specs::Entries::body))]
fn body(s: &[u8]) -> &[u8]
    ensures { result.now ≡ body s.now }
{
    let rest = s.get(2..).unwrap_or_default();
    rest.get(..buffer::size_at(s, 0)).unwrap_or(rest)
}

// The bytes of party q's entry, behind those of lower parties; no bytes if it has none.
#[tactic(auto, unfolding(crate::specs::Layout::party_entry, limits::specs::Limits::numbered))]
fn party_entry(s: &[u8], n: usize, map: usize, q: usize) -> &[u8]
    ensures { result.now ≡ party_entry n map q s.now }
{
    if !member(n, map, q) {
        return &[];
    }
    body(skip_entries(s, q - 1, map).unwrap_or_default())
}

// Whether no book is over the greatest length.
fn books_fit(s: &[u8], n: usize, map: usize) -> bool
    ensures { result ≡ books_fit n map s.now }
{
    (1..=n).all(|p| party_entry(s, n, map, p).len() <= MAX_MESSAGE)
}

// What a block has for party i; no bytes if it does not name i.
fn block_entry(s: &[u8], n: usize, i: usize) -> &[u8]
    ensures { result.now ≡ block_entry n i s.now }
{
    let entries = s.get(MAP..).unwrap_or_default();
    party_entry(entries, n, buffer::size_at(s, 0), i)
}

impl Group {
    // What stands behind the books of those that a map names, and behind a bad sender's block, if all is in order and no byte is left over behind
    // the exchanges.
    fn behind(self, books: &[u8], holders: usize, sender: Option<Sender>) -> Option<Behind>
        ensures { BehindIs result self holders sender books.now }
    {
        let packets = skip_entries(books, self.n, holders)?;
        let exchanges = match sender {
            Some(x) if !x.good => self.skip_block(packets)?,
            _ => packets,
        };
        let rest = self.skip_exchanges(exchanges, EXCHANGES)?;
        if !rest.is_empty() {
            return None;
        }
        Some(Behind { packets, exchanges })
    }

    // Whether all parties that a map of receivers names are good.
    fn within(self, receivers: usize) -> bool
        ensures { result ≡ within self.n receivers self.good }
    {
        (1..=self.n).all(|p| !bitmap::names(receivers, p) || bitmap::names(self.good, p))
    }

    // What stands behind a bad party's block, whose receivers are good parties.
    #[tactic(auto, unfolding(crate::specs::Layout::skip_block))]
    fn skip_block(self, s: &[u8]) -> Option<&[u8]>
        ensures { Finds result (skip_block self.n self.good s.now) }
    {
        let entries = s.get(MAP..)?;
        let map = buffer::size_at(s, 0);
        if !bitmap::up_to(self.n, map) || !self.within(map) {
            return None;
        }
        skip_entries(entries, self.n, map)
    }

    // What stands behind the blocks of the bad ones among the first k parties.
    fn skip_blocks(self, s: &[u8], k: usize) -> Option<&[u8]>
        ensures { Finds result (skip_blocks k self.n self.good s.now) }
    {
        walk(
            s,
            k,
            |p| !bitmap::names(self.good, p),
            |x| self.skip_block(x),
        )
    }

    // What stands behind e exchanges.
    fn skip_exchanges(self, s: &[u8], e: usize) -> Option<&[u8]>
        ensures { Finds result (skip_exchanges e self.n self.good s.now) }
    {
        walk(s, e, |_| true, |x| self.skip_blocks(x, self.n))
    }

    // The packet of bad party q to party i in an exchange; no bytes if there is none.
    #[tactic(auto, unfolding(crate::specs::Layout::packet_from, limits::specs::Limits::numbered))]
    fn packet_from(self, s: &[u8], q: usize, i: usize) -> &[u8]
        ensures { result.now ≡ packet_from self.n self.good q i s.now }
    {
        if !limits::numbered(self.n, q) || bitmap::names(self.good, q) {
            return &[];
        }
        block_entry(self.skip_blocks(s, q - 1).unwrap_or_default(), self.n, i)
    }
}
