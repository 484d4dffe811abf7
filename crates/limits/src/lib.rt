// The greatest numbers, in one place, and the judgement of n, t and a party's number by them. All other code and all definitions cite these.
#![tactic(auto)]

ghost use Rattle.std.specs.Prelude.{◌≡◌};
ghost use Rattle.cause.specs.Cause.{cause_of};
ghost use Rattle.limits.specs.Limits.{greatest, parties, numbered, group_cause};

use cause::Cause;

// The greatest number of parties.
pub const MAX_PARTIES: usize = 16;

// The greatest length of a message (document 01: book).
pub const MAX_MESSAGE: usize = 3072;

// The greatest length of a share: that of one party alone, whose share is the whole frame.
pub const MAX_SHARE: usize = MAX_MESSAGE + 2;

// The greatest number of hashes in an audit path.
pub const MAX_PATH: usize = 4;

// The greatest length of a string that is hashed.
pub const MAX_HASHED: usize = 65535;

// The greatest length of an entry of an inbox, which is told by two bytes.
pub const MAX_ENTRY: usize = 65535;

// The greatest length of a plan.
pub const MAX_PLAN: usize = 60000;

// All of them, as one value.
#[derive(Clone, Copy)]
pub struct Greatest {
    pub parties: usize,
    pub message: usize,
    pub share: usize,
    pub path: usize,
    pub hashed: usize,
    pub entry: usize,
    pub plan: usize,
}

// The code's limits are the definitions': this is where the two are held together.
pub fn all() -> Greatest
    ensures { result ≡ greatest }
{
    Greatest {
        parties: MAX_PARTIES,
        message: MAX_MESSAGE,
        share: MAX_SHARE,
        path: MAX_PATH,
        hashed: MAX_HASHED,
        entry: MAX_ENTRY,
        plan: MAX_PLAN,
    }
}

// Whether there may be n parties.
#[tactic(auto, unfolding(crate::specs::Limits::parties))]
pub fn parties(n: usize) -> bool
    ensures { result ≡ parties n }
{
    (1..=MAX_PARTIES).contains(&n)
}

// Whether j is the number of one of n parties.
#[tactic(auto, unfolding(crate::specs::Limits::numbered))]
pub fn numbered(n: usize, j: usize) -> bool
    ensures { result ≡ numbered n j }
{
    (1..=n).contains(&j)
}

// The lower of causes 1 and 2 that applies to n parties and the fault limit t, if one does.
#[tactic(auto, unfolding(crate::specs::Limits::group_cause))]
pub fn check_group(n: usize, t: usize) -> Result<(), Cause>
    ensures { cause_of result ≡ group_cause n t }
{
    if !parties(n) {
        return Err(Cause::Parties);
    }
    if n <= t.saturating_mul(2) {
        return Err(Cause::Faults);
    }
    Ok(())
}
