// Runs test vectors from standard input through the proved functions, and tells how many cases of each kind agreed.
//
// The input is a stream of cases, as the crate `stream` says. The modules tell what is handed in and what must come of it, kind by kind in the order
// of `Kind`, and write what came of a case at the start of a lent buffer. Where a call is lent a part of that buffer, the part is compared whole,
// with the bytes that must stay: before each case all bytes are UNTOUCHED.
// A stream that ends early, has more behind its end, has a kind that is not here or a part that does not fit its buffer is broken.
#![tactic(auto)]

mod answer;
mod coder;
mod kind;
mod messages;
mod packets;
mod plans;
mod steps;
mod tree;

use crate::kind::{ALL, KINDS, Kind};
use crate::steps::World;
use limits::MAX_PLAN;
use session::MAX_TEXT;
use stream::{Broken, MAX_CASES, Tally};

// The greatest length of what is handed in: several times the plan that is taken.
const MAX_INPUT: usize = 6 * MAX_PLAN;

// The greatest length of what comes of a case: the text of a rehearsal is written behind its length and its hash.
const MAX_OUTPUT: usize = plans::FRONT + MAX_TEXT;

// The value of each byte of the lent buffer before a case.
const UNTOUCHED: u8 = 0xA5;

fn main() {
    let mut tallies = [Tally::default(); KINDS];
    let mut input = [0u8; MAX_INPUT];
    let mut expected = [0u8; MAX_OUTPUT];
    let mut out = [0u8; MAX_OUTPUT];
    let outcome = run(&mut tallies, &mut input, &mut expected, &mut out);
    print(&tallies, outcome.is_ok());
}

// Runs all cases, and counts them by their kinds.
fn run(
    tallies: &mut [Tally; KINDS],
    input: &mut [u8],
    expected: &mut [u8],
    out: &mut [u8],
) -> Result<(), Broken> {
    let mut world = World::blank();
    for _ in 0..MAX_CASES {
        let Some(number) = stream::read_kind(KINDS)? else {
            return Ok(());
        };
        let kind = Kind::try_from(number)?;
        let given = stream::read_part(input)?;
        let told = stream::read_part(expected)?;
        out.fill(UNTOUCHED);
        let came = kind.run(&mut world, &input[..given], out);
        let bytes = came.and_then(|len| out.get(..len));
        tallies[number - 1] = count(kind, tallies[number - 1], bytes, &expected[..told]);
    }
    Err(Broken::default())
}

// Counts a case by what came of it, if anything did.
fn count(kind: Kind, tally: Tally, came: Option<&[u8]>, expected: &[u8]) -> Tally {
    let Some(bytes) = came else {
        return tally.counted(false);
    };
    if kind.counts_bytes() && bytes.len() == expected.len() {
        return count_bytes(tally, bytes, expected);
    }
    tally.counted(bytes == expected)
}

// Counts each byte as a case of its own.
fn count_bytes(tally: Tally, bytes: &[u8], expected: &[u8]) -> Tally {
    let pairs = bytes.iter().zip(expected);
    pairs.fold(tally, |sum: Tally, (came, told)| sum.counted(came == told))
}

// A line for each kind that had cases, and the end.
fn print(tallies: &[Tally; KINDS], whole: bool) {
    let mut failed = 0;
    for (kind, tally) in ALL.iter().zip(tallies) {
        failed = stream::print_tally(kind.name().as_bytes(), *tally, failed);
    }
    stream::print_end(failed, whole);
}
