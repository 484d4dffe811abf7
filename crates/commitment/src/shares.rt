// What a party sends from: a file of its own, since the contracts of the struct's methods name definitions over it.
#![tactic(auto)]

ghost use Rattle.std.specs.Prelude.{◌≡◌, ◌*◌, ◌≤◌, length};
ghost use Rattle.sha256.specs.Sha256.{sha256};
ghost use Rattle.limits.specs.Limits.{max_parties, max_share};
ghost use Rattle.merkle.specs.Shares.{leaves_of, nodes_of};

use crate::Seat;
use limits::MAX_PARTIES;
use merkle::Hash;

// The shares of a message, one behind the other, and the hashes over them: what a party in this seat sends from.
#[derive(Clone, Copy)]
pub struct Shares<'a> {
    pub seat: Seat,
    // The length of one share.
    pub len: usize,
    pub all: &'a [u8],
    pub leaves: &'a [Hash; MAX_PARTIES],
    pub nodes: &'a [Hash; MAX_PARTIES],
    ghost seated: { (1 ≤ seat.n) × (seat.n ≤ max_parties) × (1 ≤ seat.own) × (seat.own ≤ seat.n) },
    ghost cut: { (1 ≤ len) × (len ≤ max_share) × (length all.now ≡ seat.n * len) },
    ghost hashed: { (leaves.now ≡ leaves_of sha256 seat.session seat.n all.now) × (nodes.now ≡ nodes_of sha256 seat.n leaves.now) },
}
