// The Merkle tree of RFC 6962 over the shares of a message: hashes of leaves and nodes, root, audit path, and the check of a path. A session's number stands
// in every leaf string (document 02, No. 6: a sitting's number).
#![tactic(auto)]

ghost use Rattle.std.specs.Prelude.{◌≡◌, true, false, List, [], ◌∷◌, ◌++◌, ℕ, ◌+◌, ◌-◌, ◌≤◌, ◌<◌, length, take, drop, MatchOption, MatchResult, IfSome};
ghost use Rattle.limits.specs.Limits.{max_parties, max_path, max_hashed, parties, numbered};
ghost use Rattle.sha256.specs.Sha256.{sha256};
ghost use Rattle.merkle.specs.Tree.{split, shape, sides, node_string, folded};
ghost use Rattle.merkle.specs.Hashes.{top_hash, node_hashes, top_at, path_at};
ghost use Rattle.merkle.specs.Answer.{root_said, count_said, counted, check_said, checked};
ghost use Rattle.cause.specs.Cause.{cause_of};
ghost use Rattle.merkle.specs.Shares.{leaf_string, front_length, shares_cause, leaves_of, nodes_of, rooted_in, rooted_of};
ghost use Rattle.merkle.specs.Shares.{path_length_of, path_in, path_of, check_of};
ghost use Rattle.merkle.specs.Steps.{side_of};

use cause::Cause;
use limits::{MAX_HASHED, MAX_PARTIES, MAX_PATH};

// A SHA-256 hash.
pub type Hash = [u8; 32];

// Whether n equal shares of `len` bytes together are hashed; cause 1, 4 or 8.
#[tactic(auto, unfolding(crate::specs::Shares::shares_cause, limits::specs::Limits::parties))]
pub fn check_shares(session: u32, n: usize, len: usize) -> Result<(), Cause>
    ensures { cause_of result ≡ shares_cause session n len }
{
    if !limits::parties(n) {
        return Err(Cause::Parties);
    }
    if MAX_HASHED - front_length(session) < len / n {
        return Err(Cause::Length);
    }
    if len % n != 0 {
        return Err(Cause::Layout);
    }
    Ok(())
}

// The leaf hashes of n shares that lie one behind the other. Blanks stand past them, and everywhere if there is a cause, which `check_shares` gives.
#[tactic(auto, unfolding(crate::specs::Shares::leaves_of))]
pub fn leaves(session: u32, n: usize, shares: &[u8]) -> [Hash; MAX_PARTIES]
    ensures { result ≡ leaves_of sha256 session n shares.now }
{
    let mut hashes = [[0; 32]; MAX_PARTIES];
    let Ok(()) = check_shares(session, n, shares.len()) else {
        return hashes;
    };
    let len = shares.len() / n;
    for (j, hash) in hashes[..n].iter_mut().enumerate() {
        *hash = leaf_hash(session, j + 1, &shares[j * len..(j + 1) * len]);
    }
    hashes
}

// The hashes of the nodes over the first n leaf hashes, each made once. That of a node stands at the place of its right half's first leaf; blanks
// stand elsewhere, and everywhere if n is out of its range: cause 1, which `root_in` and `path_length` give.
#[tactic(auto, using(crate::proofs::Slots::reads), unfolding(crate::specs::Shares::nodes_of))]
pub fn nodes(n: usize, leaves: &[Hash; MAX_PARTIES]) -> [Hash; MAX_PARTIES]
    ensures { result ≡ nodes_of sha256 n leaves.now }
{
    let mut nodes = [[0; 32]; MAX_PARTIES];
    if let Ok(whole) = Part::whole(n) {
        whole.fill(leaves, &mut nodes);
    }
    nodes
}

// The root over the first n leaf hashes, read from them and the nodes' hashes.
#[tactic(auto, unfolding(crate::specs::Shares::rooted_in, crate::specs::Shares::rooted))]
pub fn root_in(
    n: usize,
    leaves: &[Hash; MAX_PARTIES],
    nodes: &[Hash; MAX_PARTIES],
) -> Result<Hash, Cause>
    ensures { root_said result ≡ rooted_in n leaves.now nodes.now }
{
    Ok(Tree { leaves, nodes }.top(Part::whole(n)?))
}

// The root over the first n leaf hashes.
#[tactic(auto, using(crate::proofs::Slots::reads))]
pub fn root(n: usize, leaves: &[Hash; MAX_PARTIES]) -> Result<Hash, Cause>
    ensures { root_said result ≡ rooted_of sha256 n leaves.now }
{
    let all = nodes(n, leaves);
    root_in(n, leaves, &all)
}

// The length of the audit path of share j of n, or the cause for which there is no such path.
#[tactic(auto, unfolding(crate::specs::Shares::path_length_of))]
pub fn path_length(n: usize, j: usize) -> Result<usize, Cause>
    ensures { counted (count_said result) ≡ path_length_of n j }
{
    Ok(Part::whole(n)?.spot(j)?.depth())
}

// The audit path of share j, from the leaf upward, read from the hashes of leaves and nodes. Blanks stand past it, and everywhere if n or j is
// out of its range. The cause is that of `path_length`, as is the count: by document 01 no struct field holds a path.
#[tactic(auto, unfolding(crate::specs::Shares::path_in))]
pub fn path_in(
    n: usize,
    j: usize,
    leaves: &[Hash; MAX_PARTIES],
    nodes: &[Hash; MAX_PARTIES],
) -> [Hash; MAX_PATH]
    ensures { result ≡ path_in n j leaves.now nodes.now }
{
    let mut path = [[0; 32]; MAX_PATH];
    let Ok(whole) = Part::whole(n) else {
        return path;
    };
    let Ok(spot) = whole.spot(j) else {
        return path;
    };
    Tree { leaves, nodes }.put_path(spot, &mut path);
    path
}

// The audit path of share j, from the leaf upward. Blanks stand past it, and everywhere if n or j is out of its range. Cause and count are those of
// `path_length`, as for `path_in`.
#[tactic(auto, using(crate::proofs::Slots::reads))]
pub fn path(n: usize, j: usize, leaves: &[Hash; MAX_PARTIES]) -> [Hash; MAX_PATH]
    ensures { result ≡ path_of sha256 n j leaves.now }
{
    let all = nodes(n, leaves);
    path_in(n, j, leaves, &all)
}

// Whether the first `count` hashes of a path lead from share j of n to the root.
#[tactic(auto, using(crate::proofs::Judged::compared), unfolding(crate::specs::Shares::check_of, crate::specs::Shares::passes))]
pub fn check(
    session: u32,
    n: usize,
    j: usize,
    share: &[u8],
    path: [Hash; MAX_PATH],
    count: usize,
    root: &[u8],
) -> Result<bool, Cause>
    ensures { checked (check_said result) ≡ check_of sha256 session n j share.now path count root.now }
{
    let spot = Part::whole(n)?.spot(j)?;
    if MAX_HASHED - front_length(session) < share.len() {
        return Err(Cause::Length);
    }
    if root.len() != 32 {
        return Err(Cause::Argument);
    }
    if count != spot.depth() {
        return Ok(false);
    }
    let top = spot.fold(&path[..count], leaf_hash(session, j, share));
    Ok(&top[..] == root)
}

// The hash of the leaf string of share j. The share is read where it lies.
fn leaf_hash(session: u32, j: usize, share: &[u8]) -> Hash
    requires number { j < 256 }
    requires short { front_length session + length share.now ≤ max_hashed }
    ensures { result ≡ sha256 (leaf_string session j share.now) }
{
    sha256::hash_with_front(leaf_front(session, j as u8), front_length(session), share).unwrap()
}

// How many bytes stand before a share in its leaf string.
#[tactic(auto, unfolding(crate::specs::Shares::front_length, crate::specs::Shares::session_bytes, buffer::specs::Numbers::four_bytes))]
fn front_length(session: u32) -> usize
    ensures value { result ≡ front_length session }
    ensures short { result ≤ 6 }
{
    if session == 0 { 2 } else { 6 }
}

// These bytes, and zeros up to the length of a front.
#[tactic(auto, unfolding(crate::specs::Shares::leaf_string, crate::specs::Shares::front_length, crate::specs::Shares::session_bytes, buffer::specs::Numbers::four_bytes))]
fn leaf_front(session: u32, number: u8) -> [u8; 64]
    ensures { take (front_length session) result ≡ leaf_string session number [] }
{
    let mut front = [0; 64];
    if session == 0 {
        front[1] = number;
    } else {
        front[1..5].copy_from_slice(&session.to_be_bytes());
        front[5] = number;
    }
    front
}

// The hash of the node string of two hashes.
fn node_hash(left: &Hash, right: &Hash) -> Hash
    ensures { result ≡ sha256 (node_string left.now right.now) }
{
    let mut string = [0; 65];
    string[0] = 1;
    string[1..33].copy_from_slice(left);
    string[33..].copy_from_slice(right);
    sha256::hash(&string).unwrap()
}

// The largest power of two smaller than n.
fn split_of(n: usize) -> usize
    requires { 2 ≤ n }
    ensures value { result ≡ split n }
    ensures some { 1 ≤ result }
    ensures less { result < n }
{
    1 << (n - 1).ilog2()
}

// A part of a tree: the tree over its `width` leaves from place `first` on.
#[derive(Clone, Copy)]
struct Part {
    first: usize,
    width: usize,
    ghost some: { 1 ≤ width },
    ghost inside: { first + width ≤ max_parties },
}

impl Part {
    // The tree over n leaves; cause 1 where n is out of its range.
    #[tactic(auto, unfolding(limits::specs::Limits::parties))]
    fn whole(n: usize) -> Result<Part, Cause>
        ensures { MatchResult result (λ p. (parties n ≡ true) × (p.first ≡ 0) × (p.width ≡ n)) (λ e. (parties n ≡ false) × (e ≡ Cause.Parties)) }
    {
        if limits::parties(n) {
            Ok(Part { first: 0, width: n })
        } else {
            Err(Cause::Parties)
        }
    }

    // The place of leaf j, counted from 1; cause 3 where j is out of its range.
    #[tactic(auto, unfolding(limits::specs::Limits::numbered))]
    fn spot(self, j: usize) -> Result<Spot, Cause>
        ensures { MatchResult result
            (λ s. (numbered self.width j ≡ true) × (s.part.first ≡ self.first) × (s.part.width ≡ self.width) × (s.at ≡ j - 1))
            (λ e. (numbered self.width j ≡ false) × (e ≡ Cause.Number)) }
    {
        if limits::numbered(self.width, j) {
            Ok(Spot {
                part: self,
                at: j - 1,
            })
        } else {
            Err(Cause::Number)
        }
    }

    // The two halves of a part of more than one leaf.
    fn halves(self) -> Option<(Part, Part)>
        ensures { MatchOption result (self.width < 2)
            (λ h. (2 ≤ self.width) × (h.0.first ≡ self.first) × (h.0.width ≡ split self.width)
            × (h.1.first ≡ self.first + split self.width) × (h.1.width ≡ self.width - split self.width)) }
    {
        if self.width < 2 {
            return None;
        }
        let k = split_of(self.width);
        let left = Part {
            first: self.first,
            width: k,
        };
        let right = Part {
            first: self.first + k,
            width: self.width - k,
        };
        Some((left, right))
    }

    // Writes the hashes of a part's nodes into their places, and gives its root.
    #[tactic(auto, using(crate::proofs::Slots::fills))]
    fn fill(self, leaves: &[Hash; MAX_PARTIES], nodes: &mut [Hash; MAX_PARTIES]) -> Hash
        ensures root { result ≡ top_hash sha256 (shape self.width) self.first leaves.now }
        ensures nodes { nodes.new ≡ take (self.first + 1) nodes.old
            ++ (node_hashes sha256 (shape self.width) self.first leaves.now ++ drop (self.first + self.width) nodes.old) }
    {
        let Some((left, right)) = self.halves() else {
            return leaves[self.first];
        };
        let first = left.fill(leaves, nodes);
        let second = right.fill(leaves, nodes);
        let hash = node_hash(&first, &second);
        nodes[right.first] = hash;
        hash
    }
}

// A leaf in a part of a tree: leaf `at` of it, counted from 0.
#[derive(Clone, Copy)]
struct Spot {
    part: Part,
    at: usize,
    ghost within: { at < part.width },
}

// A step down from a part to the half that holds a leaf: the leaf in that half, the other half, and whether that one is the right one.
#[derive(Clone, Copy)]
struct Step {
    spot: Spot,
    other: Part,
    right: bool,
}

impl Spot {
    // The step down from the root, unless the leaf is alone.
    #[tactic(auto, using(crate::proofs::Descend::descends))]
    fn down(self) -> Option<Step>
        ensures room { length (sides (shape self.part.width) self.at) ≤ max_path }
        ensures less { IfSome result (λ s. s.spot.part.width < self.part.width) }
        ensures sides { MatchOption result (sides (shape self.part.width) self.at ≡ [])
            (λ s. sides (shape self.part.width) self.at ≡ sides (shape s.spot.part.width) s.spot.at ++ (side_of s.right ∷ [])) }
        ensures path { (hs ns : List (List ℕ)) → MatchOption result (path_at (shape self.part.width) self.at self.part.first hs ns ≡ [])
            (λ s. path_at (shape self.part.width) self.at self.part.first hs ns
            ≡ path_at (shape s.spot.part.width) s.spot.at s.spot.part.first hs ns ++ (top_at (shape s.other.width) s.other.first hs ns ∷ [])) }
    {
        let (left, right) = self.part.halves()?;
        if self.at < left.width {
            Some(Step {
                spot: Spot {
                    part: left,
                    at: self.at,
                },
                other: right,
                right: true,
            })
        } else {
            Some(Step {
                spot: Spot {
                    part: right,
                    at: self.at - left.width,
                },
                other: left,
                right: false,
            })
        }
    }

    // How many hashes the leaf's audit path has.
    fn depth(self) -> usize
        ensures value { result ≡ length (sides (shape self.part.width) self.at) }
        ensures room { result ≤ max_path }
    {
        match self.down() {
            None => 0,
            Some(step) => step.spot.depth() + 1,
        }
    }

    // The hash that a path as long as the leaf's leads to from the leaf's hash.
    #[tactic(auto, unfolding(crate::specs::Tree::folded))]
    fn fold(self, path: &[Hash], leaf: Hash) -> Hash
        requires { length path.now ≡ length (sides (shape self.part.width) self.at) }
        ensures { result ≡ folded sha256 (sides (shape self.part.width) self.at) path.now leaf }
    {
        let Some(step) = self.down() else {
            return leaf;
        };
        let Some((sibling, rest)) = path.split_last() else {
            return leaf;
        };
        let hash = step.spot.fold(rest, leaf);
        if step.right {
            node_hash(&hash, sibling)
        } else {
            node_hash(sibling, &hash)
        }
    }
}

// The hashes of a tree, where they lie.
#[derive(Clone, Copy)]
struct Tree<'a> {
    leaves: &'a [Hash; MAX_PARTIES],
    nodes: &'a [Hash; MAX_PARTIES],
}

impl<'a> Tree<'a> {
    // The root of a part.
    #[tactic(auto, using(crate::proofs::Descend::tops))]
    fn top(self, part: Part) -> Hash
        ensures { result ≡ top_at (shape part.width) part.first self.entry.leaves.now self.entry.nodes.now }
    {
        match part.halves() {
            None => self.leaves[part.first],
            Some((_, right)) => self.nodes[right.first],
        }
    }

    // Writes the audit path of a leaf, from the leaf upward, to the front of `path`, and gives its length.
    fn put_path(self, spot: Spot, path: &mut [Hash; MAX_PATH]) -> usize
        ensures count { result ≡ length (sides (shape spot.part.width) spot.at) }
        ensures path { path.new ≡ path_at (shape spot.part.width) spot.at spot.part.first self.entry.leaves.now self.entry.nodes.now ++ drop result path.old }
    {
        let Some(step) = spot.down() else {
            return 0;
        };
        let count = self.put_path(step.spot, path);
        path[count] = self.top(step.other);
        count + 1
    }
}
