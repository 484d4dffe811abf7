// The kinds of cases.
use crate::steps::World;
use crate::{coder, messages, packets, plans, steps, tree};
use stream::Broken;

// A kind of cases.
#[derive(Clone, Copy, Debug, PartialEq, Eq)]
pub(crate) enum Kind {
    Products,
    Inverses,
    Powers,
    Encode,
    Rebuild,
    RebuildWithRoot,
    Hashes,
    Trees,
    Checks,
    PathLengths,
    Reads,
    Judgements,
    Inboxes,
    Writes,
    MessageReads,
    MessageWrites,
    Openings,
    OpeningsBySender,
    AgreedRoots,
    AgreedBits,
    FirstInboxes,
    SecondInboxes,
    NumbersChanged,
    StagesChanged,
    BytesChanged,
    Plans,
}

pub(crate) const KINDS: usize = 26;

// All kinds. The stream numbers them in this order, from 1 on.
pub(crate) static ALL: [Kind; KINDS] = [
    Kind::Products,
    Kind::Inverses,
    Kind::Powers,
    Kind::Encode,
    Kind::Rebuild,
    Kind::RebuildWithRoot,
    Kind::Hashes,
    Kind::Trees,
    Kind::Checks,
    Kind::PathLengths,
    Kind::Reads,
    Kind::Judgements,
    Kind::Inboxes,
    Kind::Writes,
    Kind::MessageReads,
    Kind::MessageWrites,
    Kind::Openings,
    Kind::OpeningsBySender,
    Kind::AgreedRoots,
    Kind::AgreedBits,
    Kind::FirstInboxes,
    Kind::SecondInboxes,
    Kind::NumbersChanged,
    Kind::StagesChanged,
    Kind::BytesChanged,
    Kind::Plans,
];

impl TryFrom<usize> for Kind {
    type Error = Broken;

    fn try_from(number: usize) -> Result<Kind, Broken> {
        match number.checked_sub(1).and_then(|at| ALL.get(at)) {
            Some(kind) => Ok(*kind),
            None => Err(Broken::default()),
        }
    }
}

impl Kind {
    // The name that its cases are counted under.
    pub(crate) fn name(self) -> &'static str {
        match self {
            Kind::Products => "products",
            Kind::Inverses => "inverses",
            Kind::Powers => "powers",
            Kind::Encode => "encode",
            Kind::Rebuild => "rebuild",
            Kind::RebuildWithRoot => "rebuild with root",
            Kind::Hashes => "hashes",
            Kind::Trees => "trees",
            Kind::Checks => "checks",
            Kind::PathLengths => "path lengths",
            Kind::Reads => "reads",
            Kind::Judgements => "judgements",
            Kind::Inboxes => "inboxes",
            Kind::Writes => "writes",
            Kind::MessageReads => "message reads",
            Kind::MessageWrites => "message writes",
            Kind::Openings => "openings",
            Kind::OpeningsBySender => "openings by a sender",
            Kind::AgreedRoots => "agreed roots",
            Kind::AgreedBits => "agreed bits",
            Kind::FirstInboxes => "first inboxes",
            Kind::SecondInboxes => "second inboxes",
            Kind::NumbersChanged => "numbers changed",
            Kind::StagesChanged => "stages changed",
            Kind::BytesChanged => "bytes changed",
            Kind::Plans => "plans",
        }
    }

    // Whether each byte that comes of a case counts as a case of its own.
    pub(crate) fn counts_bytes(self) -> bool {
        matches!(self, Kind::Products | Kind::Inverses)
    }

    // Runs a case. What comes of it stands at the start of `out`, and its length comes back, but where what is handed in is not as the kind
    // says or functions that have to agree do not. All but the calls on a party go by themselves.
    pub(crate) fn run(self, world: &mut World, input: &[u8], out: &mut [u8]) -> Option<usize> {
        match self {
            Kind::Products => coder::products(input, out),
            Kind::Inverses => coder::inverses(out),
            Kind::Powers => coder::power(input, out),
            Kind::Encode => coder::encode(input, out),
            Kind::Rebuild => coder::rebuild(input, out),
            Kind::RebuildWithRoot => coder::rebuild_with_root(input, out),
            Kind::Hashes => tree::hash(input, out),
            Kind::Trees => tree::tree(input, out),
            Kind::Checks => tree::check(input, out),
            Kind::PathLengths => tree::path_lengths(input, out),
            Kind::Reads => packets::read(input, out),
            Kind::Judgements => packets::judge(input, out),
            Kind::Inboxes => packets::inbox(input, out),
            Kind::Writes => packets::write(input, out),
            Kind::MessageReads => messages::read(input, out),
            Kind::MessageWrites => messages::write(input, out),
            Kind::Openings => steps::open(world, input, out),
            Kind::OpeningsBySender => steps::open_by_sender(world, input, out),
            Kind::AgreedRoots => steps::agree_root(world, input, out),
            Kind::AgreedBits => steps::agree_bit(world, input, out),
            Kind::FirstInboxes => steps::take_shares(world, input, out),
            Kind::SecondInboxes => steps::take_relays(world, input, out),
            Kind::NumbersChanged => steps::change_number(world, input),
            Kind::StagesChanged => steps::change_stage(world, input),
            Kind::BytesChanged => steps::change_bytes(world, input),
            Kind::Plans => plans::rehearse(input, out),
        }
    }
}
