// A stream of test cases on standard input: its kinds and parts are read, its cases counted, and the counts printed.
//
// The stream is a sequence of cases, read front to back; numbers are big-endian. A case is its kind (1 byte, from 1 on) and two parts:
// what is handed in, and what must come of it. A part is its length (4 bytes) and as many bytes. Byte 0 stands at the end, with nothing
// after it.
//
// No contract can say what is read or written.
#![tactic(auto)]

ghost use Rattle.std.specs.Prelude.{◌≡◌, ◌<◌, ◌≤◌, ◌&&◌, length, drop, ◌==◌, IfOk, IfErr, IfSome};
ghost use Rattle.stream.specs.Number.{spelled};
ghost use Rattle.stream.specs.Parts.{told, part_of, start_of, Told};
ghost use Rattle.stream.specs.Tally.{◌⊞◌, counted_of};

// The descriptors of standard input and output.
const IN: i32 = 0;

const OUT: i32 = 1;

// The loop over cases needs a bound; a stream with more of them counts as broken.
pub const MAX_CASES: usize = 1_000_000;

// The cases of one kind: how many agreed and failed, and the running number of the first that failed.
#[derive(Clone, Copy, Default)]
pub struct Tally {
    pub agreed: u64,
    pub failed: u64,
    pub first: u64,
}

impl Tally {
    // With one more case. Before the first that failed all agreed, so its number follows theirs.
    #[tactic(auto, unfolding(crate::specs::Tally::counted_of))]
    pub fn counted(self, good: bool) -> Tally
        ensures { result ≡ counted_of self good }
    {
        let mut tally = self;
        if good {
            tally.agreed = self.agreed.wrapping_add(1);
            return tally;
        }
        tally.failed = self.failed.wrapping_add(1);
        if self.first == 0 {
            tally.first = self.agreed.wrapping_add(1);
        }
        tally
    }
}

// Where a stream is not as it should be: of a part of `len` bytes only `got` came. Both are 0 where it has no kind that is there, no length
// of a part, or one that the buffer has not as many bytes for.
#[derive(Clone, Copy, Debug, Default, PartialEq, Eq)]
pub struct Broken {
    pub len: usize,
    pub got: usize,
}

// Reads the byte that a case starts with, which is its kind, or that the stream ends with.
pub fn read_kind(kinds: usize) -> Result<Option<usize>, Broken>
    ensures { IfOk result (λ next. IfSome next (λ kind. (0 < kind) × (kind ≤ kinds))) }
{
    let [byte] = read_bytes::<1>()?;
    let kind = usize::from(byte);
    if kind == 0 {
        return read_end();
    }
    if kinds < kind {
        return Err(Broken::default());
    }
    Ok(Some(kind))
}

// The end of a stream has nothing behind it.
fn read_end() -> Result<Option<usize>, Broken>
    ensures { IfOk result (λ next. next ≡ None) }
{
    match read_bytes::<1>() {
        Ok(_) => Err(Broken::default()),
        Err(_) => Ok(None),
    }
}

// The next N bytes.
fn read_bytes<const N: usize>() -> Result<[u8; N], Broken>
    ensures { IfErr result (λ b. b ≡ record { len = 0; got = 0 }) }
{
    let mut bytes = [0u8; N];
    match read(&mut bytes) {
        Ok(_) => Ok(bytes),
        Err(_) => Err(Broken::default()),
    }
}

// Reads a part to the start of a buffer, and gives its length. The bytes of the buffer behind it are left.
#[tactic(auto, using(crate::proofs::Parts::start_told))]
pub fn read_part(buffer: &mut [u8]) -> Result<usize, Broken>
    ensures { ((told result).len ≤ length buffer.new) × (length buffer.new ≡ length buffer.old)
        × (drop (told result).len buffer.new ≡ drop (told result).len buffer.old) × Told (told result) }
{
    let front = read_bytes::<4>()?;
    read_start(buffer, number(&front))
}

// Fills the first `len` bytes of a buffer from the stream, and leaves the others. A buffer that has not as many is left whole.
#[tactic(auto, using(crate::proofs::Parts::start_over))]
fn read_start(buffer: &mut [u8], len: usize) -> Result<usize, Broken>
    ensures { (length buffer.new ≡ length buffer.old)
        × (drop (told result).len buffer.new ≡ drop (told result).len buffer.old)
        × ((told result).got ≤ (told result).len) × (told result ≡ start_of (length buffer.old) len (told result).got) }
{
    if buffer.len() < len {
        return Err(Broken::default());
    }
    read(&mut buffer[..len])
}

// Fills a buffer from the stream.
fn read(buffer: &mut [u8]) -> Result<usize, Broken>
    ensures { (length buffer.new ≡ length buffer.old)
        × ((told result).got ≤ (told result).len) × (told result ≡ part_of (length buffer.old) (told result).got) }
{
    let len = buffer.len();
    let got = io::read_full(IN, buffer);
    if got == len {
        Ok(got)
    } else {
        Err(Broken { len, got })
    }
}

// The number that bytes spell, the first the highest, modulo 2^64.
pub fn number(bytes: &[u8]) -> usize
    ensures { result ≡ spelled bytes.now }
{
    bytes.iter().fold(
        0,
        |value: usize, byte| value.wrapping_mul(256).wrapping_add(usize::from(*byte)),
    )
}

// Prints the cases of a kind, if there were any. Gives a number of failed cases with those of this kind.
pub fn print_tally(name: &[u8], tally: Tally, failed: u64) -> u64
    ensures { result ≡ failed ⊞ tally.failed }
{
    if tally.agreed != 0 || tally.failed != 0 {
        print_counts(name, tally);
    }
    failed.wrapping_add(tally.failed)
}

// Prints how many cases of a kind agreed and, if any failed, which was the first.
fn print_counts(name: &[u8], tally: Tally) {
    io::write_all(OUT, name);
    print_line(b" ", tally.agreed);
    if tally.failed != 0 {
        io::write_all(OUT, name);
        print_line(b" failed first at case ", tally.first);
    }
}

// Prints how many cases failed, and whether the stream was broken. Tells whether all was well.
pub fn print_end(failed: u64, whole: bool) -> bool
    ensures { result ≡ (failed == 0 && whole) }
{
    print_line(b"failed ", failed);
    if !whole {
        io::write_all(OUT, b"broken stream\n");
    }
    failed == 0 && whole
}

fn print_line(before: &[u8], value: u64) {
    io::write_all(OUT, before);
    io::print_decimal(OUT, value);
    io::write_all(OUT, b"\n");
}
