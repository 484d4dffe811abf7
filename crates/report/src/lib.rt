// What a rehearsal prints: a line for each good party, and one for what they sent.
#![tactic(auto)]

ghost use Rattle.std.specs.Prelude.{◌≡◌, [], ◌∷◌, ◌++◌, ◌+◌, ◌*◌, ◌≤◌, ◌<◌, length, drop};
ghost use Rattle.buffer.specs.Given.{said, gave, written};
ghost use Rattle.report.specs.Output.{newline, decimal, hex_digit, hex, ending, line_of, sent_line_of, refused_line_of};

use buffer::Written;
use cause::{Cause, Refusal};
use limits::MAX_MESSAGE;
use std::marker::Model;

// The most digits of a number.
const MAX_DIGITS: usize = 20;

// The longest line: a number, a space, the sign, a space, two digits for each byte, and a newline.
const MAX_LINE: usize = MAX_DIGITS + 4 + 2 * MAX_MESSAGE;

// The longest word in front of a number, and the longest line with one: the word, the number and a newline.
const MAX_WORD: usize = 8;

const MAX_WORDED: usize = MAX_WORD + MAX_DIGITS + 1;

// A line of at most N bytes as it is written, from its start on.
#[derive(Drop)]
struct Text<const N: usize> {
    bytes: [u8; N],
    len: usize,
}

impl<const N: usize> Model for Text<N> {
    ghost use Rattle.std.specs.Prelude.{ℕ, ◌≤◌, List, take};

    ghost Value = { List ℕ };

    ghost view = { λ t. take t.len t.bytes };

    ghost invariant = { λ t. t.len ≤ N };
}

impl<const N: usize> Text<N> {
    fn new() -> Text<N>
        ensures { result ≡ [] }
    {
        Text {
            bytes: [0; N],
            len: 0,
        }
    }

    fn push(&mut self, s: &[u8])
        requires { length self.old + length s.now ≤ N }
        ensures { self.new ≡ self.old ++ s.now }
    {
        let at = self.len;
        let end = at + s.len();
        let bytes = &mut self.bytes[..];
        bytes[at..end].copy_from_slice(s);
        self.len = end;
    }

    fn push_decimal(&mut self, x: usize)
        requires { length self.old + MAX_DIGITS ≤ N }
        ensures text { self.new ≡ self.old ++ decimal x }
        ensures len { length self.new ≤ length self.old + MAX_DIGITS }
    {
        let Digits { bytes, from } = digits_of(x);
        self.push(&bytes[from..]);
    }

    // Each byte as two hexadecimal digits.
    fn push_hex(&mut self, message: &[u8])
        requires { length self.old + 2 * length message.now ≤ N }
        ensures text { self.new ≡ self.old ++ hex message.now }
        ensures len { length self.new ≡ length self.old + 2 * length message.now }
    {
        for byte in message {
            let high = hex_digit(*byte / 16);
            let low = hex_digit(*byte % 16);
            self.push(&[high, low]);
        }
    }

    // A space, the sign, the message if there is one, and a newline.
    fn push_ending(&mut self, some: bool, message: &[u8])
        requires { length self.old + 4 + 2 * length message.now ≤ N }
        ensures { self.new ≡ self.old ++ ending some message.now }
    {
        if !some {
            self.push(b" -\n");
        } else if message.is_empty() {
            self.push(b" =\n");
        } else {
            self.push(b" = ");
            self.push_hex(message);
            self.push(b"\n");
        }
    }

    fn give(&self, out: &mut [u8]) -> Written
        ensures { gave (said result) out.new ≡ written self.now out.old }
    {
        buffer::give(&self.bytes[..self.len], out)
    }
}

// A number's digits, at the end of the array.
#[derive(Clone, Copy)]
struct Digits {
    bytes: [u8; MAX_DIGITS],
    from: usize,
}

// A party's line in a lent buffer: its number, and its message if it has one.
#[tactic(auto, using(crate::proofs::Lines::line_refused, crate::proofs::Lines::line_given))]
pub fn line(number: usize, some: bool, message: &[u8], out: &mut [u8]) -> Written
    ensures { gave (said result) out.new ≡ line_of number some message.now out.old }
{
    if MAX_MESSAGE < message.len() {
        return Err(Refusal::Because(Cause::Length));
    }
    let mut text: Text<MAX_LINE> = Text::new();
    text.push_decimal(number);
    text.push_ending(some, message);
    text.give(out)
}

// The last line in a lent buffer: the bytes sent.
#[tactic(auto, unfolding(crate::specs::Output::sent_line_of, crate::specs::Output::sent_line))]
pub fn sent_line(bytes: usize, out: &mut [u8]) -> Written
    ensures { gave (said result) out.new ≡ sent_line_of bytes out.old }
{
    worded(b"sent ", bytes, out)
}

// The one line of a plan that is refused, in a lent buffer.
#[tactic(auto, unfolding(crate::specs::Output::refused_line_of, crate::specs::Output::refused_line))]
pub fn refused_line(cause: usize, out: &mut [u8]) -> Written
    ensures { gave (said result) out.new ≡ refused_line_of cause out.old }
{
    worded(b"refused ", cause, out)
}

// A word, a number and a newline in a lent buffer.
fn worded(word: &[u8], x: usize, out: &mut [u8]) -> Written
    requires { length word.now ≤ MAX_WORD }
    ensures { gave (said result) out.new ≡ written ((word.now ++ decimal x) ++ (newline ∷ [])) out.old }
{
    let mut text: Text<MAX_WORDED> = Text::new();
    text.push(word);
    text.push_decimal(x);
    text.push(b"\n");
    text.give(out)
}

// The digits of a number, the last at the end of the array.
fn digits_of(x: usize) -> Digits
    ensures { (result.from ≤ MAX_DIGITS) × (drop result.from result.bytes ≡ decimal x) }
{
    let mut bytes = [0u8; MAX_DIGITS];
    let mut left = x;
    for from in (0..MAX_DIGITS).rev() {
        bytes[from] = b'0' + (left % 10) as u8;
        left /= 10;
        if left == 0 {
            return Digits { bytes, from };
        }
    }
    Digits { bytes, from: 0 }
}

fn hex_digit(x: u8) -> u8
    requires { x < 16 }
    ensures { result ≡ hex_digit x }
{
    if x < 10 { b'0' + x } else { b'a' + (x - 10) }
}
