// Rehearses a plan: reads it from standard input, to its end or to the byte that makes it too long, and prints what its parties end with,
// or why it is refused.
#![tactic(auto)]

use buffer::Written;
use limits::MAX_PLAN;
use session::MAX_TEXT;

// Standard input and output.
const IN: i32 = 0;

const OUT: i32 = 1;

// One byte more than a plan may have: whatever follows that byte, the plan is too long.
const MAX_INPUT: usize = MAX_PLAN + 1;

fn main() {
    let mut input = [0u8; MAX_INPUT];
    let got = io::read_full(IN, &mut input);
    let mut text = [0u8; MAX_TEXT];
    let answer = session::print(&input[..got], &mut text);
    show(answer, &text);
}

// What was written. There is room for every output.
fn show(answer: Written, text: &[u8]) {
    let Ok(len) = answer else {
        return;
    };
    if let Some(printed) = text.get(..len) {
        io::write_all(OUT, printed);
    }
}
