// Runs the heap's entry points on the cases of standard input and prints every outcome. tests/model.py says what a line
// of input is and what is printed, and made the expected output.
#![tactic(auto)]

mod case;
mod read;
mod row;
mod show;
mod store;

use case::Case;
use std::io;

fn main(rt: HostRuntime) -> io::Result<()> {
    let mut text = [0u8; 65536];
    let n = print::read_full(&mut rt.stdin(), &mut text)?;
    let mut out = rt.stdout();
    let mut case = Case::new();
    for line in text[..n].split_inclusive(|byte| *byte == b'\n') {
        case.line(&mut out, line)?;
    }
    Ok(())
}
