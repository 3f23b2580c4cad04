// Checks the phrase file on standard input and prints the report.
#![tactic(auto)]

use input::read_full;
use phrase::TABLE_WORDS;
use report::report;
use std::io;

// The longest input that is read.
const MOST_INPUT: usize = 4096;

const TEXT_BYTES: usize = 32768;

fn print_report(rt: &impl Print, file: &[u8]) -> io::Result<()> {
    let mut table = [0u32; TABLE_WORDS];
    let mut text = [0u8; TEXT_BYTES];
    let length = report(file, &mut table, &mut text).length;
    rt.write_all(&text[..length])
}

fn main(rt: HostRuntime) -> io::Result<()> {
    let mut input = [0u8; MOST_INPUT + 1];
    let n = read_full(&rt, &mut input)?;
    if MOST_INPUT < n {
        return println!(rt; "input too long");
    }
    print_report(&rt, &input[..n])
}
