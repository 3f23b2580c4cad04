// Reports on example files from standard input, each after three pairs of bytes that say how many words the table has, how many bytes the text may take,
// and how long the file is. Prints each text and its length, and whether the bytes of the buffer after it, which held something before, are unchanged;
// then the answer with all that it carries, and whether the entries beyond its jobs are zero. The first examples are worked by hand, the others are the
// second checker's; reference/src/bin/vectors.rs has both and makes `stdin` and `stdout`.
#![tactic(auto)]

use input::read_full;
use phrase::TABLE_WORDS;
use printing::{Example, Examples, MOST_INPUT, print_rest, show_result};
use report::report;
use std::io;

const TEXT_BYTES: usize = 8192;
// What every byte of the buffer holds before a report: in no text.
const BEFORE: u8 = 165;

// The text up to its end, and whether what follows is as it was before.
fn show_text(rt: &impl Print, text: &[u8], end: usize) -> io::Result<()> {
    let Some((told, rest)) = text.split_at_checked(end) else {
        return Ok(());
    };
    rt.write_all(told)?;
    print!(rt; "length {end}, ")?;
    print_rest(rt, rest.iter().all(|byte| *byte == BEFORE))
}

// Reports over the first words of the table and the first bytes of the text.
fn show_over(
    rt: &impl Print,
    example: Example<'_>,
    table: &mut [u32],
    text: &mut [u8],
) -> io::Result<()> {
    let Some(lent) = table.get_mut(..example.first) else {
        return Ok(());
    };
    let Some(buffer) = text.get_mut(..example.second) else {
        return Ok(());
    };
    let reported = report(example.file, lent, buffer);
    show_text(rt, text, reported.length)?;
    show_result(rt, reported.checked)
}

fn show(rt: &impl Print, example: Example<'_>) -> io::Result<()> {
    let mut table = [0u32; TABLE_WORDS];
    let mut text = [BEFORE; TEXT_BYTES];
    show_over(rt, example, &mut table, &mut text)
}

fn main(rt: HostRuntime) -> io::Result<()> {
    let mut input = [0u8; MOST_INPUT];
    let n = read_full(&rt, &mut input)?;
    for example in Examples(&input[..n]) {
        show(&rt, example)?;
    }
    Ok(())
}
