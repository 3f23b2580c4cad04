// Checks example files from standard input, each after three pairs of bytes that say how many words the table has, how many of them the check may use,
// and how long the file is. Prints each result, whether the entries beyond its jobs are zero, and whether all other words of the table, which held
// something before, are unchanged.
#![tactic(auto)]

use checker::check;
use input::read_full;
use phrase::TABLE_WORDS;
use printing::{Example, Examples, MOST_INPUT, print_rest, show_result};
use std::io;

// What every word of the table holds before a check: no time, and no count of states.
const BEFORE: u32 = 2779096485;

// Checks the file over the first words of the table.
fn show_over(rt: &impl Print, example: Example<'_>, table: &mut [u32]) -> io::Result<()> {
    let Some(lent) = table.get_mut(..example.first) else {
        return Ok(());
    };
    let checked = check(example.file, lent);
    show_result(rt, checked)?;
    let mut rest = table.iter().skip(example.second);
    print_rest(rt, rest.all(|word| *word == BEFORE))
}

fn show(rt: &impl Print, example: Example<'_>) -> io::Result<()> {
    let mut table = [BEFORE; TABLE_WORDS];
    show_over(rt, example, &mut table)
}

fn main(rt: HostRuntime) -> io::Result<()> {
    let mut input = [0u8; MOST_INPUT];
    let n = read_full(&rt, &mut input)?;
    for example in Examples(&input[..n]) {
        show(&rt, example)?;
    }
    Ok(())
}
