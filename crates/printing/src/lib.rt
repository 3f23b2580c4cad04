// What the example programs share: how words and the result of a check are printed, and how examples stand in their input.
#![tactic(auto)]

ghost use Rattle.std.specs.Prelude.{IfSome, length};
ghost use Rattle.std.specs.Iterator.{at_most};
ghost use Rattle.printing.specs.internal.Files.{NumberIn, FileIn};

use checking::{Answer, Checked};
use std::{fmt, io};

// The longest input that an example program reads: what follows is left.
pub const MOST_INPUT: usize = 65536;

// Each word after a space.
#[derive(Clone, Copy, Drop)]
pub struct Words<'a>(pub &'a [u32]);

impl fmt::Display for Words<'_> {
    fn fmt<W: fmt::Write>(&self, f: &mut fmt::Formatter<W>) -> fmt::Result {
        for word in self.0 {
            write!(f, " {word}")?;
        }
        Ok(())
    }
}

// Whether all words are zero, in a word.
fn clear(words: &[u32]) -> &'static str {
    if words.iter().all(|word| *word == 0) {
        "clear"
    } else {
        "not clear"
    }
}

// Whether the words are zero.
pub fn print_clear(rt: &impl Print, words: &[u32]) -> io::Result<()> {
    println!(rt; "{}", clear(words))
}

// Whether what a call must not change was found as it was before.
pub fn print_rest(rt: &impl Print, same: bool) -> io::Result<()> {
    let found = if same { "unchanged" } else { "changed" };
    println!(rt; "rest {found}")
}

fn print_answer(rt: &impl Print, answer: Answer) -> io::Result<()> {
    match answer {
        Answer::Accepted => print!(rt; "accepted"),
        Answer::Refused(number, place) => print!(rt; "refused {number} at {place}"),
        Answer::Late(job, earliest, latest) => print!(rt; "late {job} ends {earliest} {latest}"),
    }
}

// The first words, one for each job, and whether the others are zero.
fn print_bounds(rt: &impl Print, name: &str, words: &[u32], jobs: usize) -> io::Result<()> {
    let Some((bounds, others)) = words.split_at_checked(jobs) else {
        return Ok(());
    };
    println!(rt; "{name}{}, {}", Words(bounds), clear(others))
}

pub fn show_result(rt: &impl Print, checked: Checked) -> io::Result<()> {
    let jobs = checked.jobs;
    print_answer(rt, checked.answer)?;
    println!(rt; ", jobs {jobs}, states {}", checked.states)?;
    print_bounds(rt, "earliest", &checked.earliest, jobs)?;
    print_bounds(rt, "latest", &checked.latest, jobs)?;
    print_bounds(rt, "best", &checked.best, jobs)?;
    print_bounds(rt, "worst", &checked.worst, jobs)
}

// The number that the first two bytes of the input give, and what follows them.
fn next_number(input: &[u8]) -> Option<(usize, &[u8])>
    ensures { IfSome result (λ p. NumberIn input.now p.1.now) }
{
    let (bytes, rest) = input.split_first_chunk()?;
    Some((usize::from(u16::from_be_bytes(*bytes)), rest))
}

// The file at the front of the input, after two bytes that say how long it is, and what follows it; none where the input ends before.
pub fn next_file(input: &[u8]) -> Option<(&[u8], &[u8])>
    ensures { IfSome result (λ p. FileIn 2 input.now p.0.now p.1.now) }
{
    let (size, rest) = next_number(input)?;
    rest.split_at_checked(size)
}

// The files in an input, each after its length.
#[derive(Drop)]
pub struct Files<'a>(pub &'a [u8]);

impl<'a> Iterator for Files<'a> {
    type Item = &'a [u8];

    ghost remaining = { λ files. at_most (length files.0.now) };

    fn next(&mut self) -> Option<&'a [u8]> {
        let (file, rest) = next_file(self.0)?;
        self.0 = rest;
        Some(file)
    }
}

// The two numbers of an example, and its file.
#[derive(Clone, Copy, Drop)]
pub struct Example<'a> {
    pub first: usize,
    pub second: usize,
    pub file: &'a [u8],
}

// The example at the front of the input, two numbers and a file after its length, and what follows it; none where the input ends before.
pub fn next_example(input: &[u8]) -> Option<(Example<'_>, &[u8])>
    ensures { IfSome result (λ p. FileIn 6 input.now p.0.file.now p.1.now) }
{
    let (first, rest) = next_number(input)?;
    let (second, rest) = next_number(rest)?;
    let (file, rest) = next_file(rest)?;
    Some((
        Example {
            first,
            second,
            file,
        },
        rest,
    ))
}

// The examples in an input.
#[derive(Drop)]
pub struct Examples<'a>(pub &'a [u8]);

impl<'a> Iterator for Examples<'a> {
    type Item = Example<'a>;

    ghost remaining = { λ examples. at_most (length examples.0.now) };

    fn next(&mut self) -> Option<Example<'a>> {
        let (example, rest) = next_example(self.0)?;
        self.0 = rest;
        Some(example)
    }
}
