// What a host calls: check and report, over a lent table or a table of their own; and, for editors, read, write and play. phrase_c exports them for C.
#![tactic(auto)]

pub mod editing;
pub mod playback;

ghost use Rattle.std.specs.Prelude.{◌≡◌, ◌<◌, length};
ghost use Rattle.format.specs.Reading.{reading};
ghost use Rattle.checking.specs.Checking.{verdict, TableKept, values_of, Playable};
ghost use Rattle.checking.specs.Certain.{IsCertain, HasRoom};
ghost use Rattle.report.specs.Report.{text_of, delivered, length_in};
ghost use Rattle.phrase.specs.Host.{table_words, places, refusal_at, number_of, number_for, NumberByRun};

use checker::check;
use checking::Answer;
use model::refusals::LATE_JOB;
use report::report;

// The words of a table of its own.
pub const TABLE_WORDS: usize = 16384;

// So many places have numbers of their own beside each refusal number.
const PLACES: u64 = 4294967296;

// A refusal's number and place in one.
fn number_at(number: u32, place: usize) -> u64
    requires { place < places }
    ensures { result ≡ refusal_at number place }
{
    u64::from(number) * PLACES + place as u64
}

fn number(answer: Answer) -> u64
    requires { (values_of answer).place < places }
    ensures { result ≡ number_of (values_of answer) }
{
    match answer {
        Answer::Accepted => 0,
        Answer::Refused(number, place) => number_at(number, place),
        Answer::Late(job, _, _) => number_at(LATE_JOB, job),
    }
}

// Checks a phrase file over a lent table.
pub fn phrase_check_with(file: &[u8], table: &mut [u32]) -> u64
    ensures number { result ≡ number_for (reading file.now) (length table.old) }
    ensures table { TableKept (reading file.now) table.old table.new }
    ensures runs { result ≡ 0 → Playable (reading file.now)
        (verdict (reading file.now) (length table.old)) }
    ensures certain { IsCertain (reading file.now) → HasRoom (reading file.now) (length table.old)
        → NumberByRun (reading file.now) (length table.old) result }
{
    number(check(file, table).answer)
}

// Checks a phrase file.
pub fn phrase_check(file: &[u8]) -> u64
    ensures number { result ≡ number_for (reading file.now) table_words }
    ensures runs { result ≡ 0 → Playable (reading file.now) (verdict (reading file.now) table_words) }
    ensures certain { IsCertain (reading file.now) → NumberByRun (reading file.now) table_words result }
{
    let mut table = [0u32; TABLE_WORDS];
    phrase_check_with(file, &mut table)
}

// Reports on a phrase file over a lent table.
pub fn phrase_report_with(file: &[u8], table: &mut [u32], text: &mut [u8]) -> usize
    ensures length { result ≡ length_in (text_of (reading file.now) (length table.old)) text.old }
    ensures short { result ≡ 0 → length text.old < length (text_of (reading file.now) (length table.old)) }
    ensures text { text.new
        ≡ delivered (text_of (reading file.now) (length table.old)) text.old }
    ensures table { TableKept (reading file.now) table.old table.new }
{
    report(file, table, text).length
}

// Reports on a phrase file.
pub fn phrase_report(file: &[u8], text: &mut [u8]) -> usize
    ensures length { result ≡ length_in (text_of (reading file.now) table_words) text.old }
    ensures short { result ≡ 0 → length text.old < length (text_of (reading file.now) table_words) }
    ensures text { text.new ≡ delivered (text_of (reading file.now) table_words) text.old }
{
    let mut table = [0u32; TABLE_WORDS];
    phrase_report_with(file, &mut table, text)
}
