// What a host program in C calls: each call of phrase, under the name and with the promises that it has there. The calls are written out again, for C links
// against plain functions with exported names.
#![tactic(auto)]

mod editing;
mod playback;

ghost use Rattle.std.specs.Prelude.{◌≡◌, ◌<◌, length};
ghost use Rattle.format.specs.Reading.{reading};
ghost use Rattle.checking.specs.Checking.{verdict, TableKept, Playable};
ghost use Rattle.checking.specs.Certain.{IsCertain, HasRoom};
ghost use Rattle.report.specs.Report.{text_of, delivered, length_in};
ghost use Rattle.phrase.specs.Host.{table_words, number_for, NumberByRun};

// Checks a phrase file over a lent table.
#[unsafe(no_mangle)]
pub extern "C" fn phrase_check_with(file: &[u8], table: &mut [u32]) -> u64
    ensures number { result ≡ number_for (reading file.now) (length table.old) }
    ensures table { TableKept (reading file.now) table.old table.new }
    ensures runs { result ≡ 0 → Playable (reading file.now)
        (verdict (reading file.now) (length table.old)) }
    ensures certain { IsCertain (reading file.now) → HasRoom (reading file.now) (length table.old)
        → NumberByRun (reading file.now) (length table.old) result }
{
    phrase::phrase_check_with(file, table)
}

// Checks a phrase file.
#[unsafe(no_mangle)]
pub extern "C" fn phrase_check(file: &[u8]) -> u64
    ensures number { result ≡ number_for (reading file.now) table_words }
    ensures runs { result ≡ 0 → Playable (reading file.now) (verdict (reading file.now) table_words) }
    ensures certain { IsCertain (reading file.now) → NumberByRun (reading file.now) table_words result }
{
    phrase::phrase_check(file)
}

// Reports on a phrase file over a lent table.
#[unsafe(no_mangle)]
pub extern "C" fn phrase_report_with(file: &[u8], table: &mut [u32], text: &mut [u8]) -> usize
    ensures length { result ≡ length_in (text_of (reading file.now) (length table.old)) text.old }
    ensures short { result ≡ 0 → length text.old < length (text_of (reading file.now) (length table.old)) }
    ensures text { text.new
        ≡ delivered (text_of (reading file.now) (length table.old)) text.old }
    ensures table { TableKept (reading file.now) table.old table.new }
{
    phrase::phrase_report_with(file, table, text)
}

// Reports on a phrase file.
#[unsafe(no_mangle)]
pub extern "C" fn phrase_report(file: &[u8], text: &mut [u8]) -> usize
    ensures length { result ≡ length_in (text_of (reading file.now) table_words) text.old }
    ensures short { result ≡ 0 → length text.old < length (text_of (reading file.now) table_words) }
    ensures text { text.new ≡ delivered (text_of (reading file.now) table_words) text.old }
{
    phrase::phrase_report(file, text)
}
