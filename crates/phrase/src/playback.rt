// For editors: one playing of a phrase, worked out.
ghost use Rattle.std.specs.Prelude.{◌≡◌, ℕ};
ghost use Rattle.format.specs.Reading.{reading};
ghost use Rattle.checking.specs.Checking.{verdict};
ghost use Rattle.playing.specs.Playing.{played_of, starts_of, finishes_of};
ghost use Rattle.playing.specs.Promise.{RanAs, Inside};
ghost use Rattle.phrase.specs.Host.{outcome_number};

use crate::number_at;
use model::limits::MOST_JOBS;
use player::play;

// Works out a playing of a phrase file. These are the starts and ends of its run; of a phrase that a check accepts, whatever its table, the ends lie in the
// reported ranges and are in time.
pub fn phrase_play(
    file: &[u8],
    playing: &[u8],
    starts: &mut [u32; MOST_JOBS],
    ends: &mut [u32; MOST_JOBS],
) -> u64
    ensures number { result ≡ outcome_number (played_of (reading file.now) playing.now) }
    ensures starts { starts.new ≡ starts_of (played_of (reading file.now) playing.now) }
    ensures ends { ends.new ≡ finishes_of (played_of (reading file.now) playing.now) }
    ensures run { result ≡ 0 → RanAs (reading file.now) playing.now starts.new ends.new }
    ensures inside { result ≡ 0 → (words : ℕ)
        → Inside (reading file.now) (verdict (reading file.now) words) ends.new }
{
    match play(file, playing, starts, ends) {
        Ok(()) => 0,
        Err(refusal) => number_at(refusal.number, refusal.place),
    }
}
