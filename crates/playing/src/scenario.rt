// The bytes of a playing: its head, and for each job a release and an execution time.
ghost use Rattle.std.specs.Prelude.{◌≡◌, ◌≤◌, ◌<◌};
ghost use Rattle.model.specs.Limits.{most_jobs};
ghost use Rattle.playing.specs.Playing.{scenario_in, is_playing};
ghost use Rattle.playing.specs.internal.Admitting.{HasJobs};

use fields::bytes::{be_16, be_32, byte};

const PLAYING_VERSION: u32 = 1;

const BYTE_COUNT_AT: usize = 1;

// The bytes of a job follow the head.
const RELEASES_AT: usize = 5;

const JOB_BYTES: usize = 6;

// The call moment of job i.
pub fn release(playing: &[u8], k: usize, i: usize) -> u32
    requires { (i < k) × HasJobs playing.now k }
    ensures { result ≡ (scenario_in playing.now).release i }
{
    be_32(playing, RELEASES_AT + i * JOB_BYTES)
}

// The hold of job i.
pub fn execution(playing: &[u8], k: usize, i: usize) -> u32
    requires { (i < k) × HasJobs playing.now k }
    ensures { result ≡ (scenario_in playing.now).execution i }
{
    be_16(playing, RELEASES_AT + i * JOB_BYTES + 4)
}

// Whether version, count and number of jobs are right.
pub fn is_playing(playing: &[u8], k: usize) -> bool
    requires { k ≤ most_jobs }
    ensures { result ≡ is_playing playing.now k }
{
    if playing.len() < RELEASES_AT {
        return false;
    }
    if byte(playing, 0) != PLAYING_VERSION {
        return false;
    }
    let rest = playing.len() - RELEASES_AT;
    if be_32(playing, BYTE_COUNT_AT) as usize != rest {
        return false;
    }
    rest == k * JOB_BYTES
}
