// The lines of a report, each written from a place of a buffer on; each function answers where its text ends.
ghost use Rattle.std.specs.Prelude.{◌≤◌, ◌++◌};
ghost use Rattle.text.specs.Bytes.{bytes};
ghost use Rattle.text.specs.Keys.{key_text};
ghost use Rattle.text.specs.internal.Written.{Room, Written};
ghost use Rattle.format.specs.Rules.{lowest_key};
ghost use Rattle.lines.specs.Lines.{labelled, ranged, origin_text, times_text, stroke_line, bell_line, accepted_line, place_label, refused_line, late_line};

use model::refusals::{LATE_JOB, LEVEL_FULL};
use text::{put_bytes, put_decimal, put_key};

// What the line of a stroke shows.
#[derive(Clone, Copy)]
pub struct Stroke {
    pub number: usize,
    pub key: u32,
    pub bell: u32,
    pub earliest: u32,
    pub latest: u32,
    pub best: u32,
    pub worst: u32,
    pub deadline: u32,
}

// What the line of a bell shows.
#[derive(Clone, Copy)]
pub struct BellTotal {
    pub number: usize,
    pub strokes: u32,
    pub hold: u64,
}

fn put_labelled(buffer: &mut [u8], at: usize, label: &[u8], n: u64) -> usize
    requires { Room buffer.old at (labelled label.now n) }
    ensures { Written buffer.old at (labelled label.now n) buffer.new result }
{
    let end = put_bytes(buffer, at, label);
    put_decimal(buffer, end, n)
}

fn put_ranged(buffer: &mut [u8], at: usize, label: &[u8], low: u32, high: u32) -> usize
    requires { Room buffer.old at (ranged label.now low high) }
    ensures { Written buffer.old at (ranged label.now low high) buffer.new result }
{
    let end = put_labelled(buffer, at, label, low as u64);
    put_labelled(buffer, end, b"..", high as u64)
}

fn put_key_name(buffer: &mut [u8], at: usize, key: u32) -> usize
    requires { (lowest_key ≤ key) × Room buffer.old at (bytes " key " ++ key_text key) }
    ensures { Written buffer.old at (bytes " key " ++ key_text key) buffer.new result }
{
    let end = put_bytes(buffer, at, b" key ");
    put_key(buffer, end, key)
}

// Which stroke it is.
fn put_origin(buffer: &mut [u8], at: usize, s: Stroke) -> usize
    requires { (lowest_key ≤ s.key) × Room buffer.old at (origin_text s) }
    ensures { Written buffer.old at (origin_text s) buffer.new result }
{
    let number_end = put_labelled(buffer, at, b"stroke ", s.number as u64);
    let key_end = put_key_name(buffer, number_end, s.key);
    put_labelled(buffer, key_end, b" bell ", s.bell as u64)
}

// Its bounds and its deadline.
fn put_times(buffer: &mut [u8], at: usize, s: Stroke) -> usize
    requires { Room buffer.old at (times_text s) }
    ensures { Written buffer.old at (times_text s) buffer.new result }
{
    let ends_end = put_ranged(buffer, at, b" ends ", s.earliest, s.latest);
    let response_end = put_ranged(buffer, ends_end, b" response ", s.best, s.worst);
    let due_end = put_labelled(buffer, response_end, b" due ", s.deadline as u64);
    put_bytes(buffer, due_end, b"\n")
}

pub fn put_stroke(buffer: &mut [u8], at: usize, s: Stroke) -> usize
    requires { (lowest_key ≤ s.key) × Room buffer.old at (stroke_line s) }
    ensures { Written buffer.old at (stroke_line s) buffer.new result }
{
    let end = put_origin(buffer, at, s);
    put_times(buffer, end, s)
}

pub fn put_bell(buffer: &mut [u8], at: usize, b: BellTotal) -> usize
    requires { Room buffer.old at (bell_line b) }
    ensures { Written buffer.old at (bell_line b) buffer.new result }
{
    let number_end = put_labelled(buffer, at, b"bell ", b.number as u64);
    let strokes_end = put_labelled(buffer, number_end, b" strokes ", b.strokes as u64);
    let total_end = put_labelled(buffer, strokes_end, b" hold ", b.hold);
    put_bytes(buffer, total_end, b"\n")
}

pub fn put_last(buffer: &mut [u8], at: usize, jobs: usize, states: u64, hold: u64) -> usize
    requires { Room buffer.old at (accepted_line jobs states hold) }
    ensures { Written buffer.old at (accepted_line jobs states hold) buffer.new result }
{
    let jobs_end = put_labelled(buffer, at, b"accepted strokes ", jobs as u64);
    let states_end = put_labelled(buffer, jobs_end, b" states ", states);
    let hold_end = put_labelled(buffer, states_end, b" hold ", hold);
    put_bytes(buffer, hold_end, b"\n")
}

// The place of a refusal.
fn put_place(buffer: &mut [u8], at: usize, number: u32, place: u64) -> usize
    requires { Room buffer.old at (labelled (place_label number) place) }
    ensures { Written buffer.old at (labelled (place_label number) place) buffer.new result }
{
    if number == LEVEL_FULL {
        put_labelled(buffer, at, b" level ", place)
    } else {
        put_labelled(buffer, at, b" at ", place)
    }
}

pub fn put_refused(buffer: &mut [u8], number: u32, place: usize) -> usize
    requires { Room buffer.old 0 (refused_line number place) }
    ensures { Written buffer.old 0 (refused_line number place) buffer.new result }
{
    let number_end = put_labelled(buffer, 0, b"refused ", number as u64);
    let place_end = put_place(buffer, number_end, number, place as u64);
    put_bytes(buffer, place_end, b"\n")
}

pub fn put_late(buffer: &mut [u8], job: usize, earliest: u32, latest: u32) -> usize
    requires { Room buffer.old 0 (late_line job earliest latest) }
    ensures { Written buffer.old 0 (late_line job earliest latest) buffer.new result }
{
    let number_end = put_labelled(buffer, 0, b"refused ", LATE_JOB as u64);
    let job_end = put_labelled(buffer, number_end, b" stroke ", job as u64);
    let ends_end = put_ranged(buffer, job_end, b" ends ", earliest, latest);
    put_bytes(buffer, ends_end, b"\n")
}
