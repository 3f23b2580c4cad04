// A level of states, stored in a half of the table, with an index by their sets.
#![tactic(auto)]

ghost use Rattle.std.specs.Prelude.{◌≡◌, List, ℕ, ◌+◌, ◌*◌, ◌^◌, ◌≤◌, ◌<◌, length, get_or};
ghost use Rattle.model.specs.Jobs.{Job};
ghost use Rattle.model.specs.Limits.{most_cores, most_jobs};
ghost use Rattle.model.specs.States.{Range};
ghost use Rattle.model.specs.Exploration.{stored, limited, state_words};
ghost use Rattle.states.specs.internal.Slots.{set_of, state_of, slot_of, states_of, Sound, AllSound};
ghost use Rattle.links.specs.internal.Spare.{spare_of, link_of, head_of};
ghost use Rattle.store.specs.internal.Half.{level_of, SoundAt, SetsFit, NoneMerges, FoundMerging, OthersKept, KeptAt, Put, MergedAt, FoundOfSet};
ghost use Rattle.store.specs.internal.Chains.{FirstFrom, leads, LastBefore};
ghost use Rattle.store.specs.internal.Index.{bucket_of, bucket_at, head_at, head_room, last_slot, Fits, Spared, used_of, Linked, Indexed, IndexedAt, Searched, SpareKept};

use links::{Head, Link, spare_word, write_spare_word};
use states::copying::load_state;
use states::merging::{can_merge, merge_into};
use states::reading::{WORD, started_set};
use states::sizes::state_words;

// The index of a level: the states in so many slots, the first ones, are linked; so many buckets their sets fall into.
#[derive(Clone, Copy)]
pub struct Index {
    pub linked: usize,
    pub buckets: usize,
}

// How a search along the links ended: the bucket of the new state, the state that can merge with it, and the last one of the bucket before that.
#[derive(Clone, Copy)]
pub struct Search {
    pub bucket: usize,
    pub merging: Option<usize>,
    pub last: Option<usize>,
}

// The heads that have a place of their own. Where there are more buckets, they stand in the slots: these are in the cache, which slots of a wide level are not.
pub const HEAD_ROOM: usize = 2048;

// The words of the set are multiplied and added up; the lower 32 bits of that, as a fraction, are the bucket's place among all. So sets which differ in few
// jobs fall apart, and no division is needed.
const LOW_FACTOR: u64 = 1640531527;

const HIGH_FACTOR: u64 = 668265263;

fn bucket_of(set: u64, buckets: usize) -> usize
    requires { buckets ≤ last_slot }
    ensures { result ≡ bucket_of buckets set }
{
    let sum = set % WORD * LOW_FACTOR + set / WORD * HIGH_FACTOR;
    (sum % WORD * buckets as u64 / WORD) as usize
}

// How many of n states are linked.
fn used_of(n: usize, index: Index) -> usize
    ensures { result ≡ used_of index n }
{
    n.min(index.linked)
}

// The head of bucket b, where so many slots have linked states.
fn head_at(
    half: &[u32],
    heads: &[u32],
    used: usize,
    b: usize,
    m: usize,
    k: usize,
    index: Index,
) -> usize
    requires { (m ≤ most_cores) × (k ≤ most_jobs) × Fits m k (length half.now) index × (length heads.now ≡ head_room)
        × Spared m k half.now used × (b < index.buckets) }
    ensures { result ≡ head_at m k index half.now heads.now used b }
{
    if index.buckets <= HEAD_ROOM {
        return heads[b] as usize;
    }
    let w = state_words(m, k);
    let at = b * w;
    if b < used {
        let end = at + w;
        return spare_word::<Head>(&half[at..end], m, k) as usize;
    }
    half[at] as usize
}

// Where a search among linked states for one of the set begins: at the first of its bucket b, or behind them where there is none, as FirstFrom, by which chains
// are defined, says it. That the state there has the very set is seen sooner than its bucket.
fn first_of(
    half: &[u32],
    heads: &[u32],
    used: usize,
    set: u64,
    b: usize,
    m: usize,
    k: usize,
    index: Index,
) -> usize
    requires { (m ≤ most_cores) × (k ≤ most_jobs) × Fits m k (length half.now) index × (length heads.now ≡ head_room) × Spared m k half.now used
        × (used ≤ index.linked) × (b ≡ bucket_of index.buckets set) × Linked m k index half.now heads.now used }
    ensures { FirstFrom used (bucket_at index.buckets m k half.now) b 0 result }
{
    if used == 0 {
        return used;
    }
    let head = head_at(half, heads, used, b, m, k, index);
    if used <= head {
        return used;
    }
    let w = state_words(m, k);
    let at = head * w;
    let end = at + w;
    let found = started_set(&half[at..end]);
    if found == set {
        return head;
    }
    if bucket_of(found, index.buckets) != b {
        return used;
    }
    head
}

// The next linked state of the bucket of state j, or so many as there are, as `leads` says it. A link that does not lead on is that of the bucket's last.
fn next_of(half: &[u32], used: usize, j: usize, m: usize, k: usize) -> usize
    requires { (m ≤ most_cores) × (k ≤ most_jobs) × (j * state_words m k + state_words m k ≤ length half.now) × (spare_of (set_of (slot_of m k half.now j)) < k) }
    ensures { result ≡ leads used j (link_of m k (slot_of m k half.now j)) }
{
    let w = state_words(m, k);
    let at = j * w;
    let end = at + w;
    let link = spare_word::<Link>(&half[at..end], m, k) as usize;
    if link <= j {
        return used;
    }
    link
}

// Looks among the linked states of the new one's bucket, in stored order, for one that can merge with it.
fn follow_links(
    half: &[u32],
    heads: &[u32],
    used: usize,
    new: &[u32],
    m: usize,
    k: usize,
    index: Index,
) -> Search
    requires m_le_most_cores { (m ≤ most_cores) × (k ≤ most_jobs) × Fits m k (length half.now) index × (length heads.now ≡ head_room) × Spared m k half.now used
        × (used ≤ index.linked) × Linked m k index half.now heads.now used }
    requires k_in_bounds { (state_words m k ≤ length new.now) × SetsFit m k half.now used × (set_of new.now < 2 ^ k) }
    ensures { Searched m k index half.now used new.now result }
{
    let w = state_words(m, k);
    let set = started_set(new);
    let bucket = bucket_of(set, index.buckets);
    let mut last = None;
    let mut j = first_of(half, heads, used, set, bucket, m, k, index);
    while j < used {
        let at = j * w;
        let end = at + w;
        if can_merge(&half[at..end], new, m, k) {
            return Search {
                bucket,
                merging: Some(j),
                last,
            };
        }
        last = Some(j);
        j = next_of(half, used, j, m, k);
    }
    Search {
        bucket,
        merging: None,
        last,
    }
}

// The first of n stored states, from state `from` on, in which just the jobs of the set have started.
fn next_of_set(half: &[u32], n: usize, from: usize, set: u64, m: usize, k: usize) -> Option<usize>
    requires { (m ≤ most_cores) × (k ≤ most_jobs) × (n * state_words m k ≤ length half.now) × (from ≤ n) }
    ensures { FoundOfSet m k half.now n from set result }
{
    let w = state_words(m, k);
    for j in from..n {
        let at = j * w;
        let end = at + w;
        if started_set(&half[at..end]) == set {
            return Some(j);
        }
    }
    None
}

// The first of n stored states that can merge with the new one, past those that are linked: none before state `from` can. Only those that have its set are
// compared further.
fn find_merging(
    half: &[u32],
    n: usize,
    mut from: usize,
    new: &[u32],
    m: usize,
    k: usize,
) -> Option<usize>
    requires { (m ≤ most_cores) × (k ≤ most_jobs) × (n * state_words m k ≤ length half.now) × (state_words m k ≤ length new.now)
        × SetsFit m k half.now n × (set_of new.now < 2 ^ k) × (from ≤ n) × NoneMerges m k half.now new.now from }
    ensures { FoundMerging m k half.now n new.now result }
{
    let w = state_words(m, k);
    let set = started_set(new);
    while let Some(j) = next_of_set(half, n, from, set, m, k) {
        let at = j * w;
        let end = at + w;
        if can_merge(&half[at..end], new, m, k) {
            return Some(j);
        }
        from = j + 1;
    }
    None
}

// Merges the new state into stored state j, which is not linked.
fn merge_at(half: &mut [u32], j: usize, new: &[u32], m: usize, k: usize)
    requires { (m ≤ most_cores) × (k ≤ most_jobs) × (j * state_words m k + state_words m k ≤ length half.old) × (state_words m k ≤ length new.now)
        × (set_of (slot_of m k half.old j) ≡ set_of new.now) }
    ensures { MergedAt m k half.old new.now half.new j × OthersKept m k j half.old half.new }
{
    let w = state_words(m, k);
    let at = j * w;
    let end = at + w;
    merge_into(&mut half[at..end], new, m, k);
}

// The same for a linked state: its spare words stay.
fn merge_linked(half: &mut [u32], j: usize, new: &[u32], m: usize, k: usize)
    requires { (m ≤ most_cores) × (k ≤ most_jobs) × (j * state_words m k + state_words m k ≤ length half.old) × (state_words m k ≤ length new.now)
        × (set_of (slot_of m k half.old j) ≡ set_of new.now) × (spare_of (set_of new.now) < k) }
    ensures merged_at { MergedAt m k half.old new.now half.new j × OthersKept m k j half.old half.new }
    ensures spare_kept { SpareKept m k half.old half.new j }
{
    let w = state_words(m, k);
    let at = j * w;
    let end = at + w;
    let link = spare_word::<Link>(&half[at..end], m, k);
    let head = spare_word::<Head>(&half[at..end], m, k);
    merge_into(&mut half[at..end], new, m, k);
    write_spare_word::<Link>(&mut half[at..end], m, k, link);
    write_spare_word::<Head>(&mut half[at..end], m, k, head);
}

// Stores the new state in slot j.
fn put_at(half: &mut [u32], j: usize, new: &[u32], m: usize, k: usize)
    requires { (m ≤ most_cores) × (k ≤ most_jobs) × (j * state_words m k + state_words m k ≤ length half.old) × (state_words m k ≤ length new.now) }
    ensures { Put m k new.now half.new j × OthersKept m k j half.old half.new }
{
    let w = state_words(m, k);
    let at = j * w;
    let end = at + w;
    load_state(&mut half[at..end], new, m, k);
}

// Stores the new state in slot j with a link that leads nowhere. The head that stood in the free slot moves into its spare words.
fn put_linked(half: &mut [u32], j: usize, new: &[u32], m: usize, k: usize)
    requires { (m ≤ most_cores) × (k ≤ most_jobs) × (j * state_words m k + state_words m k ≤ length half.old) × (state_words m k ≤ length new.now)
        × (spare_of (set_of new.now) < k) }
    ensures put { Put m k new.now half.new j × OthersKept m k j half.old half.new }
    ensures j_after { (link_of m k (slot_of m k half.new j) ≡ 0)
        × (head_of m k (slot_of m k half.new j) ≡ get_or half.old (j * state_words m k) 0) }
{
    let w = state_words(m, k);
    let at = j * w;
    let end = at + w;
    let head = half[at];
    put_at(half, j, new, m, k);
    write_spare_word::<Link>(&mut half[at..end], m, k, 0);
    write_spare_word::<Head>(&mut half[at..end], m, k, head);
}

// Links state j to state n.
fn link_at(half: &mut [u32], j: usize, n: usize, m: usize, k: usize)
    requires { (m ≤ most_cores) × (k ≤ most_jobs) × (j * state_words m k + state_words m k ≤ length half.old) × (spare_of (set_of (slot_of m k half.old j)) < k)
        × (n ≤ last_slot) }
    ensures kept_at { KeptAt m k half.old half.new j × OthersKept m k j half.old half.new }
    ensures j_after { (link_of m k (slot_of m k half.new j) ≡ n)
        × (head_of m k (slot_of m k half.new j) ≡ head_of m k (slot_of m k half.old j)) }
{
    let w = state_words(m, k);
    let at = j * w;
    let end = at + w;
    write_spare_word::<Link>(&mut half[at..end], m, k, n as u32);
}

// Writes the head of bucket b, where so many slots have linked states.
fn write_head_at(
    half: &mut [u32],
    heads: &mut [u32],
    used: usize,
    b: usize,
    head: usize,
    m: usize,
    k: usize,
    index: Index,
)
    requires { (m ≤ most_cores) × (k ≤ most_jobs) × Fits m k (length half.old) index × (length heads.old ≡ head_room) × Spared m k half.old used
        × (used ≤ index.linked) × (b < index.buckets) × (head ≤ last_slot) }
    ensures b_after { (head_at m k index half.new heads.new used b ≡ head)
        × ((c : ℕ) → c < index.buckets → (c ≡ b → ⊥)
        → head_at m k index half.new heads.new used c ≡ head_at m k index half.old heads.old used c) }
    ensures by_index { (j : ℕ) → j < used → KeptAt m k half.old half.new j
        × (link_of m k (slot_of m k half.new j) ≡ link_of m k (slot_of m k half.old j)) }
{
    if index.buckets <= HEAD_ROOM {
        heads[b] = head as u32;
        return;
    }
    let w = state_words(m, k);
    let at = b * w;
    if b < used {
        let end = at + w;
        write_spare_word::<Head>(&mut half[at..end], m, k, head as u32);
        return;
    }
    half[at] = head as u32;
}

// Stores the new state in slot n, and links the last state of its bucket to it; where there is none, the new one is the bucket's head.
fn append_linked(
    half: &mut [u32],
    heads: &mut [u32],
    n: usize,
    new: &[u32],
    found: Search,
    m: usize,
    k: usize,
    index: Index,
)
    requires m_le_most_cores { (m ≤ most_cores) × (k ≤ most_jobs) × Fits m k (length half.old) index × (n < index.linked) × Indexed m k index half.old heads.old n }
    requires k_in_bounds { (state_words m k ≤ length new.now) × (spare_of (set_of new.now) < k) × (found.bucket ≡ bucket_of index.buckets (set_of new.now))
        × LastBefore n (bucket_at index.buckets m k half.old) found.bucket n found.last }
    ensures put { Put m k new.now half.new n × ((j : ℕ) → j < n → KeptAt m k half.old half.new j) }
    ensures indexed { Indexed m k index half.new heads.new (n + 1) }
{
    put_linked(half, n, new, m, k);
    match found.last {
        Some(last) => link_at(half, last, n, m, k),
        None => write_head_at(half, heads, n + 1, found.bucket, n, m, k, index),
    }
}

// Merges the new state with the first of n stored ones with which it can, or stores it last. Returns how many states the half then holds, or `None` where the
// room for cap states does not do.
pub fn store_state(
    half: &mut [u32],
    heads: &mut [u32],
    n: usize,
    cap: usize,
    new: &[u32],
    m: usize,
    k: usize,
    index: Index,
) -> Option<usize>
    requires m_le_most_cores { (m ≤ most_cores) × (k ≤ most_jobs) × (cap * state_words m k ≤ length half.old) × (n ≤ cap) × (state_words m k ≤ length new.now)
        × SetsFit m k half.old n × (set_of new.now < 2 ^ k) }
    requires fits { Fits m k (length half.old) index × Indexed m k index half.old heads.old n × (0 < index.linked → spare_of (set_of new.now) < k) }
    ensures half_after { (seen : List Range) (c : ℕ) → level_of m k (state_of m k new.now) seen c result half.new
        ≡ limited cap (state_of m k new.now) (stored (state_of m k new.now) (states_of m k half.old n)) seen c }
    ensures sound_at { (js : List Job) → AllSound js m k half.old n → Sound js m k new.now
        → SoundAt js m k cap result half.new }
    ensures indexed_at { IndexedAt m k index result half.new heads.new }
{
    let used = used_of(n, index);
    let found = follow_links(half, heads, used, new, m, k, index);
    if let Some(j) = found.merging {
        merge_linked(half, j, new, m, k);
        return Some(n);
    }
    if let Some(j) = find_merging(half, n, used, new, m, k) {
        merge_at(half, j, new, m, k);
        return Some(n);
    }
    if cap <= n {
        return None;
    }
    if n < index.linked {
        append_linked(half, heads, n, new, found, m, k, index);
    } else {
        put_at(half, n, new, m, k);
    }
    Some(n + 1)
}
