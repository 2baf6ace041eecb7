// The scan of one lift: the buckets are judged in number order and their matches counted, then both lists are written,
// in visit order. Only so many matches are noted meanwhile that the memory taken is the same for every file.
#![tactic(auto)]

ghost use Rattle.std.specs.Prelude.{◌≡◌, true, false, ◌+◌, ◌^◌, ◌≤◌, ◌<◌, length, set, IfOk, IfErr};
ghost use Rattle.address.specs.Limits.{first_buckets, no_bucket};
ghost use Rattle.address.specs.Rules.First.{better};
ghost use Rattle.layout.specs.Bytes.{edit};
ghost use Rattle.file.specs.File.{buckets_of, bucket_sound_in};
ghost use Rattle.scan.specs.Scan.{of_lift, keys_in, matches_on, visits_of, first_unsound, answer_of, collected};
ghost use Rattle.scan.specs.Scan.{leaving, scan};
ghost use Rattle.scan.specs.Scan.Bits.{bits_of, selected};
ghost use Rattle.scan.specs.Scan.Notes.{Noted};
ghost use Rattle.scan.specs.Scan.Tally.{AllJudged};
ghost use Rattle.scan.specs.Scan.Unsound.{unsound, Lowest};
ghost use Rattle.scan.specs.Scan.Way.{Starting, Way};

use address::{FIRST_BUCKETS, Image};
use file::{Fault, Headed};
use layout::Refused;

// How many entries each list of a scan got.
#[derive(Clone, Copy, Debug, PartialEq, Eq)]
pub struct Counts {
    pub visits: u32,
    pub matches: u32,
}

// A scan's reply for C, the unsound bucket with 7, and how many entries each list got.
#[repr(C)]
#[derive(Clone, Copy, Debug, PartialEq, Eq)]
pub struct ScanAnswer {
    pub reply: u32,
    pub bucket: u32,
    pub visits: u32,
    pub matches: u32,
}

impl From<Result<Counts, Fault>> for ScanAnswer {
    ghost from_gives = { λ done answer. answer ≡ answer_of done };

    fn from(done: Result<Counts, Fault>) -> ScanAnswer {
        match done {
            Ok(counts) => ScanAnswer {
                reply: 0,
                bucket: address::NO_BUCKET,
                visits: counts.visits,
                matches: counts.matches,
            },
            Err(fault) => ScanAnswer {
                reply: fault.number(),
                bucket: fault.region(),
                visits: 0,
                matches: 0,
            },
        }
    }
}

// How many buckets' matches are noted when they are counted; those of the buckets past them are found again when they
// are written.
const NOTES: usize = 1792;

// As many for a file of few buckets, since they are cleared sooner.
const FEW_NOTES: usize = 64;

// Whether a key is of a lift.
fn of_lift(key: u64, lift: u32) -> bool
    ensures { result ≡ of_lift lift key }
{
    key / 4294967296 == u64::from(lift)
}

// Which keys of a sound bucket are of a lift, a bit for each, the first key's the lowest.
fn match_bits(headed: &Headed, bucket: u32, lift: u32) -> u64
    requires { (bucket < buckets_of headed.now.file.now)
        × (bucket_sound_in headed.now.file.now bucket ≡ true) }
    ensures { result ≡ bits_of lift (keys_in headed.now.file.now bucket) }
{
    let mut bits = 0;
    for k in (0..headed.held_in(bucket)).rev() {
        let matching = of_lift(headed.key_in(bucket, k), lift);
        bits = bits * 2 + u64::from(matching);
    }
    bits
}

// Notes the bits of a bucket's matches, if there is room for them.
fn note(notes: &mut [u64], bucket: u32, bits: u64)
    ensures { notes.new ≡ set notes.old bucket bits }
{
    let place = bucket as usize;
    if notes.len() <= place {
        return;
    }
    notes[place] = bits;
}

// The bits of a bucket's matches: as noted, or found again.
fn bits_of(headed: &Headed, bucket: u32, lift: u32, notes: &[u64]) -> u64
    requires { (bucket < buckets_of headed.now.file.now)
        × Noted headed.now.file.now lift notes.now (buckets_of headed.now.file.now) }
    ensures { result ≡ bits_of lift (keys_in headed.now.file.now bucket) }
{
    let place = bucket as usize;
    if place < notes.len() {
        return notes[place];
    }
    match_bits(headed, bucket, lift)
}

// Judges the buckets in number order up to the first unsound one, which is the error; notes which keys match, and
// counts the matches if all are sound.
fn judge_all(headed: &Headed, lift: u32, notes: &mut [u64]) -> Result<u32, u32>
    ensures sound { IfOk result (λ matches. AllJudged headed.now.file.now lift true no_bucket matches notes.new) }
    ensures unsound { IfErr result (λ lowest. AllJudged headed.now.file.now lift false lowest 0 notes.new) }
{
    let buckets = headed.header.state.buckets(FIRST_BUCKETS);
    let mut matches = 0;
    for bucket in 0..buckets {
        if !headed.bucket_sound(bucket) {
            return Err(bucket);
        }
        let matching = match_bits(headed, bucket, lift);
        note(notes, bucket, matching);
        matches = matches + u64::count_ones(matching);
    }
    Ok(matches)
}

// Of the best bucket so far and the next: the next if it is unsound and visited earlier by a client that believes in so
// many buckets.
fn better(headed: &Headed, believed: u32, best: u32, next: u32) -> u32
    requires { (next < buckets_of headed.now.file.now) × (0 < believed) }
    ensures { result ≡ better first_buckets believed (unsound headed.now.file.now) best next }
{
    if headed.bucket_sound(next) {
        return best;
    }
    if order::earlier(believed, next, best) {
        return next;
    }
    best
}

// The unsound bucket that a scan by a client's image meets first, from the lowest one on.
fn first_unsound(headed: &Headed, image: Image, lowest: u32) -> u32
    requires { Starting headed.now.file.now headed.now.header image × Lowest headed.now.file.now lowest }
    ensures { result ≡ first_unsound headed.now.file.now (visits_of headed.now.file.now image) }
{
    let believed = image.buckets(FIRST_BUCKETS);
    let buckets = headed.header.state.buckets(FIRST_BUCKETS);
    if lowest < believed {
        return lowest;
    }
    let mut best = lowest;
    for next in lowest + 1..buckets {
        best = better(headed, believed, best, next);
    }
    best
}

// Writes the keys of a sound bucket whose bit is set from a place on, and answers the place behind them.
fn put_bucket(headed: &Headed, bucket: u32, bits: u64, matches: &mut [u64], from: usize) -> usize
    requires { (bucket < buckets_of headed.now.file.now) × (bucket_sound_in headed.now.file.now bucket ≡ true)
        × (bits < 2 ^ length (keys_in headed.now.file.now bucket))
        × (from + length (selected bits (keys_in headed.now.file.now bucket)) ≤ length matches.old) }
    ensures { (result ≡ from + length (selected bits (keys_in headed.now.file.now bucket)))
        × (matches.new ≡ edit from (selected bits (keys_in headed.now.file.now bucket)) matches.old) }
{
    let mut left = bits;
    let mut slot = 0;
    let mut filled = from;
    while left != 0 {
        let zeros = u64::trailing_zeros(left);
        let found = slot + zeros as usize;
        matches[filled] = headed.key_in(bucket, found);
        left = (left >> zeros) / 2;
        slot = found + 1;
        filled = filled + 1;
    }
    filled
}

// Writes the matches of a way.
fn put_matches(headed: &Headed, way: &[u16], lift: u32, notes: &[u64], matches: &mut [u64])
    requires { Way headed.now.file.now way.now
        × Noted headed.now.file.now lift notes.now (buckets_of headed.now.file.now)
        × (length (matches_on headed.now.file.now lift way.now) ≤ length matches.old) }
    ensures { matches.new
        ≡ edit 0 (matches_on headed.now.file.now lift way.now) matches.old }
{
    let mut filled = 0;
    for visit in way {
        let bucket = u32::from(*visit);
        let bits = bits_of(headed, bucket, lift, notes);
        filled = put_bucket(headed, bucket, bits, matches, filled);
    }
}

// Writes the visits and the matches of a scan by a client's image, and answers how many visits there are.
fn put_lists(
    headed: &Headed,
    image: Image,
    lift: u32,
    notes: &[u64],
    visits: &mut [u16],
    matches: &mut [u64],
) -> u32
    requires { Starting headed.now.file.now headed.now.header image
        × Noted headed.now.file.now lift notes.now (buckets_of headed.now.file.now)
        × (buckets_of headed.now.file.now ≤ length visits.old)
        × (length (matches_on headed.now.file.now lift (visits_of headed.now.file.now image)) ≤ length matches.old) }
    ensures { (result ≡ length (visits_of headed.now.file.now image))
        × (visits.new ≡ edit 0 (visits_of headed.now.file.now image) visits.old)
        × (matches.new ≡ edit 0 (matches_on headed.now.file.now lift (visits_of headed.now.file.now image))
        matches.old) }
{
    let state = headed.header.state;
    let count = state.buckets(FIRST_BUCKETS);
    order::fill_visits(state, image, visits);
    put_matches(headed, &visits[..count as usize], lift, notes, matches);
    count
}

// The end of a scan in which every bucket is sound: 12, else both lists are written.
fn write_lists(
    headed: &Headed,
    image: Image,
    lift: u32,
    notes: &[u64],
    found: u32,
    visits: &mut [u16],
    matches: &mut [u64],
) -> Result<Counts, Fault>
    requires { Starting headed.now.file.now headed.now.header image
        × AllJudged headed.now.file.now lift true no_bucket found notes.now
        × (buckets_of headed.now.file.now ≤ length visits.old) }
    ensures { leaving (answer_of result) visits.new matches.new
        ≡ collected headed.now.file.now lift (visits_of headed.now.file.now image) visits.old
        matches.old }
{
    if matches.len() < found as usize {
        return Err(Fault::Plain(Refused::Matches));
    }
    let count = put_lists(headed, image, lift, notes, visits, matches);
    Ok(Counts {
        visits: count,
        matches: found,
    })
}

// Scans the buckets by a client's image, with room for notes: 7, 12, else both lists are written. The file comes by
// value: behind a reference the compiler would read its figures again after each write of a list.
fn collect(
    headed: Headed,
    image: Image,
    lift: u32,
    notes: &mut [u64],
    visits: &mut [u16],
    matches: &mut [u64],
) -> Result<Counts, Fault>
    requires { Starting headed.file.now headed.header image × (buckets_of headed.file.now ≤ length visits.old) }
    ensures { leaving (answer_of result) visits.new matches.new
        ≡ collected headed.entry.file.now lift (visits_of headed.entry.file.now image) visits.old
        matches.old }
{
    match judge_all(&headed, lift, notes) {
        Ok(found) => write_lists(&headed, image, lift, notes, found, visits, matches),
        Err(lowest) => Err(Fault::Region(first_unsound(&headed, image, lowest))),
    }
}

// The same with notes of its own, so that a scan that is refused before has none.
fn collect_noting(
    headed: Headed,
    image: Image,
    lift: u32,
    visits: &mut [u16],
    matches: &mut [u64],
) -> Result<Counts, Fault>
    requires { Starting headed.file.now headed.header image × (buckets_of headed.file.now ≤ length visits.old) }
    ensures { leaving (answer_of result) visits.new matches.new
        ≡ collected headed.entry.file.now lift (visits_of headed.entry.file.now image) visits.old
        matches.old }
{
    if headed.header.state.buckets(FIRST_BUCKETS) as usize <= FEW_NOTES {
        let mut few = [0u64; FEW_NOTES];
        return collect(headed, image, lift, &mut few, visits, matches);
    }
    let mut notes = [0u64; NOTES];
    collect(headed, image, lift, &mut notes, visits, matches)
}

// Scans a file for one lift through a client: 2 to 6, 11, 7, 12, else both counts.
pub fn scan(
    file: &[u8],
    table: &[u8],
    client: u64,
    lift: u32,
    visits: &mut [u16],
    matches: &mut [u64],
) -> Result<Counts, Fault>
    ensures { leaving (answer_of result) visits.new matches.new
        ≡ scan file.now table.now client lift visits.old matches.old }
{
    let opened = route::open(file, table, client)?;
    let header = opened.header;
    let image = opened.image;
    if visits.len() < header.state.buckets(FIRST_BUCKETS) as usize {
        return Err(Fault::Plain(Refused::Visits));
    }
    collect_noting(Headed { file, header }, image, lift, visits, matches)
}
