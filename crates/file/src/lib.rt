// The file's header and its buckets: judged, read and filled.
#![tactic(auto)]

mod fault;

ghost use Rattle.std.specs.Prelude.{◌≡◌, true, cond, ◌+◌, ◌≤◌, ◌<◌, length, Some, None};
ghost use Rattle.address.specs.Limits.{most_buckets, most_slots};
ghost use Rattle.layout.specs.Bytes.{all_zero};
ghost use Rattle.bucket.specs.Region.{slot_at, count_of, key_at, slot_of};
ghost use Rattle.file.specs.File.Judge.{Known, FiguresOf};
ghost use Rattle.file.specs.File.Region.{Standing};
ghost use Rattle.file.specs.File.{file_length, figures_fit, state_fits, fixed_bytes, ranges_fit, header_of};
ghost use Rattle.file.specs.File.{most_of, buckets_of, start_of, region_of, bucket_sound_in, with_ride};

use address::Image;
pub use fault::Fault;

// The figures of a file's header.
#[derive(Clone, Copy, Debug, PartialEq, Eq)]
pub struct Header {
    pub state: Image,
    pub capacity: u32,
    pub slots: u32,
    pub most: u32,
}

// A file whose header is sound, lent for reading: its bytes, and the header's figures.
#[derive(Clone, Copy, Debug, PartialEq, Eq)]
pub struct Headed<'a> {
    pub file: &'a [u8],
    pub header: Header,
    pub ghost known: { Known file.now header },
}

// Whether the figures are in range and the length is theirs.
pub fn figures_fit(long: u64, capacity: u64, slots: u64, most: u64) -> bool
    ensures { result ≡ figures_fit long capacity slots most }
{
    let ranged = (1 <= slots)
        & (slots <= address::MOST_SLOTS as u64)
        & (1 <= capacity)
        & (capacity <= slots)
        & (1 <= most)
        & (most <= address::MOST_BUCKETS as u64);
    if !ranged {
        return false;
    }
    long == 16 + most * (8 + 24 * slots)
}

// Whether a state is one of a file of at most `most` buckets.
fn state_fits(state: Image, most: u32) -> bool
    requires { (state.pointer < 65536) × (most ≤ most_buckets) }
    ensures { result ≡ state_fits state most }
{
    if address::MOST_LEVEL < state.level {
        return false;
    }
    let span = address::span(address::FIRST_BUCKETS, state.level);
    let buckets = state.buckets(address::FIRST_BUCKETS);
    (state.pointer < span) & (buckets <= most)
}

// Whether the mark stands in a header, and the zeros: the word from byte 8 on is that byte alone.
fn fixed_bytes(file: &[u8]) -> bool
    requires { 16 ≤ length file.now }
    ensures { result ≡ fixed_bytes file.now }
{
    layout::has_mark(file, 0, b"LF") & (layout::read::<8>(file, 8) < 256)
}

// The figures of a header, as they stand there.
pub fn figures(file: &[u8]) -> Header
    requires { 16 ≤ length file.now }
    ensures { FiguresOf file.now result }
{
    let state = Image {
        level: u32::from(file[2]),
        pointer: layout::read::<2>(file, 4) as u32,
    };
    Header {
        state,
        capacity: u32::from(file[3]),
        slots: u32::from(file[8]),
        most: layout::read::<2>(file, 6) as u32,
    }
}

// Whether a header's figures are in range, the state too, and the length is theirs.
fn ranges_fit(long: u64, header: Header) -> bool
    requires { header.state.pointer < 65536 }
    ensures { result ≡ ranges_fit long header }
{
    let fits = figures_fit(
        long,
        u64::from(header.capacity),
        u64::from(header.slots),
        u64::from(header.most),
    );
    if !fits {
        return false;
    }
    state_fits(header.state, header.most)
}

// Reads a file's header and judges it; of an unsound one nothing is known.
pub fn header_of(file: &[u8]) -> Option<Header>
    ensures { result ≡ header_of file.now }
{
    let long = file.len();
    if long < 16 {
        return None;
    }
    if !fixed_bytes(file) {
        return None;
    }
    let header = figures(file);
    if !ranges_fit(long as u64, header) {
        return None;
    }
    Some(header)
}

// Where a region starts.
pub fn start(slots: u32, bucket: u32) -> usize
    requires { (slots ≤ most_slots) × (bucket ≤ most_buckets) }
    ensures { (result ≡ start_of slots bucket) × (result ≤ file_length most_slots most_buckets) }
{
    16 + bucket as usize * (8 + 24 * slots as usize)
}

// The slot that holds a key in a bucket of a file, the count if none does; None if the bucket is unsound. It takes
// numbers alone and cuts the region out itself: a struct, or a part that is handed back, would go through memory.
pub fn judge_bucket(file: &[u8], slots: u32, bucket: u32, level: u32, key: u64) -> Option<usize>
    requires { Standing file.now slots bucket level }
    ensures { result ≡ cond (bucket_sound_in file.now bucket) (Some (slot_of (region_of file.now bucket) key)) None }
{
    let at = start(slots, bucket);
    let end = at + (8 + 24 * slots as usize);
    bucket::judge(
        &file[at..end],
        slots,
        address::FIRST_BUCKETS,
        bucket,
        level,
        key,
    )
}

impl<'a> Headed<'a> {
    // A region, as a part of the file.
    pub fn region(&self, number: u32) -> &'a [u8]
        requires { number < most_of self.now.file.now }
        ensures { (result.now ≡ region_of self.now.file.now number)
            × (length result.now ≡ slot_at self.now.header.slots) }
    {
        let at = start(self.header.slots, number);
        let end = at + (8 + 24 * self.header.slots as usize);
        &self.file[at..end]
    }

    // Whether a region is all zero.
    pub fn region_zero(&self, number: u32) -> bool
        requires { number < most_of self.now.file.now }
        ensures { result ≡ all_zero (region_of self.now.file.now number) }
    {
        layout::is_zero(self.region(number))
    }

    // Whether a bucket is sound.
    pub fn bucket_sound(&self, bucket: u32) -> bool
        requires { bucket < buckets_of self.now.file.now }
        ensures { result ≡ bucket_sound_in self.now.file.now bucket }
    {
        let level = self.header.state.level_of(address::FIRST_BUCKETS, bucket);
        judge_bucket(self.file, self.header.slots, bucket, level, 0).is_some()
    }

    // How many rides a sound bucket holds.
    pub fn held_in(&self, bucket: u32) -> usize
        requires { (bucket < buckets_of self.now.file.now) × (bucket_sound_in self.now.file.now bucket ≡ true) }
        ensures { (result ≡ count_of (region_of self.now.file.now bucket)) × (result ≤ most_slots) }
    {
        let at = start(self.header.slots, bucket);
        layout::read::<2>(self.file, at + 4) as usize
    }

    // The key in a slot of a sound bucket.
    pub fn key_in(&self, bucket: u32, slot: usize) -> u64
        requires { (bucket < buckets_of self.now.file.now) × (bucket_sound_in self.now.file.now bucket ≡ true)
            × (slot < count_of (region_of self.now.file.now bucket)) }
        ensures { result ≡ key_at (region_of self.now.file.now bucket) slot }
    {
        bucket::key_at(self.region(bucket), slot)
    }
}

// Places a ride in the first free slot of a sound bucket, and answers the count then held.
pub fn place_ride(
    file: &mut [u8],
    header: Header,
    bucket: u32,
    count: usize,
    key: u64,
    payload: &[u8; bucket::PAYLOAD],
) -> usize
    requires { Known file.old header × (bucket < buckets_of file.old) × (bucket_sound_in file.old bucket ≡ true)
        × (count ≡ count_of (region_of file.old bucket)) × (count < header.slots) }
    ensures { (result ≡ count + 1)
        × (file.new ≡ with_ride file.old bucket
        (record { key = key; payload = payload.now })) }
{
    let slots = header.slots;
    let at = start(slots, bucket);
    let end = at + (8 + 24 * slots as usize);
    bucket::place(&mut file[at..end], count, key, payload)
}
