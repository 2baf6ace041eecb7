// The address rules of LH*: where a key belongs, where a bucket sends it on, what a client learns, and
// how the file grows. Numbers only; `specs/Rules.antt` has each rule as a definition.
#![tactic(auto)]

ghost use Rattle.std.specs.Prelude.{◌≡◌, ◌-◌, ◌≤◌, ◌<◌, cond, ltb, Some, None};
ghost use Rattle.address.specs.Limits.{first_buckets};
ghost use Rattle.address.specs.Load.{percent, factor, due};
ghost use Rattle.address.specs.Room.{widest, Room, ImageRoom};
ghost use Rattle.address.specs.Rules.{span, hash, buckets, address, level, keeps, onward, fate, wrapped, adjusted};
ghost use Rattle.address.specs.Rules.{child, splitting, newborn, grown, parent};

// A level and a pointer: the file's own state (i, n), or the image of it that a client has.
#[derive(Clone, Copy, Debug, PartialEq, Eq)]
pub struct Image {
    pub level: u32,
    pub pointer: u32,
}

// A bucket by what decides which keys are its own: its number, its level and how many buckets a file starts with.
#[derive(Clone, Copy, Debug, PartialEq, Eq)]
pub struct Home {
    pub first: u32,
    pub bucket: u32,
    pub level: u32,
    ghost room: { Room first level },
}

// What a key meets at a bucket: kept there, sent on to a numbered bucket, or stopped because that
// bucket is unsound.
#[derive(Clone, Copy, Debug, PartialEq, Eq)]
pub enum Fate {
    Keep,
    SendOn(u32),
    Unsound,
}

// The answer "none" where a bucket's number is asked.
pub const NO_BUCKET: u32 = 65535;

// The number of first buckets of every file.
pub const FIRST_BUCKETS: u32 = 1;

// The highest level that a client's image or a file may have.
pub const MOST_LEVEL: u32 = 12;

// The most buckets of a file, the most slots of a bucket, and the greatest length of a client table.
pub const MOST_BUCKETS: u32 = 4096;

pub const MOST_SLOTS: usize = 64;

pub const MOST_TABLE: usize = 2048;

// The whole, in percent: the highest threshold of load control.
pub const PERCENT: u64 = 100;

// `first` buckets doubled `level` times: 2^level where a file starts with one bucket.
pub fn span(first: u32, level: u32) -> u32
    requires { Room first level }
    ensures { (result ≡ span first level) × (0 < result) × (result ≤ widest) }
{
    first << level
}

// h_level of a key.
pub fn hash(first: u32, level: u32, key: u64) -> u32
    requires { Room first level }
    ensures { (result ≡ hash first level key) × (result < widest) }
{
    if first == 1 {
        return (key % (1u64 << level)) as u32;
    }
    (key % u64::from(span(first, level))) as u32
}

impl Home {
    // Whether a key belongs.
    pub fn keeps(self, key: u64) -> bool
        ensures { result ≡ keeps self.first self.bucket self.level key }
    {
        hash(self.first, self.level, key) == self.bucket
    }
}

// Where a bucket sends a key that it does not keep.
fn onward(first: u32, bucket: u32, level: u32, key: u64) -> u32
    requires { Room first level }
    ensures { result ≡ onward first bucket level key }
{
    let far = hash(first, level, key);
    let near = hash(first, level.saturating_sub(1), key);
    if bucket < near && near < far {
        return near;
    }
    far
}

// What a key meets at a bucket.
pub fn fate_at(first: u32, sound: bool, bucket: u32, level: u32, key: u64) -> Fate
    requires { Room first level }
    ensures { result ≡ fate first sound bucket level key }
{
    if !sound {
        return Fate::Unsound;
    }
    if hash(first, level, key) == bucket {
        return Fate::Keep;
    }
    Fate::SendOn(onward(first, bucket, level, key))
}

// A level and a pointer, but the next level and 0 where the pointer has reached the span.
fn wrapped(first: u32, level: u32, pointer: u32) -> Image
    requires { Room first level }
    ensures { result ≡ wrapped first level pointer }
{
    if pointer < span(first, level) {
        return Image { level, pointer };
    }
    Image {
        level: level + 1,
        pointer: 0,
    }
}

// The bucket born of a bucket as its level went one up from `level`.
pub fn child(first: u32, bucket: u32, level: u32) -> u32
    requires { Room first level × (bucket ≤ widest) }
    ensures { result ≡ child first bucket level }
{
    bucket + span(first, level)
}

impl Image {
    // How many buckets there are in an image.
    pub fn buckets(self, first: u32) -> u32
        requires { ImageRoom first self }
        ensures { result ≡ buckets first self }
    {
        span(first, self.level) + self.pointer
    }

    // The bucket that an image gives a key.
    pub fn address(self, first: u32, key: u64) -> u32
        requires { ImageRoom first self }
        ensures { result ≡ address first self key }
    {
        let low = hash(first, self.level, key);
        if low < self.pointer {
            return hash(first, self.level + 1, key);
        }
        low
    }

    // The level that a bucket has in an image: a bucket's own, or the message level of a scan.
    pub fn level_of(self, first: u32, bucket: u32) -> u32
        requires { ImageRoom first self }
        ensures { result ≡ level first self bucket }
    {
        if bucket < self.pointer || span(first, self.level) <= bucket {
            return self.level + 1;
        }
        self.level
    }

    // A client's image after its first bucket, of the level given, did or did not keep the key.
    pub fn adjusted(self, first: u32, bucket: u32, level: u32, kept: bool) -> Image
        requires { Room first level × (bucket ≤ widest) }
        ensures { result ≡ adjusted first self bucket level kept }
    {
        if !kept && self.level < level {
            return wrapped(first, level - 1, bucket + 1);
        }
        self
    }

    // The bucket that the next split divides.
    pub fn splitting(self) -> u32
        ensures { result ≡ splitting self }
    {
        self.pointer
    }

    // The bucket that the next split makes.
    pub fn newborn(self, first: u32) -> u32
        requires { ImageRoom first self }
        ensures { result ≡ newborn first self }
    {
        child(first, self.pointer, self.level)
    }

    // The state after a split.
    pub fn grown(self, first: u32) -> Image
        requires { ImageRoom first self }
        ensures { result ≡ grown first self }
    {
        wrapped(first, self.level, self.pointer + 1)
    }

    // What load control multiplies a bucket's count by: 2 where the bucket's level is one up from the file's, else 1.
    fn factor(self, first: u32, bucket: u32) -> u64
        requires { ImageRoom first self }
        ensures { (result ≡ factor first self bucket) × (result ≤ 2) }
    {
        if self.level_of(first, bucket) == self.level {
            return 1;
        }
        2
    }

    // Whether the count of a bucket makes a split due, by a threshold in percent.
    pub fn due(self, first: u32, capacity: u32, bucket: u32, count: u32, threshold: u64) -> bool
        requires { ImageRoom first self × (threshold ≤ percent) }
        ensures { result ≡ due first self capacity bucket count threshold }
    {
        let span = u64::from(span(first, self.level));
        let buckets = u64::from(self.buckets(first));
        let factor = self.factor(first, bucket);
        let capacity = u64::from(capacity);
        let count = u64::from(count);
        threshold * capacity * buckets < PERCENT * span * count * factor
    }
}

// The bucket of whose split this one, not a first one, was born, by the leading zeros of its number.
pub fn born_of(bucket: u32) -> u32
    requires { 0 < bucket }
    ensures { (result ≡ parent first_buckets bucket) × (result < bucket) }
{
    bucket - (1 << (31 - bucket.leading_zeros()))
}

// The bucket of whose split this one was born, and none for a first one.
pub fn parent(bucket: u16) -> Option<u32>
    ensures { result ≡ cond (ltb bucket first_buckets) None (Some (parent first_buckets bucket)) }
{
    if bucket == 0 {
        return None;
    }
    Some(born_of(u32::from(bucket)))
}
