// The split: bucket n is divided with a new bucket, and the file's state grows.
#![tactic(auto)]

ghost use Rattle.std.specs.Prelude.{◌≡◌, true, ◌≤◌, ◌<◌, length};
ghost use Rattle.address.specs.Limits.{first_buckets};
ghost use Rattle.address.specs.Rules.{splitting, newborn};
ghost use Rattle.file.specs.File.{divided, split, buckets_of, most_of, with_state, bucket_sound_in};
ghost use Rattle.file.specs.File.Judge.{Known};
ghost use Rattle.growth.specs.Split.{answer_of, leaving};

use address::{Home, Image};
use file::{Fault, Headed, Header};
use layout::Refused;

// The buckets of a split: the one that was divided, and the one that was born.
#[derive(Clone, Copy, Debug, PartialEq, Eq)]
pub struct Divided {
    pub old: u32,
    pub new: u32,
}

// A split's reply for C, the old bucket and the new; with 7 the unsound one.
#[repr(C)]
#[derive(Clone, Copy, Debug, PartialEq, Eq)]
pub struct SplitAnswer {
    pub reply: u32,
    pub old_bucket: u32,
    pub new_bucket: u32,
}

impl From<Result<Divided, Fault>> for SplitAnswer {
    ghost from_gives = { λ done answer. answer ≡ answer_of done };

    fn from(done: Result<Divided, Fault>) -> SplitAnswer {
        match done {
            Ok(divided) => SplitAnswer {
                reply: 0,
                old_bucket: divided.old,
                new_bucket: divided.new,
            },
            Err(fault) => SplitAnswer {
                reply: fault.number(),
                old_bucket: fault.region(),
                new_bucket: address::NO_BUCKET,
            },
        }
    }
}

// Writes the state of a file's header.
fn put_state(file: &mut [u8], state: Image)
    requires { (16 ≤ length file.old) × (state.level < 256) × (state.pointer < 65536) }
    ensures { file.new ≡ with_state file.old state }
{
    let level = [state.level as u8];
    layout::put(file, 2, &level);
    layout::write::<2>(file, 4, u64::from(state.pointer));
}

// Divides bucket n of a file with the new bucket, and lets the state grow.
pub fn divide(file: &mut [u8], header: Header, old: u32, new: u32)
    requires { Known file.old header × (buckets_of file.old < most_of file.old)
        × (old ≡ splitting header.state) × (new ≡ newborn first_buckets header.state)
        × (bucket_sound_in file.old old ≡ true) }
    ensures { file.new ≡ divided file.old }
{
    let slots = header.slots;
    let state = header.state;
    let from = file::start(slots, old);
    let to = file::start(slots, new);
    let home = Home {
        first: address::FIRST_BUCKETS,
        bucket: old,
        level: state.level + 1,
    };
    division::divide(file, from, to, slots, home);
    put_state(file, state.grown(address::FIRST_BUCKETS));
}

// Splits a sound bucket n of a file with room for one more: 7, or both buckets' numbers.
fn split_into(file: &mut [u8], header: Header, old: u32, new: u32) -> Result<Divided, Fault>
    requires { Known file.old header × (buckets_of file.old < most_of file.old)
        × (old ≡ splitting header.state) × (new ≡ newborn first_buckets header.state)
        × (bucket_sound_in file.old old ≡ true) }
    ensures { leaving result file.new ≡ split file.old }
{
    let headed = Headed { file, header };
    if !headed.region_zero(new) {
        return Err(Fault::Region(new));
    }
    divide(file, header, old, new);
    Ok(Divided { old, new })
}

// Splits bucket n of a file with room for one more: 7, or both buckets' numbers.
fn split_bucket(file: &mut [u8], header: Header) -> Result<Divided, Fault>
    requires { Known file.old header × (buckets_of file.old < most_of file.old) }
    ensures { leaving result file.new ≡ split file.old }
{
    let old = header.state.splitting();
    let headed = Headed { file, header };
    if !headed.bucket_sound(old) {
        return Err(Fault::Region(old));
    }
    let new = header.state.newborn(address::FIRST_BUCKETS);
    split_into(file, header, old, new)
}

// Splits bucket n: 5, 10, 7, or both buckets' numbers.
pub fn split(file: &mut [u8]) -> Result<Divided, Fault>
    ensures { leaving result file.new ≡ split file.old }
{
    let Some(header) = file::header_of(file) else {
        return Err(Fault::Plain(Refused::Header));
    };
    if header.most <= header.state.buckets(address::FIRST_BUCKETS) {
        return Err(Fault::Plain(Refused::NoRoom));
    }
    split_bucket(file, header)
}
