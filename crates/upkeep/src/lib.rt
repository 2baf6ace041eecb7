// The calls on a whole file but the split: create, check and view.
#![tactic(auto)]

ghost use Rattle.std.specs.Prelude.{◌≡◌, true, ◌≤◌, ◌<◌, length, IfSome, IfNone};
ghost use Rattle.address.specs.Rules.{«at»};
ghost use Rattle.layout.specs.Bytes.{edit};
ghost use Rattle.layout.specs.Replies.Refused.{given};
ghost use Rattle.file.specs.File.{Checked, Created, buckets_of, bucket_sound_in, region_sound};
ghost use Rattle.file.specs.File.{lowest_unsound, check, view};
ghost use Rattle.file.specs.File.{header_bytes, created, create};
ghost use Rattle.file.specs.File.Judge.{Figures};
ghost use Rattle.upkeep.specs.Check.{checked};

use file::{Fault, Headed};
use layout::Refused;

// A check's reply for C, and the lowest unsound region with 7.
#[repr(C)]
#[derive(Clone, Copy, Debug, PartialEq, Eq)]
pub struct CheckAnswer {
    pub reply: u32,
    pub bucket: u32,
}

impl From<Result<(), Fault>> for CheckAnswer {
    ghost from_gives = { λ done answer. record { answer = answer.reply; bucket = answer.bucket } ≡ checked done };

    fn from(done: Result<(), Fault>) -> CheckAnswer {
        match done {
            Ok(()) => CheckAnswer {
                reply: 0,
                bucket: address::NO_BUCKET,
            },
            Err(fault) => CheckAnswer {
                reply: fault.number(),
                bucket: fault.region(),
            },
        }
    }
}

// Whether a region of a file is sound, a bucket's or one past the last bucket.
fn region_sound(headed: &Headed, region: u32) -> bool
    requires { region < headed.now.header.most }
    ensures { result ≡ region_sound headed.now.file.now region }
{
    if region < headed.header.state.buckets(address::FIRST_BUCKETS) {
        return headed.bucket_sound(region);
    }
    headed.region_zero(region)
}

// The lowest unsound region, if there is one.
fn lowest_unsound(headed: &Headed) -> Option<u32>
    ensures found { IfSome result (λ region.
        (region ≡ lowest_unsound headed.now.file.now) × (region < headed.now.header.most)) }
    ensures none { IfNone result (headed.now.header.most ≤ lowest_unsound headed.now.file.now) }
{
    for region in 0..headed.header.most {
        if !region_sound(headed, region) {
            return Some(region);
        }
    }
    None
}

// Checks a whole file: 5, 7 with the lowest unsound region, or sound.
pub fn check(file: &[u8]) -> Result<(), Fault>
    ensures { checked result ≡ check file.now }
{
    let Some(header) = file::header_of(file) else {
        return Err(Fault::Plain(Refused::Header));
    };
    match lowest_unsound(&Headed { file, header }) {
        Some(region) => Err(Fault::Region(region)),
        None => Ok(()),
    }
}

// The used slots of a sound bucket, as a part of the file.
fn used_slots<'a>(headed: &Headed<'a>, bucket: u32) -> &'a [u8]
    requires { (bucket < buckets_of headed.now.file.now) × (bucket_sound_in headed.now.file.now bucket ≡ true) }
    ensures { result.now ≡ view headed.now.file.now bucket }
{
    let at = file::start(headed.header.slots, bucket);
    let from = at + 8;
    let to = from + 24 * layout::read::<2>(headed.file, at + 4) as usize;
    &headed.file[from..to]
}

// The used slots of a bucket, as a part of the file; no byte of it if the header is unsound, the number is
// too high or the bucket is unsound.
pub fn view(file: &[u8], bucket: u64) -> &[u8]
    ensures { result.now ≡ view file.now bucket }
{
    let Some(header) = file::header_of(file) else {
        return &file[..0];
    };
    let buckets = header.state.buckets(address::FIRST_BUCKETS);
    if u64::from(buckets) <= bucket {
        return &file[..0];
    }
    let number = bucket as u32;
    let headed = Headed { file, header };
    if !headed.bucket_sound(number) {
        return &file[..0];
    }
    used_slots(&headed, number)
}

// Writes the header of a new file.
fn put_figures(file: &mut [u8], capacity: u64, slots: u64, most: u64)
    requires { (16 ≤ length file.old) × (capacity < 256) × (slots < 256) }
    ensures { file.new
        ≡ edit 0 (header_bytes («at» 0 0) capacity slots most) file.old }
{
    layout::put(file, 0, b"LF");
    let [low, high, ..] = most.to_le_bytes();
    let figures = [
        0,
        capacity as u8,
        0,
        0,
        low,
        high,
        slots as u8,
        0,
        0,
        0,
        0,
        0,
        0,
        0,
    ];
    layout::put(file, 2, &figures);
}

// Writes the sound file in state (0, 0) without records, of figures that fit.
fn put_file(file: &mut [u8], capacity: u64, slots: u64, most: u64)
    requires { Figures (length file.old) capacity slots most }
    ensures { file.new ≡ created capacity slots most }
{
    layout::clear(file);
    put_figures(file, capacity, slots, most);
    let end = 16 + (8 + 24 * slots as usize);
    division::renew(&mut file[16..end], slots as u32, 0);
}

// Makes a new file of figures that fit; others are 13.
pub fn create(file: &mut [u8], capacity: u64, slots: u64, most: u64) -> Result<(), Refused>
    ensures { record { answer = given result; file = file.new } ≡ create file.old capacity slots most }
{
    if !file::figures_fit(file.len() as u64, capacity, slots, most) {
        return Err(Refused::Figures);
    }
    put_file(file, capacity, slots, most);
    Ok(())
}
