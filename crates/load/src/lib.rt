// Load control: insert, decision and split in one call. All is judged before anything is written.
#![tactic(auto)]

ghost use Rattle.std.specs.Prelude.{◌≡◌, true, ◌+◌, ◌*◌, ◌≤◌, ◌<◌, length};
ghost use Rattle.address.specs.Limits.{first_buckets, most_buckets, most_slots};
ghost use Rattle.address.specs.Load.{percent};
ghost use Rattle.address.specs.Room.{ImageRoom};
ghost use Rattle.address.specs.Rules.{splitting, newborn};
ghost use Rattle.layout.specs.Replies.Refused.{given, number as number_of};
ghost use Rattle.bucket.specs.Region.{count_of};
ghost use Rattle.client.specs.Table.{image_of, record_sound, with_image};
ghost use Rattle.file.specs.File.{buckets_of, most_of, region_of, bucket_sound_in, divided};
ghost use Rattle.file.specs.declared.fault.Fault.TheVariants.{Plain};
ghost use Rattle.route.specs.Way.{noted, first_met, adjusted_by};
ghost use Rattle.route.specs.Way.Reach.{AtOwn};
ghost use Rattle.answer.specs.Answer.{block, no_payload};
ghost use Rattle.ride.specs.Call.{placed};
ghost use Rattle.load.specs.Load.{number, decision, leaving, decided, controlled, insert_split};
ghost use Rattle.ride.specs.Call.Own.{refusal_at};
ghost use Rattle.load.specs.Load.Own.{Kept, Divisible};
ghost use Rattle.load.specs.Load.Regions.{Sound, regions_of, regions_for, Roomy};

use answer::BLOCK;
use bucket::PAYLOAD;
use file::{Fault, Headed, Header};
use growth::Divided;
use layout::Refused;
use route::{Reached, Stop};

// Whether a split is not due, is done, or is due in a file that has its most buckets.
#[derive(Clone, Copy, Debug, PartialEq, Eq)]
pub enum Control {
    NotDue,
    Done,
    NoRoom,
}

// The number of each case, for C.
impl From<Control> for u32 {
    ghost from_gives = { λ control n. n ≡ number control };

    fn from(control: Control) -> u32 {
        match control {
            Control::NotDue => 0,
            Control::Done => 1,
            Control::NoRoom => 2,
        }
    }
}

// What followed an insert: nothing, a split with its two buckets, or nothing for want of room.
#[derive(Clone, Copy, Debug, PartialEq, Eq)]
pub enum Growth {
    NotNeeded,
    Split(Divided),
    NoSpace,
}

// Writes the block of a call that is refused, with the buckets met by then, and passes the refusal on.
fn refuse(answer: &mut [u8; BLOCK], stop: Stop) -> Fault
    requires { stop.walk.count ≤ 3 }
    ensures { (result ≡ Plain stop.refused)
        × (answer.new ≡ block (number_of stop.refused) (noted stop.walk) 0 no_payload) }
{
    Fault::Plain(ride::refuse(answer, stop))
}

// What an insert that leaves a count in a bucket makes due.
fn decide(header: Header, bucket: u32, count: u32, threshold: u64) -> Control
    requires { ImageRoom first_buckets header.state × (threshold ≤ percent) }
    ensures { result ≡ decision header.state header.capacity header.most bucket count threshold }
{
    if count <= header.capacity {
        return Control::NotDue;
    }
    if !header.state.due(
        address::FIRST_BUCKETS,
        header.capacity,
        bucket,
        count,
        threshold,
    ) {
        return Control::NotDue;
    }
    if header.most <= header.state.buckets(address::FIRST_BUCKETS) {
        return Control::NoRoom;
    }
    Control::Done
}

// Whether the bucket that a split divides is sound; the key's own bucket is known to be.
fn old_sound(headed: &Headed, own: u32, old: u32) -> bool
    requires { (old < buckets_of headed.now.file.now) × (bucket_sound_in headed.now.file.now own ≡ true) }
    ensures { result ≡ bucket_sound_in headed.now.file.now old }
{
    if old == own {
        return true;
    }
    headed.bucket_sound(old)
}

// Judges the regions of a split: the bucket to be divided, then the region of the new one; the first that is unsound is
// the error.
fn judge_regions(headed: &Headed, own: u32) -> Result<(), u32>
    requires { (buckets_of headed.now.file.now < most_of headed.now.file.now)
        × (bucket_sound_in headed.now.file.now own ≡ true) }
    ensures { result ≡ regions_of headed.now.file.now }
{
    let old = headed.header.state.splitting();
    if !old_sound(headed, own, old) {
        return Err(old);
    }
    let new = headed.header.state.newborn(address::FIRST_BUCKETS);
    if !headed.region_zero(new) {
        return Err(new);
    }
    Ok(())
}

// The regions of what is decided: those of a split that is to be done, else none to judge.
fn judge_plan(headed: &Headed, own: u32, control: Control) -> Result<(), u32>
    requires { Roomy headed.now.file.now control × (bucket_sound_in headed.now.file.now own ≡ true) }
    ensures { result ≡ regions_for headed.now.file.now control }
{
    match control {
        Control::Done => judge_regions(headed, own),
        Control::NotDue => Ok(()),
        Control::NoRoom => Ok(()),
    }
}

// Writes what an accepted insert writes, and keeps of the file what its split needs.
fn place(
    file: &mut [u8],
    table: &mut [u8],
    client: u64,
    key: u64,
    payload: &[u8; PAYLOAD],
    answer: &mut [u8; BLOCK],
    reached: Reached,
    count: usize,
)
    requires { AtOwn file.old table.old client key reached.header reached.image reached.walk reached.bucket
        reached.place
        × (count ≡ count_of (region_of file.old reached.bucket))
        × (refusal_at reached.place count reached.header.slots ≡ 0) }
    ensures { (record { answer = 0; block = answer.new; table = table.new; file = file.new }
        ≡ placed file.old table.old client key payload.now)
        × Kept file.old file.new reached.header }
{
    ride::place(file, table, client, key, payload, answer, reached, count);
}

// Divides bucket n of a file for which all is judged: its two buckets.
fn divide(file: &mut [u8], header: Header) -> Divided
    requires { Divisible file.old header }
    ensures { (result.old ≡ splitting header.state) × (result.new ≡ newborn first_buckets header.state)
        × (file.new ≡ divided file.old) }
{
    let old = header.state.splitting();
    let new = header.state.newborn(address::FIRST_BUCKETS);
    growth::divide(file, header, old, new);
    Divided { old, new }
}

// Writes what is decided and judged: the insert, and then the split if it is to be done.
fn commit(
    file: &mut [u8],
    table: &mut [u8],
    client: u64,
    key: u64,
    payload: &[u8; PAYLOAD],
    answer: &mut [u8; BLOCK],
    reached: Reached,
    count: usize,
    control: Control,
) -> Result<Growth, Fault>
    requires { AtOwn file.old table.old client key reached.header reached.image reached.walk reached.bucket
        reached.place
        × (count ≡ count_of (region_of file.old reached.bucket))
        × (refusal_at reached.place count reached.header.slots ≡ 0) × Roomy file.old control
        × (regions_for file.old control ≡ Sound) }
    ensures { leaving result answer.new table.new file.new
        ≡ decided file.old table.old client key
        (placed file.old table.old client key payload.now) control }
{
    place(file, table, client, key, payload, answer, reached, count);
    match control {
        Control::Done => Ok(Growth::Split(divide(file, reached.header))),
        Control::NotDue => Ok(Growth::NotNeeded),
        Control::NoRoom => Ok(Growth::NoSpace),
    }
}

// An insert that is accepted at the key's own bucket: 7 of the split, or what is decided is done.
fn accept(
    file: &mut [u8],
    table: &mut [u8],
    client: u64,
    key: u64,
    payload: &[u8; PAYLOAD],
    threshold: u64,
    answer: &mut [u8; BLOCK],
    reached: Reached,
    count: usize,
) -> Result<Growth, Fault>
    requires { (threshold ≤ percent) × AtOwn file.old table.old client key reached.header reached.image reached.walk
        reached.bucket reached.place
        × (count ≡ count_of (region_of file.old reached.bucket)) × (count ≤ most_slots)
        × (refusal_at reached.place count reached.header.slots ≡ 0) }
    ensures { leaving result answer.new table.new file.new
        ≡ controlled file.old table.old client key threshold
        (placed file.old table.old client key payload.now) }
{
    let header = reached.header;
    let control = decide(header, reached.bucket, (count + 1) as u32, threshold);
    match judge_plan(&Headed { file, header }, reached.bucket, control) {
        Ok(()) => commit(
            file, table, client, key, payload, answer, reached, count, control,
        ),
        Err(number) => {
            let refused = Refused::Bucket;
            let walk = reached.walk;
            refuse(answer, Stop { refused, walk });
            Err(Fault::Region(number))
        }
    }
}

// At the key's own bucket: 8, 9, or what an accepted insert comes to.
fn finish(
    file: &mut [u8],
    table: &mut [u8],
    client: u64,
    key: u64,
    payload: &[u8; PAYLOAD],
    threshold: u64,
    answer: &mut [u8; BLOCK],
    reached: Reached,
) -> Result<Growth, Fault>
    requires { (threshold ≤ percent) × AtOwn file.old table.old client key reached.header reached.image reached.walk
        reached.bucket reached.place }
    ensures { leaving result answer.new table.new file.new
        ≡ controlled file.old table.old client key threshold
        (placed file.old table.old client key payload.now) }
{
    let header = reached.header;
    let headed = Headed { file, header };
    let count = headed.held_in(reached.bucket);
    match ride::insert_refusal(reached.place, count, header.slots) {
        Ok(()) => accept(
            file, table, client, key, payload, threshold, answer, reached, count,
        ),
        Err(refused) => Err(Fault::Plain(ride::turn_away(table, client, answer, reached, refused))),
    }
}

// Inserts a ride through a client, and splits where its bucket's count makes that due: 14, 15, 2 to 6, 7, 8, 9, 7 of
// the split, else what followed.
pub fn insert_split(
    file: &mut [u8],
    table: &mut [u8],
    client: u64,
    key: u64,
    payload: &[u8],
    threshold: u64,
    answer: &mut [u8],
) -> Result<Growth, Fault>
    ensures { leaving result answer.new table.new file.new
        ≡ insert_split file.old table.old client key payload.now threshold
        answer.old }
{
    let Some(payload) = payload.as_array() else {
        return Err(Fault::Plain(Refused::Lengths));
    };
    let Some(answer) = answer.as_mut_array() else {
        return Err(Fault::Plain(Refused::Lengths));
    };
    let ranged = (1 <= threshold) & (threshold <= address::PERCENT);
    if !ranged {
        let refused = Refused::Threshold;
        let walk = route::no_walk();
        return Err(refuse(answer, Stop { refused, walk }));
    }
    match route::reach(file, table, client, key) {
        Ok(reached) => finish(
            file, table, client, key, payload, threshold, answer, reached,
        ),
        Err(stop) => Err(refuse(answer, stop)),
    }
}
