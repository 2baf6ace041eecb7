// One bucket's region: judged, searched, and a ride placed in it.
#![tactic(auto)]

ghost use Rattle.std.specs.Prelude.{◌≡◌, ◌&&◌, cond, ◌+◌, ◌*◌, ◌≤◌, ◌<◌, length, drop, replicate, Some, None};
ghost use Rattle.address.specs.Limits.{most_slots};
ghost use Rattle.address.specs.Room.{Room};
ghost use Rattle.address.specs.Rules.{keeps};
ghost use Rattle.layout.specs.Bytes.{le_bytes, all_zero, edit};
ghost use Rattle.bucket.specs.Region.{slot_at, slot_used, key_at, head_sound, sound_with, slot_of, slot_bytes};
ghost use Rattle.bucket.specs.Region.Single.{fingerprints, fingerprint, latest_of, Chained};
ghost use Rattle.bucket.specs.Region.Single.{first_found, slots_judged, SoughtAt};

use address::Home;

// How many bytes a ride's payload has.
pub const PAYLOAD: usize = 14;

// How many fingerprints of keys there are.
const FINGERPRINTS: usize = 512;

// Up to so many slots are few: their keys are compared with one another, and unused ones are read slot by slot.
const FEW: usize = 8;

// Whether a head is well formed, of the level given and with a count of at most `slots`: four numbers of two bytes, the
// level with the zero behind it. Level and last zeros are one test.
fn head_sound(region: &[u8], slots: u32, level: u32) -> bool
    requires { (8 ≤ length region.now) × (level < 256) }
    ensures { result ≡ head_sound slots level region.now }
{
    layout::has_mark(region, 0, b"LB")
        & ((layout::read::<2>(region, 2) ^ u64::from(level) | layout::read::<2>(region, 6)) == 0)
        & (layout::read::<2>(region, 4) <= u64::from(slots))
}

// The key in a slot.
pub fn key_at(region: &[u8], slot: usize) -> u64
    requires { (slot_at slot + 24 ≤ length region.now) × (slot < most_slots) }
    ensures { result ≡ key_at region.now slot }
{
    layout::read::<8>(region, 8 + 24 * slot + 2)
}

// The first slot that holds a key, of the first ones.
fn find(region: &[u8], count: usize, key: u64) -> Option<usize>
    requires { (slot_at count ≤ length region.now) × (count ≤ most_slots) }
    ensures { result ≡ first_found region.now count key }
{
    (0..count).position(|k| key_at(region, k) == key)
}

// Whether a slot is marked and its key, which is given, belongs.
fn slot_fits(region: &[u8], slot: usize, home: Home, key: u64) -> bool
    requires { (slot_at slot + 24 ≤ length region.now) × (slot < most_slots) }
    ensures { result ≡ (slot_used region.now slot && keeps home.first home.bucket home.level key) }
{
    layout::has_mark(region, 8 + 24 * slot, b"LR") & home.keeps(key)
}

// The same as `slots_sound`, each key compared with all before it.
fn slots_paired(region: &[u8], count: usize, home: Home, key: u64) -> Option<usize>
    requires { (slot_at count ≤ length region.now) × (count ≤ most_slots) }
    ensures { result ≡ slots_judged (keeps home.first home.bucket home.level) region.now count key }
{
    for k in 0..count {
        let held = key_at(region, k);
        if !slot_fits(region, k, home, held) {
            return None;
        }
        if find(region, k, held).is_some() {
            return None;
        }
    }
    Some(find(region, count, key).unwrap_or(count))
}

// A number, one of the fingerprints, that keys of different rides and lifts seldom share.
fn fingerprint(key: u64) -> usize
    ensures { (result ≡ fingerprint key) × (result < fingerprints) }
{
    let folded = (key % 4294967296 + key / 4294967296) % 4294967296;
    (folded * 1640531527 / 8388608 % FINGERPRINTS as u64) as usize
}

// A slot that holds a key, of the first ones: of the key's fingerprint they are the latest, one less than a number that
// is not 0, the one before that, and so on.
fn seek(
    region: &[u8],
    before: &[u8; address::MOST_SLOTS],
    count: usize,
    latest: usize,
    key: u64,
) -> Option<usize>
    requires { (slot_at count ≤ length region.now) × (count ≤ most_slots) × Chained region.now before.now count
        × (latest ≡ latest_of region.now (fingerprint key) count) }
    ensures { SoughtAt region.now key count result }
{
    let mut next = latest;
    while let Some(slot) = next.checked_sub(1) {
        if key_at(region, slot) == key {
            return Some(slot);
        }
        next = usize::from(before[slot]);
    }
    None
}

// The same as `slots_sound`, with tables to chain each slot to the latest before it of its key's fingerprint, where an
// equal key would be met. They hold one more than a slot, and 0 for none, in a byte: they are cleared for each call.
fn slots_chained(
    region: &[u8],
    count: usize,
    home: Home,
    key: u64,
    latest: &mut [u8; FINGERPRINTS],
    before: &mut [u8; address::MOST_SLOTS],
) -> Option<usize>
    requires { (slot_at count ≤ length region.now) × (count ≤ most_slots) × (latest.old ≡ replicate fingerprints 0) }
    ensures { result ≡ slots_judged (keeps home.first home.bucket home.level) region.now count key }
{
    for k in 0..count {
        let held = key_at(region, k);
        if !slot_fits(region, k, home, held) {
            return None;
        }
        let mark = fingerprint(held);
        let next = latest[mark];
        if seek(region, before, k, usize::from(next), held).is_some() {
            return None;
        }
        before[k] = next;
        latest[mark] = (k + 1) as u8;
    }
    let last = latest[fingerprint(key)];
    Some(seek(region, before, count, usize::from(last), key).unwrap_or(count))
}

// The slot that holds a key, or the count, if each slot in use is marked, each key belongs and none stands twice: few
// keys are compared with one another, many are chained.
fn slots_sound(region: &[u8], count: usize, home: Home, key: u64) -> Option<usize>
    requires { (slot_at count ≤ length region.now) × (count ≤ most_slots) }
    ensures { result ≡ slots_judged (keeps home.first home.bucket home.level) region.now count key }
{
    if count <= FEW {
        return slots_paired(region, count, home, key);
    }
    let mut latest = [0u8; FINGERPRINTS];
    let mut before = [0u8; address::MOST_SLOTS];
    slots_chained(region, count, home, key, &mut latest, &mut before)
}

// Whether the slots from a number on are all zero, three words each.
fn slots_zero(region: &[u8], from: usize, slots: usize) -> bool
    requires { (length region.now ≡ slot_at slots) × (slots ≤ most_slots) × (from ≤ slots) }
    ensures { result ≡ all_zero (drop (slot_at from) region.now) }
{
    let mut seen = 0;
    for k in from..slots {
        let at = 8 + 24 * k;
        seen |= layout::read::<8>(region, at);
        seen |= layout::read::<8>(region, at + 8);
        seen |= layout::read::<8>(region, at + 16);
    }
    seen == 0
}

// Whether the unused slots are all zero: few are read slot by slot.
fn rest_zero(region: &[u8], count: usize, slots: u32) -> bool
    requires { (length region.now ≡ slot_at slots) × (slots ≤ most_slots) × (count ≤ slots) }
    ensures { result ≡ all_zero (drop (slot_at count) region.now) }
{
    if slots as usize <= FEW {
        return slots_zero(region, count, slots as usize);
    }
    let rest = 8 + 24 * count;
    layout::is_zero(&region[rest..])
}

// The slot that holds a key in a region that is sound as that of a bucket of a level, the count if none does; None if
// the region is unsound.
pub fn judge(
    region: &[u8],
    slots: u32,
    first: u32,
    bucket: u32,
    level: u32,
    key: u64,
) -> Option<usize>
    requires { Room first level × (length region.now ≡ slot_at slots) × (slots ≤ most_slots) }
    ensures { result ≡ cond (sound_with slots level (keeps first bucket level) region.now)
        (Some (slot_of region.now key)) None }
{
    if !head_sound(region, slots, level) {
        return None;
    }
    let count = layout::read::<2>(region, 4) as usize;
    let home = Home {
        first,
        bucket,
        level,
    };
    let place = slots_sound(region, count, home, key)?;
    rest_zero(region, count, slots).then_some(place)
}

// Places a ride in the first free slot, and answers the count then held.
pub fn place(region: &mut [u8], count: usize, key: u64, payload: &[u8; PAYLOAD]) -> usize
    requires { (slot_at count + 24 ≤ length region.old) × (count < most_slots) }
    ensures { (result ≡ count + 1)
        × (region.new ≡ edit 4 (le_bytes 2 (count + 1))
        (edit (slot_at count) (slot_bytes (record { key = key; payload = payload.now })) region.old)) }
{
    let at = 8 + 24 * count;
    layout::put(region, at, b"LR");
    layout::write::<8>(region, at + 2, key);
    layout::copy14(region, at + 10, payload, 0);
    let held = count + 1;
    layout::write::<2>(region, 4, held as u64);
    held
}
