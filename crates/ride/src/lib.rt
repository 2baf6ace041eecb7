// Insert and search: what they come to, and what is written.
#![tactic(auto)]

ghost use Rattle.std.specs.Prelude.{◌≡◌, true, ◌+◌, ◌*◌, ◌≤◌, ◌<◌, length};
ghost use Rattle.address.specs.Limits.{first_buckets, most_buckets};
ghost use Rattle.address.specs.Room.{ImageRoom};
ghost use Rattle.bucket.specs.Region.{Ride, count_of, ride_at};
ghost use Rattle.file.specs.File.{slots_of, buckets_of, region_of, bucket_sound_in, with_ride};
ghost use Rattle.file.specs.File.Judge.{Known};
ghost use Rattle.client.specs.Table.{image_of, record_sound, with_image};
ghost use Rattle.layout.specs.Replies.Refused.{number, given};
ghost use Rattle.route.specs.Way.{noted, first_met, adjusted_by};
ghost use Rattle.route.specs.Way.Reach.{AtOwn};
ghost use Rattle.answer.specs.Answer.{block, no_payload};
ghost use Rattle.ride.specs.Call.Own.{refusal_at};
ghost use Rattle.ride.specs.Call.{Outcome, found, search_number, searched, search, placed, insert};

use answer::BLOCK;
use bucket::PAYLOAD;
use file::{Headed, Header};
use layout::Refused;
use route::{Reached, Stop, Walk};

// The reply of a search whose key is not held.
const ABSENT: u8 = 1;

// Writes the block of a search that found its key, with the payload in the key's slot.
fn put_found(headed: &Headed, bucket: u32, place: usize, walk: Walk, answer: &mut [u8; BLOCK])
    requires { (walk.count ≤ 3) × (bucket < buckets_of headed.now.file.now) × (place < slots_of headed.now.file.now) }
    ensures { answer.new
        ≡ block 0 (noted walk) 0 (ride_at (region_of headed.now.file.now bucket) place).payload }
{
    answer::put_block(answer, 0, walk, 0);
    let at = file::start(headed.header.slots, bucket);
    layout::copy14(answer, 10, headed.file, at + (18 + 24 * place));
}

// A search that reached the key's own bucket: whether the key is held there, and then its payload is in the block.
fn finish_search(
    file: &[u8],
    table: &mut [u8],
    client: u64,
    key: u64,
    answer: &mut [u8; BLOCK],
    reached: Reached,
) -> bool
    requires { AtOwn file.now table.old client key reached.header reached.image reached.walk reached.bucket
        reached.place }
    ensures { record { answer = found result; block = answer.new; table = table.new; file = file.now }
        ≡ searched file.now table.old client key }
{
    let walk = reached.walk;
    let header = reached.header;
    let headed = Headed { file, header };
    let count = headed.held_in(reached.bucket);
    route::adjust(table, client, header.state, reached.image, walk);
    let found = reached.place < count;
    if found {
        put_found(&headed, reached.bucket, reached.place, walk, answer);
        return true;
    }
    answer::put_block(answer, ABSENT, walk, 0);
    false
}

// Writes the block of a call that is refused, with the buckets met by then, and passes the refusal on.
pub fn refuse(answer: &mut [u8; BLOCK], stop: Stop) -> Refused
    requires { stop.walk.count ≤ 3 }
    ensures { (result ≡ stop.refused)
        × (answer.new ≡ block (number stop.refused) (noted stop.walk) 0 no_payload) }
{
    answer::put_block(answer, stop.refused.number(), stop.walk, 0);
    stop.refused
}

// Searches a key through a client: 14, 2 to 6, 7, else whether it is held, with its payload.
pub fn search(
    file: &[u8],
    table: &mut [u8],
    client: u64,
    key: u64,
    answer: &mut [u8],
) -> Result<bool, Refused>
    ensures { record { answer = search_number result; block = answer.new; table = table.new; file = file.now }
        ≡ search file.now table.old client key answer.old }
{
    let Some(answer) = answer.as_mut_array() else {
        return Err(Refused::Lengths);
    };
    match route::reach(file, table, client, key) {
        Ok(reached) => Ok(finish_search(file, table, client, key, answer, reached)),
        Err(stop) => Err(refuse(answer, stop)),
    }
}

// Places a ride in the key's own bucket, and writes the block of an insert that did, with the count then held.
pub fn put_placed(
    file: &mut [u8],
    header: Header,
    bucket: u32,
    count: usize,
    key: u64,
    payload: &[u8; PAYLOAD],
    walk: Walk,
    answer: &mut [u8; BLOCK],
)
    requires { (walk.count ≤ 3) × Known file.old header × (bucket < buckets_of file.old)
        × (bucket_sound_in file.old bucket ≡ true)
        × (count ≡ count_of (region_of file.old bucket)) × (count < header.slots) }
    ensures { (file.new
        ≡ with_ride file.old bucket (record { key = key; payload = payload.now }))
        × (answer.new ≡ block 0 (noted walk) (count + 1) no_payload) }
{
    let after = file::place_ride(file, header, bucket, count, key, payload);
    answer::put_block(answer, 0, walk, after as u8);
}

// Why an insert is refused at the key's own bucket, if it is: 8, the key is held, or 9, no slot is free.
pub fn insert_refusal(place: usize, count: usize, slots: u32) -> Result<(), Refused>
    ensures { given result ≡ refusal_at place count slots }
{
    if place < count {
        return Err(Refused::Held);
    }
    if slots as usize <= count {
        return Err(Refused::Full);
    }
    Ok(())
}

// An insert that is refused at the key's own bucket: the image is adjusted all the same.
#[inline(always)]
pub fn turn_away(
    table: &mut [u8],
    client: u64,
    answer: &mut [u8; BLOCK],
    reached: Reached,
    refused: Refused,
) -> Refused
    requires { (reached.walk.count ≤ 3) × (8 * client + 8 ≤ length table.old)
        × (record_sound table.old client ≡ true) × (reached.image ≡ image_of table.old client)
        × ImageRoom first_buckets reached.header.state × (first_met reached.walk ≤ most_buckets)
        × ((adjusted_by reached.header.state reached.image reached.walk).level < 256)
        × ((adjusted_by reached.header.state reached.image reached.walk).pointer < 65536) }
    ensures { (result ≡ refused)
        × (answer.new ≡ block (number refused) (noted reached.walk) 0 no_payload)
        × (table.new ≡ with_image table.old client (adjusted_by reached.header.state reached.image reached.walk)) }
{
    let walk = reached.walk;
    route::adjust(table, client, reached.header.state, reached.image, walk);
    refuse(answer, Stop { refused, walk })
}

// Writes what an accepted insert writes: the client's image, the ride and the block.
#[inline(always)]
pub fn place(
    file: &mut [u8],
    table: &mut [u8],
    client: u64,
    key: u64,
    payload: &[u8; PAYLOAD],
    answer: &mut [u8; BLOCK],
    reached: Reached,
    count: usize,
)
    requires { AtOwn file.old table.old client key reached.header reached.image reached.walk reached.bucket
        reached.place
        × (count ≡ count_of (region_of file.old reached.bucket))
        × (refusal_at reached.place count reached.header.slots ≡ 0) }
    ensures { (record { answer = 0; block = answer.new; table = table.new; file = file.new }
        ≡ placed file.old table.old client key payload.now)
        × (file.new ≡ with_ride file.old reached.bucket (record { key = key; payload = payload.now })) }
{
    let header = reached.header;
    route::adjust(table, client, header.state, reached.image, reached.walk);
    put_placed(
        file,
        header,
        reached.bucket,
        count,
        key,
        payload,
        reached.walk,
        answer,
    );
}

// An insert that reached the key's own bucket: held already, no slot free, or placed.
fn finish_insert(
    file: &mut [u8],
    table: &mut [u8],
    client: u64,
    key: u64,
    payload: &[u8; PAYLOAD],
    answer: &mut [u8; BLOCK],
    reached: Reached,
) -> Result<(), Refused>
    requires { AtOwn file.old table.old client key reached.header reached.image reached.walk reached.bucket
        reached.place }
    ensures { record { answer = given result; block = answer.new; table = table.new; file = file.new }
        ≡ placed file.old table.old client key payload.now }
{
    let header = reached.header;
    let headed = Headed { file, header };
    let count = headed.held_in(reached.bucket);
    match insert_refusal(reached.place, count, header.slots) {
        Ok(()) => {
            place(file, table, client, key, payload, answer, reached, count);
            Ok(())
        }
        Err(refused) => Err(turn_away(table, client, answer, reached, refused)),
    }
}

// Inserts a ride through a client: 14, 2 to 6, 7, 8, 9, else it is placed.
pub fn insert(
    file: &mut [u8],
    table: &mut [u8],
    client: u64,
    key: u64,
    payload: &[u8],
    answer: &mut [u8],
) -> Result<(), Refused>
    ensures { record { answer = given result; block = answer.new; table = table.new; file = file.new }
        ≡ insert file.old table.old client key payload.now answer.old }
{
    let Some(payload) = payload.as_array() else {
        return Err(Refused::Lengths);
    };
    let Some(answer) = answer.as_mut_array() else {
        return Err(Refused::Lengths);
    };
    match route::reach(file, table, client, key) {
        Ok(reached) => finish_insert(file, table, client, key, payload, answer, reached),
        Err(stop) => Err(refuse(answer, stop)),
    }
}
