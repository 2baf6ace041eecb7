// The calls of the library for C: each is the call of the crate that has it, and what it comes to as numbers.
#![tactic(auto)]

ghost use Rattle.std.specs.Prelude.{◌≡◌};
ghost use Rattle.address.specs.Limits.{first_buckets, no_bucket};
ghost use Rattle.address.specs.Rules.{parent};
ghost use Rattle.client.specs.Table.{join};
ghost use Rattle.file.specs.File.{check, create, split};
ghost use Rattle.answer.specs.Answer.{forwards_in};
ghost use Rattle.ride.specs.Call.{search, insert};
ghost use Rattle.load.specs.Load.{insert_split};
ghost use Rattle.scan.specs.Scan.{leaving, scan};
ghost use Rattle.layout.specs.Replies.Refused.{given};
ghost use Rattle.load.specs.Load.{number};
ghost use Rattle.lhstar.specs.Load.{Numbered, numbered, numbers_of};
ghost use Rattle.lhstar.specs.View.{view_start, view_length};

use file::Fault;
use growth::SplitAnswer;
use layout::Refused;
use load::{Control, Growth};
use scan::ScanAnswer;
use upkeep::CheckAnswer;

// Where a part of the file starts, and its length; 0 and 0 where it is empty.
#[repr(C)]
#[derive(Clone, Copy, Debug, PartialEq, Eq)]
pub struct ViewAnswer {
    pub start: u64,
    pub length: u64,
}

// The reply of an insert with load control, the number of what became of its split, and the split's answer.
#[repr(C)]
#[derive(Clone, Copy, Debug, PartialEq, Eq)]
pub struct LoadNumbers {
    pub reply: u32,
    pub split: u32,
    pub old_bucket: u32,
    pub new_bucket: u32,
}

impl From<Result<Growth, Fault>> for LoadNumbers {
    ghost from_gives = { λ done numbers. numbers ≡ numbers_of done };

    fn from(done: Result<Growth, Fault>) -> LoadNumbers {
        match done {
            Ok(Growth::Split(divided)) => LoadNumbers {
                reply: 0,
                split: u32::from(Control::Done),
                old_bucket: divided.old,
                new_bucket: divided.new,
            },
            Ok(Growth::NotNeeded) => alone(Control::NotDue),
            Ok(Growth::NoSpace) => alone(Control::NoRoom),
            Err(fault) => LoadNumbers {
                reply: fault.number(),
                split: u32::from(Control::NotDue),
                old_bucket: fault.region(),
                new_bucket: address::NO_BUCKET,
            },
        }
    }
}

// The numbers of an insert alone.
fn alone(control: Control) -> LoadNumbers
    ensures { result ≡ record { reply = 0; split = number control; old_bucket = no_bucket; new_bucket = no_bucket } }
{
    LoadNumbers {
        reply: 0,
        split: u32::from(control),
        old_bucket: address::NO_BUCKET,
        new_bucket: address::NO_BUCKET,
    }
}

// The reply of a call: 0, or the number of its refusal.
fn reply(done: Result<(), Refused>) -> u8
    ensures { result ≡ given done }
{
    match done {
        Ok(()) => 0,
        Err(refused) => refused.number(),
    }
}

// Writes the sound file in state (0, 0) without records.
#[unsafe(no_mangle)]
pub extern "C" fn lhstar_create(file: &mut [u8], capacity: u64, slots: u64, most: u64) -> u8
    ensures { record { answer = result; file = file.new } ≡ create file.old capacity slots most }
{
    reply(upkeep::create(file, capacity, slots, most))
}

// Joins a client: its image becomes (0, 0), over any old content.
#[unsafe(no_mangle)]
pub extern "C" fn lhstar_join(table: &mut [u8], client: u64) -> u8
    ensures { record { answer = result; table = table.new } ≡ join table.old client }
{
    reply(client::join(table, client))
}

// Inserts a ride through a client.
#[unsafe(no_mangle)]
pub extern "C" fn lhstar_insert(
    file: &mut [u8],
    table: &mut [u8],
    client: u64,
    key: u64,
    payload: &[u8],
    answer: &mut [u8],
) -> u8
    ensures { record { answer = result; block = answer.new; table = table.new; file = file.new }
        ≡ insert file.old table.old client key payload.now answer.old }
{
    reply(ride::insert(file, table, client, key, payload, answer))
}

// Inserts a ride through a client, and splits where its bucket's count makes that due.
#[unsafe(no_mangle)]
pub extern "C" fn lhstar_insert_split(
    file: &mut [u8],
    table: &mut [u8],
    client: u64,
    key: u64,
    payload: &[u8],
    threshold: u64,
    answer: &mut [u8],
) -> LoadNumbers
    ensures { record {
      answer = result.reply;
      split = result.split;
      old = result.old_bucket;
      new = result.new_bucket;
      block = answer.new;
      table = table.new;
      file = file.new;
    }
        ≡ numbered (insert_split file.old table.old client key payload.now threshold
        answer.old) }
{
    LoadNumbers::from(load::insert_split(file, table, client, key, payload, threshold, answer))
}

// Searches a key through a client.
#[unsafe(no_mangle)]
pub extern "C" fn lhstar_search(
    file: &[u8],
    table: &mut [u8],
    client: u64,
    key: u64,
    answer: &mut [u8],
) -> u8
    ensures { record { answer = result; block = answer.new; table = table.new; file = file.now }
        ≡ search file.now table.old client key answer.old }
{
    match ride::search(file, table, client, key, answer) {
        Ok(true) => 0,
        Ok(false) => 1,
        Err(refused) => refused.number(),
    }
}

// How often the key of an answer block was sent on.
#[unsafe(no_mangle)]
pub extern "C" fn lhstar_forwards(answer: &[u8]) -> u32
    ensures { result ≡ forwards_in answer.now }
{
    answer::forwards(answer)
}

// Splits bucket n.
#[unsafe(no_mangle)]
pub extern "C" fn lhstar_split(file: &mut [u8]) -> SplitAnswer
    ensures { record { answer = result.reply; old = result.old_bucket; new = result.new_bucket; file = file.new }
        ≡ split file.old }
{
    SplitAnswer::from(growth::split(file))
}

// Scans a file for one lift through a client.
#[unsafe(no_mangle)]
pub extern "C" fn lhstar_scan(
    file: &[u8],
    table: &[u8],
    client: u64,
    lift: u32,
    visits: &mut [u16],
    matches: &mut [u64],
) -> ScanAnswer
    ensures { leaving result visits.new matches.new
        ≡ scan file.now table.now client lift visits.old matches.old }
{
    ScanAnswer::from(scan::scan(file, table, client, lift, visits, matches))
}

// Checks a whole file.
#[unsafe(no_mangle)]
pub extern "C" fn lhstar_check(file: &[u8]) -> CheckAnswer
    ensures { record { answer = result.reply; bucket = result.bucket } ≡ check file.now }
{
    CheckAnswer::from(upkeep::check(file))
}

// Where the used slots of a bucket stand in the file.
#[unsafe(no_mangle)]
pub extern "C" fn lhstar_view(file: &[u8], bucket: u64) -> ViewAnswer
    ensures { (result.start ≡ view_start file.now bucket)
        × (result.length ≡ view_length file.now bucket) }
{
    let length = upkeep::view(file, bucket).len();
    if length == 0 {
        return ViewAnswer {
            start: 0,
            length: 0,
        };
    }
    let header = file::figures(file);
    let at = file::start(header.slots, bucket as u32);
    ViewAnswer {
        start: at as u64 + 8,
        length: length as u64,
    }
}

// The bucket of whose split this one was born.
#[unsafe(no_mangle)]
pub extern "C" fn lhstar_parent(bucket: u16) -> u32
    ensures { result ≡ parent first_buckets bucket }
{
    address::parent(bucket).unwrap_or(address::NO_BUCKET)
}
