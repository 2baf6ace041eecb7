// A client's refusals, a key's route, and the client's image after it.
#![tactic(auto)]

mod walk;

ghost use Rattle.std.specs.Prelude.{◌≡◌, true, ◌++◌, ◌∷◌, [], ◌+◌, ◌*◌, ◌≤◌, ◌<◌, length, IfOk, IfErr};
ghost use Rattle.address.specs.Limits.{first_buckets, most_level, most_buckets};
ghost use Rattle.address.specs.Room.{ImageRoom};
ghost use Rattle.address.specs.Rules.{Formed, NotAhead};
ghost use Rattle.client.specs.Table.{image_of, record_sound, with_image};
ghost use Rattle.file.specs.File.{state_of};
ghost use Rattle.layout.specs.Replies.{reply};
ghost use Rattle.layout.specs.Replies.Refused.{number, given};
ghost use Rattle.route.specs.Way.{way_of, early, noted, first_met, adjusted_by};
ghost use Rattle.route.specs.Way.Open.{Opening};
ghost use Rattle.route.specs.Way.Reach.{OnWay, AtOwn};
ghost use Rattle.route.specs.Way.Route.{Walked};

use address::{Fate, Image};
use file::{Headed, Header};
use layout::Refused;
pub use walk::Walk;

// What a call starts with: the header and the client's image.
#[derive(Clone, Copy, Debug, PartialEq, Eq)]
pub struct Opened {
    pub header: Header,
    pub image: Image,
}

// The end of a walk: the key's own bucket, the slot that holds the key there, or the count, and the buckets met.
#[derive(Clone, Copy, Debug, PartialEq, Eq)]
struct End {
    bucket: u32,
    place: usize,
    walk: Walk,
}

// A key at its own bucket: what its call started with, and the end of its walk.
#[derive(Clone, Copy, Debug, PartialEq, Eq)]
pub struct Reached {
    pub header: Header,
    pub image: Image,
    pub bucket: u32,
    pub place: usize,
    pub walk: Walk,
}

// Why a key did not reach its own bucket, and the buckets that it met by then.
#[derive(Clone, Copy, Debug, PartialEq, Eq)]
pub struct Stop {
    pub refused: Refused,
    pub walk: Walk,
}

// A refusal before any route.
impl From<Refused> for Stop {
    ghost from_gives = { λ refused stop. (stop.refused ≡ refused) × (stop.walk.count ≡ 0) };

    fn from(refused: Refused) -> Stop {
        Stop {
            refused,
            walk: no_walk(),
        }
    }
}

// No bucket yet.
pub fn no_walk() -> Walk
    ensures { result.count ≡ 0 }
{
    Walk {
        met: [address::NO_BUCKET; 3],
        count: 0,
    }
}

impl Walk {
    // One bucket more, in place: a copy of the array would wait for the store of the bucket before.
    fn note(&mut self, bucket: u32)
        requires { self.old.count ≤ 2 }
        ensures { (noted self.new ≡ noted self.old ++ (bucket ∷ [])) × (self.new.count ≡ self.old.count + 1) }
    {
        self.met[self.count] = bucket;
        self.count += 1;
    }
}

// Walks a key's route from a client's image until a bucket keeps it, or is unsound.
fn walk_route(headed: &Headed, image: Image, key: u64) -> Result<End, Walk>
    requires { (image.level ≤ most_level) × Formed first_buckets image
        × NotAhead first_buckets (state_of headed.now.file.now) image }
    ensures reached { IfOk result (λ end.
        Walked headed.now.file.now key (way_of headed.now.file.now image key) end.walk end.bucket end.place 0) }
    ensures stopped { IfErr result (λ walk.
        Walked headed.now.file.now key (way_of headed.now.file.now image key) walk 0 0 7) }
{
    let state = headed.header.state;
    let mut bucket = image.address(address::FIRST_BUCKETS, key);
    let mut walk = no_walk();
    'walk: loop {
        walk.note(bucket);
        let level = state.level_of(address::FIRST_BUCKETS, bucket);
        let judged = file::judge_bucket(headed.file, headed.header.slots, bucket, level, key);
        let fate = address::fate_at(address::FIRST_BUCKETS, judged.is_some(), bucket, level, key);
        match (fate, judged) {
            (Fate::Keep, Some(place)) => {
                return Ok(End {
                    bucket,
                    place,
                    walk,
                });
            }
            (Fate::SendOn(next), _) => {
                bucket = next;
            }
            _ => {
                return Err(walk);
            }
        }
    }
}

// Judges a call before any route, in the replies' order, and reads what it starts with: 2 to 4, 5 or 6, else both.
#[inline(always)]
pub fn open(file: &[u8], table: &[u8], client: u64) -> Result<Opened, Refused>
    ensures opened { IfOk result (λ opened. Opening file.now table.now client opened.header opened.image) }
    ensures refused { given result ≡ reply (early file.now table.now client) 0 }
{
    client::caller_refusal(table, client)?;
    let Some(header) = file::header_of(file) else {
        return Err(Refused::Header);
    };
    let image = client::image_of(table, client);
    let ahead = header.state.buckets(address::FIRST_BUCKETS)
        < image.buckets(address::FIRST_BUCKETS);
    if ahead {
        return Err(Refused::Ahead);
    }
    Ok(Opened { header, image })
}

// Follows a key to its own bucket: 2 to 6 before any route, or 7 with the buckets met.
#[inline(always)]
pub fn reach(file: &[u8], table: &[u8], client: u64, key: u64) -> Result<Reached, Stop>
    ensures reached { IfOk result (λ reached. OnWay file.now table.now client key reached.walk 0
        × AtOwn file.now table.now client key reached.header reached.image
        reached.walk reached.bucket reached.place) }
    ensures stopped { IfErr result (λ stop. OnWay file.now table.now client key stop.walk (number stop.refused)) }
{
    let opened = open(file, table, client)?;
    let header = opened.header;
    let image = opened.image;
    match walk_route(&Headed { file, header }, image, key) {
        Ok(end) => Ok(Reached {
            header,
            image,
            bucket: end.bucket,
            place: end.place,
            walk: end.walk,
        }),
        Err(walk) => Err(Stop {
            refused: Refused::Bucket,
            walk,
        }),
    }
}

// Writes a client's image after its first bucket sent the key on; where that kept it, the image stays as it stands.
pub fn adjust(table: &mut [u8], client: u64, state: Image, image: Image, walk: Walk)
    requires { (8 * client + 8 ≤ length table.old) × (record_sound table.old client ≡ true)
        × (image ≡ image_of table.old client) × ImageRoom first_buckets state × (first_met walk ≤ most_buckets)
        × ((adjusted_by state image walk).level < 256) × ((adjusted_by state image walk).pointer < 65536) }
    ensures { table.new ≡ with_image table.old client (adjusted_by state image walk) }
{
    let kept = walk.count == 1;
    if kept {
        return;
    }
    let first = walk.met[0];
    let level = state.level_of(address::FIRST_BUCKETS, first);
    let next = image.adjusted(address::FIRST_BUCKETS, first, level, false);
    client::put_image(table, client, next);
}
