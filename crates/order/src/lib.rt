// The order in which a scan visits the buckets. Numbers only: a message's level follows from its bucket's number, so
// the list of the buckets that were sent a message is all that a scan has to remember.
#![tactic(auto)]

ghost use Rattle.std.specs.Prelude.{◌≡◌, ℕ, ◌+◌, ◌-◌, ◌≤◌, ◌<◌, length};
ghost use Rattle.address.specs.Limits.{first_buckets};
ghost use Rattle.address.specs.Room.{Room, ImageRoom};
ghost use Rattle.address.specs.Rules.{buckets, child, numbers, visits, earlier};
ghost use Rattle.address.specs.Rules.Order.{born, Told};
ghost use Rattle.layout.specs.Bytes.{edit};
ghost use Rattle.order.specs.Queue.{Scannable, Sendable};

use address::{FIRST_BUCKETS, Image};

// The message level of a bucket, by its number: its level in the image where the client believes in it, otherwise
// how many binary digits it has, since it was born at that level.
fn message_level(image: Image, bucket: u32) -> u32
    requires { ImageRoom first_buckets image }
    ensures { Told first_buckets image bucket result }
{
    if bucket < image.buckets(FIRST_BUCKETS) {
        return image.level_of(FIRST_BUCKETS, bucket);
    }
    32 - bucket.leading_zeros()
}

// The client sends to the first buckets, as many as there are places for, in number order.
fn send_first(sent: &mut [u16])
    requires { length sent.old ≤ 65536 }
    ensures { sent.new ≡ numbers 0 (length sent.old) }
{
    for (bucket, place) in sent.iter_mut().enumerate() {
        *place = bucket as u16;
    }
}

// A bucket that gets message level `told` sends to its child of each level from there on, as many as there are places
// for.
fn send_on(bucket: u32, told: u32, sent: &mut [u16])
    requires { Sendable bucket told (length sent.old) }
    ensures { sent.new ≡ born first_buckets bucket told (length sent.old) }
{
    for (k, place) in sent.iter_mut().enumerate() {
        *place = address::child(FIRST_BUCKETS, bucket, told + k as u32) as u16;
    }
}

// Fills the list's start with the buckets of a file in the order in which a scan by a client's image visits them; the
// entries past them keep their content.
pub fn fill_visits(state: Image, image: Image, queue: &mut [u16])
    requires { Scannable state image × (buckets first_buckets state ≤ length queue.old) }
    ensures { queue.new ≡ edit 0 (visits first_buckets state image) queue.old }
{
    let count = state.buckets(FIRST_BUCKETS) as usize;
    let mut tail = image.buckets(FIRST_BUCKETS) as usize;
    send_first(&mut queue[..tail]);
    for handled in 0..count {
        let bucket = u32::from(queue[handled]);
        let told = message_level(image, bucket);
        let own = state.level_of(FIRST_BUCKETS, bucket);
        let end = tail + (own - told) as usize;
        send_on(bucket, told, &mut queue[tail..end]);
        tail = end;
    }
}

// Whether a scan by a client that believes in so many buckets visits one bucket before another: both are followed up
// to their parents until one of them is believed in or both have one parent.
pub fn earlier(believed: u32, bucket: u32, other: u32) -> bool
    requires { 0 < believed }
    ensures { result ≡ earlier first_buckets believed bucket other }
{
    let mut one = bucket;
    let mut two = other;
    while (believed <= one) & (believed <= two) {
        let above = address::born_of(one);
        let beside = address::born_of(two);
        if above == beside {
            return one < two;
        }
        one = above;
        two = beside;
    }
    one < two
}
