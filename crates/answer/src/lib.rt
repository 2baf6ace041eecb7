// The answer block of insert and search: written, and its forwards counted.
#![tactic(auto)]

ghost use Rattle.std.specs.Prelude.{◌≡◌, ◌%◌, ◌≤◌, ◌∷◌, replicate};
ghost use Rattle.layout.specs.Bytes.{le_bytes, edit};
ghost use Rattle.route.specs.Way.{noted};
ghost use Rattle.route.specs.Way.Noted.{shown};
ghost use Rattle.answer.specs.Answer.{block, no_payload, forwards_in};
ghost use Rattle.answer.specs.Answer.Block.{start_bytes};

use route::Walk;

// How many bytes an answer block has.
pub const BLOCK: usize = 24;

// A route entry of the answer block, as the number of its two bytes.
fn entry(count: usize, place: usize, bucket: u32) -> u64
    ensures { result ≡ shown count place bucket % 65536 }
{
    if place < count {
        return u64::from(bucket % 65536);
    }
    u64::from(address::NO_BUCKET)
}

// The first eight bytes of an answer block as one number: the reply, the count and the route's entries.
fn start_of_block(reply: u8, walk: Walk) -> u64
    requires { walk.count ≤ 3 }
    ensures { le_bytes 8 result ≡ start_bytes reply (noted walk) }
{
    let count = walk.count;
    let x = entry(count, 0, walk.met[0]);
    let y = entry(count, 1, walk.met[1]);
    let z = entry(count, 2, walk.met[2]);
    u64::from(reply) + count as u64 * 256 + x * 65536 + y * 4294967296 + z * 281474976710656
}

// Writes the count held of an answer block and the zeros behind it.
fn put_count(answer: &mut [u8; BLOCK], count: u8)
    ensures { answer.new ≡ edit 8 (count ∷ replicate 15 0) answer.old }
{
    layout::write::<8>(answer, 8, u64::from(count));
    layout::write::<8>(answer, 16, 0);
}

// Writes an answer block without a payload, as three numbers of eight bytes.
pub fn put_block(answer: &mut [u8; BLOCK], reply: u8, walk: Walk, count: u8)
    requires { walk.count ≤ 3 }
    ensures { answer.new ≡ block reply (noted walk) count no_payload }
{
    layout::write::<8>(answer, 0, start_of_block(reply, walk));
    put_count(answer, count);
}

// How often the key of an answer block was sent on.
pub fn forwards(answer: &[u8]) -> u32
    ensures { result ≡ forwards_in answer.now }
{
    if answer.len() != BLOCK {
        return 0;
    }
    u32::from(answer[1]).saturating_sub(1)
}
