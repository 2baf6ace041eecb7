// One client table: judged, a client's image read and written, and a client joined.
#![tactic(auto)]

ghost use Rattle.std.specs.Prelude.{◌≡◌, ◌+◌, ◌*◌, ◌≤◌, ◌<◌, length};
ghost use Rattle.layout.specs.Replies.{reply};
ghost use Rattle.layout.specs.Replies.Refused.{given};
ghost use Rattle.client.specs.Table.{Joined, image_of, record_formed, image_formed, table_refusals, caller_refusals};
ghost use Rattle.client.specs.Table.{with_image, join};

use address::Image;
use layout::Refused;

// The refusal of a table and a client's number, if one is due: 2 or 3.
pub fn table_refusal(table: &[u8], client: u64) -> Result<(), Refused>
    ensures { given result ≡ reply (table_refusals table.now client) 0 }
{
    let long = table.len();
    let fits = (0 < long) & (long <= address::MOST_TABLE) & (long % 8 == 0);
    if !fits {
        return Err(Refused::Table);
    }
    let clients = (long / 8) as u64;
    if client < clients {
        return Ok(());
    }
    Err(Refused::Client)
}

// Whether the fixed bytes of a client's record are right: the mark, and bytes 3, 6 and 7 of its word.
fn record_formed(table: &[u8], client: usize) -> bool
    requires { 8 * client + 8 ≤ length table.now }
    ensures { result ≡ record_formed table.now client }
{
    let at = 8 * client;
    let word = layout::read::<8>(table, at);
    layout::has_mark(table, at, b"LC")
        & (word / 16777216 % 256 == 0)
        & (word / 281474976710656 == 0)
}

// Whether an image's level and pointer are in range.
fn image_formed(image: Image) -> bool
    ensures { result ≡ image_formed image }
{
    if address::MOST_LEVEL < image.level {
        return false;
    }
    image.pointer < address::span(address::FIRST_BUCKETS, image.level)
}

// A client's image, as it stands in the record.
pub fn image_of(table: &[u8], client: u64) -> Image
    requires { 8 * client + 8 ≤ length table.now }
    ensures { result ≡ image_of table.now client }
{
    let at = 8 * client as usize;
    Image {
        level: u32::from(table[at + 2]),
        pointer: layout::read::<2>(table, at + 4) as u32,
    }
}

// The refusal of a caller, by table, number and record, if one is due: 2, 3 or 4.
pub fn caller_refusal(table: &[u8], client: u64) -> Result<(), Refused>
    ensures { given result ≡ reply (caller_refusals table.now client) 0 }
{
    table_refusal(table, client)?;
    let sound = record_formed(table, client as usize) & image_formed(image_of(table, client));
    if !sound {
        return Err(Refused::Record);
    }
    Ok(())
}

// Writes a client's image.
pub fn put_image(table: &mut [u8], client: u64, image: Image)
    requires { (8 * client + 8 ≤ length table.old) × (image.level < 256) × (image.pointer < 65536) }
    ensures { table.new ≡ with_image table.old client image }
{
    let at = 8 * client as usize;
    layout::put(table, at, b"LC");
    let [low, high, ..] = image.pointer.to_le_bytes();
    layout::put(table, at + 2, &[image.level as u8, 0, low, high, 0, 0]);
}

// Joins a client: its image becomes (0, 0), over any old content.
pub fn join(table: &mut [u8], client: u64) -> Result<(), Refused>
    ensures { record { answer = given result; table = table.new } ≡ join table.old client }
{
    let start = Image {
        level: 0,
        pointer: 0,
    };
    table_refusal(table, client)?;
    put_image(table, client, start);
    Ok(())
}
