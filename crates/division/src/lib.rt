// A bucket's rides divided between two regions, and a region made that of an empty bucket.
#![tactic(auto)]

ghost use Rattle.std.specs.Prelude.{◌≡◌, [], ◌+◌, ◌*◌, ◌-◌, ◌≤◌, ◌<◌, length, replicate};
ghost use Rattle.address.specs.Limits.{most_slots};
ghost use Rattle.address.specs.Rules.{keeps};
ghost use Rattle.layout.specs.Bytes.{edit, part};
ghost use Rattle.bucket.specs.Region.{slot_at, count_of, head_bytes, encode, halved};
ghost use Rattle.bucket.specs.Region.Divide.{Halves, Parted};

use address::Home;

// Writes a bucket's head.
fn put_head(bytes: &mut [u8], at: usize, level: u32, count: usize)
    requires { (at + 8 ≤ length bytes.old) × (level < 256) }
    ensures { bytes.new ≡ edit at (head_bytes level count) bytes.old }
{
    layout::put(bytes, at, b"LB");
    let [low, high, ..] = count.to_le_bytes();
    layout::put(bytes, at + 2, &[level as u8, 0, low, high, 0, 0]);
}

// Writes a bucket's head and makes its unused slots zero.
fn close(bytes: &mut [u8], at: usize, slots: u32, level: u32, count: usize)
    requires { (at + slot_at slots ≤ length bytes.old) × (count ≤ slots) × (slots ≤ most_slots) × (level < 256) }
    ensures { bytes.new
        ≡ edit (at + slot_at count) (replicate (24 * (slots - count)) 0)
        (edit at (head_bytes level count) bytes.old) }
{
    put_head(bytes, at, level, count);
    let from = at + (8 + 24 * count);
    let to = at + (8 + 24 * slots as usize);
    layout::clear(&mut bytes[from..to]);
}

// Makes a region that of an empty bucket of a level.
pub fn renew(region: &mut [u8], slots: u32, level: u32)
    requires { (length region.old ≡ slot_at slots) × (slots ≤ most_slots) × (level < 256) }
    ensures { region.new ≡ encode slots level [] }
{
    close(region, 0, slots, level, 0);
}

// Copies a slot.
fn copy_slot(bytes: &mut [u8], from: usize, to: usize)
    requires { (from + 24 ≤ length bytes.old) × (to + 24 ≤ length bytes.old) }
    ensures { bytes.new ≡ edit to (part from 24 bytes.old) bytes.old }
{
    let slot: [u8; 24] = layout::array_at(bytes, from);
    layout::put(bytes, to, &slot);
}

// Writes each ride of a bucket behind those that stay and, in a new region, behind those that move, and answers how
// many stay. Either group grows without a branch.
fn part_rides(
    bytes: &mut [u8],
    old: usize,
    new: usize,
    slots: u32,
    count: usize,
    home: Home,
) -> usize
    requires { Halves bytes.old slots old new count × (slots ≤ most_slots) }
    ensures { Parted (keeps home.first home.bucket home.level) bytes.old slots old new count count result
        bytes.new }
{
    let mut stay = 0;
    for k in 0..count {
        let at = old + (8 + 24 * k);
        let key = layout::read::<8>(bytes, at + 2);
        let kept = home.keeps(key);
        copy_slot(bytes, at, new + (8 + 24 * (k - stay)));
        copy_slot(bytes, at, old + (8 + 24 * stay));
        stay += usize::from(kept);
    }
    stay
}

// Divides a bucket with a new one behind it: the rides that belong to it at a level stay, the others move.
pub fn divide(bytes: &mut [u8], old: usize, new: usize, slots: u32, home: Home)
    requires { Halves bytes.old slots old new (count_of (part old (slot_at slots) bytes.old))
        × (slots ≤ most_slots) }
    ensures { bytes.new
        ≡ halved (keeps home.first home.bucket home.level) slots home.level old new bytes.old }
{
    let count = layout::read::<2>(bytes, old + 4) as usize;
    let stay = part_rides(bytes, old, new, slots, count, home);
    let level = home.level;
    close(bytes, old, slots, level, stay);
    close(bytes, new, slots, level, count - stay);
}
