// One command of a session: run on a file and its clients, and its line written.
#![tactic(auto)]

ghost use Rattle.std.specs.Prelude.{List, ℕ, ◌+◌, ◌≤◌, length};
ghost use Rattle.lines.specs.Lines.{line_room};
ghost use Rattle.commands.specs.Text.{command_of};
ghost use Rattle.commands.specs.declared.Command.TheVariants.{Split, Insert, Search, Scan};
ghost use Rattle.turn.specs.Session.{ran, room_for};
ghost use Rattle.turn.specs.Runs.{Runs};

use commands::Command;
use growth::SplitAnswer;
use lines::Text;
use scan::ScanAnswer;

// Splits, and writes the line.
fn run_split(file: &mut [u8], text: &mut Text<'_>)
    requires { text.old.at + line_room 2 ≤ length text.old.out.now }
    ensures { (table : List ℕ) → Runs (line_room 2) (ran file.old table Split) file.new table text.old text.new }
{
    let answer = SplitAnswer::from(growth::split(file));
    text.put_split(answer.reply, answer.old_bucket, answer.new_bucket);
}

// Inserts a ride with a payload of zeros, and writes the line.
fn run_insert(file: &mut [u8], table: &mut [u8], client: u64, key: u64, text: &mut Text<'_>)
    requires { text.old.at + line_room 3 ≤ length text.old.out.now }
    ensures { Runs (line_room 3) (ran file.old table.old (Insert client key)) file.new table.new text.old text.new }
{
    let payload = [0u8; 14];
    let mut answer = [0u8; 24];
    let _ = ride::insert(file, table, client, key, &payload, &mut answer);
    text.put_ride(b'I', &answer);
}

// Searches a key, and writes the line.
fn run_search(file: &[u8], table: &mut [u8], client: u64, key: u64, text: &mut Text<'_>)
    requires { text.old.at + line_room 3 ≤ length text.old.out.now }
    ensures { Runs (line_room 3) (ran file.now table.old (Search client key)) file.now table.new text.old text.new }
{
    let mut answer = [0u8; 24];
    let _ = ride::search(file, table, client, key, &mut answer);
    text.put_ride(b'S', &answer);
}

// Scans for a lift, and writes the line.
fn run_scan(file: &[u8], table: &[u8], client: u64, lift: u32, text: &mut Text<'_>)
    requires { text.old.at + line_room 16 ≤ length text.old.out.now }
    ensures { Runs (line_room 16) (ran file.now table.now (Scan client lift)) file.now table.now text.old text.new }
{
    let mut visits = [0u16; 16];
    let mut matches = [0u64; 64];
    let done = scan::scan(file, table, client, lift, &mut visits, &mut matches);
    let answer = ScanAnswer::from(done);
    let count = answer.visits as usize;
    text.put_scan(answer.reply, &visits[..count], answer.matches);
}

// Runs the command that a line is, and writes its line.
pub fn run_line(line: &[u8], file: &mut [u8], table: &mut [u8], text: &mut Text<'_>)
    requires { text.old.at + room_for (length line.now + 1) ≤ length text.old.out.now }
    ensures { Runs (room_for (length line.now + 1)) (ran file.old table.old (command_of line.now)) file.new table.new
        text.old text.new }
{
    match commands::read_command(line) {
        Command::Split => run_split(file, text),
        Command::Insert(client, key) => run_insert(file, table, client, key, text),
        Command::Search(client, key) => run_search(file, table, client, key, text),
        Command::Scan(client, lift) => run_scan(file, table, client, lift, text),
        Command::Unknown => text.put_unknown(),
    }
}
