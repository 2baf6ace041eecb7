// A session: a file and four clients, and the commands of an input run on them one after another.
ghost use Rattle.std.specs.Prelude.{◌≤◌, length};
ghost use Rattle.lines.specs.Bytes.{line_feed};
ghost use Rattle.lines.specs.Lines.{Wrote};
ghost use Rattle.commands.specs.Text.{pieces};
ghost use Rattle.turn.specs.Session.{printed_from, printed, room_for};

use lines::Text;

// Runs the lines of an input one after another; what follows the last line feed is no command.
fn run_lines(input: &[u8], file: &mut [u8], table: &mut [u8], out: &mut [u8]) -> usize
    requires { room_for (length input.now) ≤ length out.old }
    ensures { Wrote 0
        (printed_from file.old table.old (pieces line_feed input.now)) out.old
        out.new result }
{
    let mut text = Text::new(out, 0);
    let mut from = 0;
    while let Some(end) = commands::line_end(input, from) {
        turn::run_line(&input[from..end], file, table, &mut text);
        from = end + 1;
    }
    if from < input.len() {
        text.put_unknown();
    }
    text.end()
}

// Makes the file and its clients, runs an input on them, and writes what is printed.
pub fn run(input: &[u8], out: &mut [u8]) -> usize
    requires { room_for (length input.now) ≤ length out.old }
    ensures { Wrote 0 (printed input.now) out.old out.new result }
{
    let mut file = [0u8; 1680];
    let _ = upkeep::create(&mut file, 2, 4, 16);
    let mut table = [0u8; 32];
    let _ = client::join(&mut table, 0);
    let _ = client::join(&mut table, 1);
    let _ = client::join(&mut table, 2);
    let _ = client::join(&mut table, 3);
    run_lines(input, &mut file, &mut table, out)
}
