// The text that the program reads: a line read as a command. Bytes and numbers only; `specs/Text.antt` has
// the grammar.
#![tactic(auto)]

ghost use Rattle.std.specs.Prelude.{◌≡◌, ◌+◌, ◌≤◌, ◌<◌, length, MatchOption, HoldsAt, ◌≢◌};
ghost use Rattle.std.specs.List.{AllWithin};
ghost use Rattle.commands.specs.Text.{number_of, number_from, line_end, limit_after, named, of_numbers};
ghost use Rattle.commands.specs.Text.{command_of};

// What a line asks for: a split; an insert or a search by client and key; a scan by client and lift.
#[derive(Clone, Copy, Debug, PartialEq, Eq)]
pub enum Command {
    Split,
    Insert(u64, u64),
    Search(u64, u64),
    Scan(u64, u32),
    Unknown,
}

const MOST: u64 = u64::MAX;

const MOST_LIFT: u64 = u32::MAX as u64;

// The place of the first such byte, if there is one.
fn find(bytes: &[u8], byte: u8) -> Option<usize>
    ensures { MatchOption result (AllWithin (λ x. x ≢ byte) bytes.now 0 (length bytes.now))
        (λ i. (i < length bytes.now) × HoldsAt (λ x. x ≡ byte) bytes.now i × AllWithin (λ x. x ≢ byte) bytes.now 0 i) }
{
    bytes.iter().position(|other| *other == byte)
}

// The place of the line feed that ends the line which starts at a place, if there is one.
pub fn line_end(input: &[u8], from: usize) -> Option<usize>
    requires { from ≤ length input.now }
    ensures { MatchOption result (line_end input.now from ≡ length input.now)
        (λ end. (end ≡ line_end input.now from) × (from ≤ end) × (end < length input.now)) }
{
    match find(&input[from..], b'\n') {
        Some(more) => Some(from + more),
        None => None,
    }
}

// The number that a field's digits spell, if it is at most `most`.
fn read_digits(field: &[u8], most: u64) -> Option<u64>
    ensures { result ≡ number_from (most + 1) 0 field.now }
{
    let mut value: u64 = 0;
    for byte in field {
        if !byte.is_ascii_digit() {
            return None;
        }
        value = value.checked_mul(10)?.checked_add(u64::from(*byte - b'0'))?;
    }
    (value <= most).then_some(value)
}

// The number that a field is, without spare zeros and at most `most`.
fn read_number(field: &[u8], most: u64) -> Option<u64>
    ensures { result ≡ number_of (most + 1) field.now }
{
    match field {
        [] => None,
        [_] => read_digits(field, most),
        [first, ..] if *first == b'0' => None,
        _ => read_digits(field, most),
    }
}

// The greatest second number of a letter's command.
fn most_after(letter: u8) -> u64
    ensures { result + 1 ≡ limit_after letter }
{
    if letter == b'A' { MOST_LIFT } else { MOST }
}

// The command of a letter and two numbers.
fn command_named(letter: u8, client: u64, number: u64) -> Command
    requires { number < limit_after letter }
    ensures { result ≡ named letter client number }
{
    match letter {
        b'I' => Command::Insert(client, number),
        b'S' => Command::Search(client, number),
        b'A' => Command::Scan(client, number as u32),
        _ => Command::Unknown,
    }
}

// The command of a letter and two fields.
fn command_of(letter: u8, one: &[u8], two: &[u8]) -> Command
    ensures { result ≡ of_numbers letter one.now two.now }
{
    let Some(client) = read_number(one, MOST) else {
        return Command::Unknown;
    };
    let Some(number) = read_number(two, most_after(letter)) else {
        return Command::Unknown;
    };
    command_named(letter, client, number)
}

// The command that a line is.
pub fn read_command(line: &[u8]) -> Command
    ensures { result ≡ command_of line.now }
{
    match line {
        [letter] if *letter == b'G' => Command::Split,
        [letter, gap, fields @ ..] if *letter != b' ' && *gap == b' ' => match find(fields, b' ') {
            Some(end) => command_of(*letter, &fields[..end], &fields[end + 1..]),
            None => Command::Unknown,
        },
        _ => Command::Unknown,
    }
}
