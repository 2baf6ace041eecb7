// The text that the program prints: answers written as lines. Bytes and numbers only; `specs/Lines.antt` has
// the lines.
#![tactic(auto)]

ghost use Rattle.std.specs.Prelude.{◌≡◌, [], ◌∷◌, ◌+◌, ◌≤◌, ◌<◌, min, length};
ghost use Rattle.lines.specs.Bytes.{greater};
ghost use Rattle.lines.specs.Lines.{decimal, each_after, joined, unknown_line, heading, answer_line, ride_line};
ghost use Rattle.lines.specs.Lines.{split_route, split_line, scanned, scan_line, line_room};
ghost use Rattle.lines.specs.Text.{Puts, PutsLine};

// How many buckets a route has by its answer block, at most three.
fn route_count(count: u8) -> usize
    ensures { result ≡ min count 3 }
{
    usize::from(count).min(3)
}

// A text that is being written: its buffer, and the place after what is written.
#[derive(Drop)]
pub struct Text<'a> {
    out: &'a mut [u8],
    at: usize,
}

impl<'a> Text<'a> {
    // A text that is written from a place of a buffer on.
    pub fn new(out: &'a mut [u8], at: usize) -> Text<'a>
        ensures same { result.out.ghost_name ≡ out.entry.ghost_name }
        ensures bytes { result.out.now ≡ out.old }
        ensures start { result.at ≡ at }
    {
        Text { out, at }
    }

    // The place after what is written.
    pub fn end(&self) -> usize
        ensures { result ≡ self.now.at }
    {
        let Text { at, .. } = self;
        *at
    }

    // Writes one byte.
    fn put_byte(&mut self, byte: u8)
        requires { self.old.at < length self.old.out.now }
        ensures { Puts (byte ∷ []) self.old self.new }
    {
        self.out[self.at] = byte;
        self.at += 1;
    }

    // Writes a number's decimal digits.
    fn put_number(&mut self, x: u64)
        requires { self.old.at + length (decimal x) ≤ length self.old.out.now }
        ensures { Puts (decimal x) self.old self.new }
    {
        if x < 10 {
            self.put_byte(b'0' + x as u8);
            return;
        }
        self.put_number(x / 10);
        self.put_byte(b'0' + (x % 10) as u8);
    }

    // Writes each number after a separator.
    fn put_each(&mut self, separator: u8, numbers: &[u16])
        requires { self.old.at + length (each_after separator numbers.now) ≤ length self.old.out.now }
        ensures { Puts (each_after separator numbers.now) self.old self.new }
    {
        for number in numbers {
            self.put_byte(separator);
            self.put_number(u64::from(*number));
        }
    }

    // Writes numbers with a separator between them, or `-` if there is none.
    fn put_joined(&mut self, separator: u8, numbers: &[u16])
        requires { self.old.at + length (joined separator numbers.now) ≤ length self.old.out.now }
        ensures { Puts (joined separator numbers.now) self.old self.new }
    {
        match numbers {
            [] => self.put_byte(b'-'),
            [first, others @ ..] => {
                self.put_number(u64::from(*first));
                self.put_each(separator, others);
            }
        }
    }

    // Writes the line of an unknown command.
    pub fn put_unknown(&mut self)
        requires { self.old.at + line_room 0 ≤ length self.old.out.now }
        ensures { PutsLine (line_room 0) unknown_line self.old self.new }
    {
        self.put_byte(b'?');
        self.put_byte(b'\n');
    }

    // Writes what a line begins with: the letter and the reply.
    fn put_heading(&mut self, letter: u8, reply: u32)
        requires { self.old.at + length (heading letter reply) ≤ length self.old.out.now }
        ensures { Puts (heading letter reply) self.old self.new }
    {
        self.put_byte(letter);
        self.put_byte(b' ');
        self.put_number(u64::from(reply));
        self.put_byte(b' ');
    }

    // Writes the line of a reply and a route.
    fn put_answer(&mut self, letter: u8, reply: u32, route: &[u16])
        requires { self.old.at + line_room (length route.now) ≤ length self.old.out.now }
        ensures { PutsLine (line_room (length route.now)) (answer_line letter reply route.now) self.old self.new }
    {
        self.put_heading(letter, reply);
        self.put_joined(b'>', route);
        self.put_byte(b'\n');
    }

    // Writes the line of an insert or a search, by its answer block.
    pub fn put_ride(&mut self, letter: u8, answer: &[u8])
        requires { (length answer.now ≡ 24) × (self.old.at + line_room 3 ≤ length self.old.out.now) }
        ensures { PutsLine (line_room 3) (ride_line letter answer.now) self.old self.new }
    {
        let route = [
            layout::read::<2>(answer, 2) as u16,
            layout::read::<2>(answer, 4) as u16,
            layout::read::<2>(answer, 6) as u16,
        ];
        let count = route_count(answer[1]);
        self.put_answer(letter, u32::from(answer[0]), &route[..count]);
    }

    // Writes the buckets of a split: the old and the new, or `-` if it was refused.
    fn put_buckets(&mut self, reply: u32, old: u32, new: u32)
        requires { self.old.at + length (joined greater (split_route reply old new)) ≤ length self.old.out.now }
        ensures { Puts (joined greater (split_route reply old new)) self.old self.new }
    {
        if reply != 0 {
            self.put_byte(b'-');
            return;
        }
        self.put_number(u64::from(old));
        self.put_byte(b'>');
        self.put_number(u64::from(new));
    }

    // Writes the line of a split.
    pub fn put_split(&mut self, reply: u32, old: u32, new: u32)
        requires { self.old.at + line_room 2 ≤ length self.old.out.now }
        ensures { PutsLine (line_room 2) (split_line reply old new) self.old self.new }
    {
        self.put_heading(b'G', reply);
        self.put_buckets(reply, old, new);
        self.put_byte(b'\n');
    }

    // Writes what a scan's line has after the reply: the visits and the match count, or `-` if it was refused.
    fn put_scanned(&mut self, reply: u32, visits: &[u16], matches: u32)
        requires { self.old.at + length (scanned reply visits.now matches) ≤ length self.old.out.now }
        ensures { Puts (scanned reply visits.now matches) self.old self.new }
    {
        if reply != 0 {
            self.put_byte(b'-');
            return;
        }
        self.put_joined(b',', visits);
        self.put_byte(b' ');
        self.put_number(u64::from(matches));
    }

    // Writes the line of a scan.
    pub fn put_scan(&mut self, reply: u32, visits: &[u16], matches: u32)
        requires { self.old.at + line_room (length visits.now) ≤ length self.old.out.now }
        ensures { PutsLine (line_room (length visits.now)) (scan_line reply visits.now matches) self.old self.new }
    {
        self.put_heading(b'A', reply);
        self.put_scanned(reply, visits, matches);
        self.put_byte(b'\n');
    }
}
