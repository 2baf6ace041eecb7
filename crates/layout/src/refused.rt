// Why a call is refused. The number of each is the reply for C; `specs/Replies/Refused.antt` has them all.
ghost use Rattle.std.specs.Prelude.{◌≡◌, ◌<◌};
ghost use Rattle.layout.specs.Replies.Refused.{number};

use std::error::Error;
use std::fmt;

// The refusals, in the order of their numbers.
#[derive(Clone, Copy, Debug, PartialEq, Eq)]
pub enum Refused {
    Table,
    Client,
    Record,
    Header,
    Ahead,
    Bucket,
    Held,
    Full,
    NoRoom,
    Visits,
    Matches,
    Figures,
    Lengths,
    Threshold,
}

impl Refused {
    // Its number.
    pub fn number(self) -> u8
        ensures { result ≡ number self }
    {
        match self {
            Refused::Table => 2,
            Refused::Client => 3,
            Refused::Record => 4,
            Refused::Header => 5,
            Refused::Ahead => 6,
            Refused::Bucket => 7,
            Refused::Held => 8,
            Refused::Full => 9,
            Refused::NoRoom => 10,
            Refused::Visits => 11,
            Refused::Matches => 12,
            Refused::Figures => 13,
            Refused::Lengths => 14,
            Refused::Threshold => 15,
        }
    }
}

impl fmt::Display for Refused {
    fn fmt<W: fmt::Write>(&self, f: &mut fmt::Formatter<W>) -> fmt::Result {
        f.write_str(match self {
            Refused::Table => "the client table's length is not one",
            Refused::Client => "there is no such client",
            Refused::Record => "the client's record is unsound",
            Refused::Header => "the file's header is unsound",
            Refused::Ahead => "the client believes in more buckets than there are",
            Refused::Bucket => "a bucket is unsound",
            Refused::Held => "the key is held already",
            Refused::Full => "the key's bucket has no free slot",
            Refused::NoRoom => "the file has its most buckets",
            Refused::Visits => "the visit list is too short",
            Refused::Matches => "the match list is too short",
            Refused::Figures => "the figures are not those of a file of this length",
            Refused::Lengths => "the answer block or the payload has another length",
            Refused::Threshold => "the threshold is out of range",
        })
    }
}

impl Error for Refused {}
