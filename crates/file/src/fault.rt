// Why a call on a file is refused, where a 7 may name the unsound region.
ghost use Rattle.std.specs.Prelude.{◌≡◌};
ghost use Rattle.file.specs.File.Fault.{fault_number, fault_region};
ghost use Rattle.file.specs.declared.fault.Fault.TheVariants.{Plain};

use layout::Refused;
use std::error::Error;
use std::fmt;

// A refusal that names nothing, or 7 with the unsound region.
#[derive(Clone, Copy, Debug, PartialEq, Eq)]
pub enum Fault {
    Plain(Refused),
    Region(u32),
}

impl Fault {
    // Its number, 7 of an unsound region.
    pub fn number(self) -> u32
        ensures { result ≡ fault_number self }
    {
        match self {
            Fault::Plain(refused) => u32::from(refused.number()),
            Fault::Region(_) => u32::from(Refused::Bucket.number()),
        }
    }

    // The unsound region; with other refusals none.
    pub fn region(self) -> u32
        ensures { result ≡ fault_region self }
    {
        match self {
            Fault::Plain(_) => address::NO_BUCKET,
            Fault::Region(region) => region,
        }
    }
}

impl From<Refused> for Fault {
    ghost from_gives = { λ refused fault. fault ≡ Plain refused };

    fn from(refused: Refused) -> Fault {
        Fault::Plain(refused)
    }
}

impl fmt::Display for Fault {
    fn fmt<W: fmt::Write>(&self, f: &mut fmt::Formatter<W>) -> fmt::Result {
        match self {
            Fault::Plain(refused) => write!(f, "{refused}"),
            Fault::Region(region) => write!(f, "region {region} is unsound"),
        }
    }
}

impl Error for Fault {}
