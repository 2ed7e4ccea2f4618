// Why a call is refused. In a clause a refusal is its number, which is all that the definitions speak of.
ghost use Rattle.std.specs.Prelude.{◌≡◌};
ghost use Rattle.qcow2_spec.specs.Causes.{number, cause_of};

use std::marker::Model;

// In the order of their numbers, 1 to 22. Papers 01 and 02, "Numbers the desk gives back".
#[derive(Clone, Copy, Debug, PartialEq, Eq)]
pub enum Cause {
    TooShort,
    Magic,
    Version,
    ClusterBits,
    Length,
    Unsupported,
    Features,
    DiskSize,
    Tables,
    TableEntry,
    Range,
    Entry,
    Compressed,
    NoRoom,
    Scratch,
    Uncounted,
    Damaged,
    Sectors,
    Backing,
    NoMark,
    Snapshots,
    Common,
}

// The cause of a refusal.
#[derive(Clone, Copy, Debug, PartialEq, Eq)]
pub struct Refusal {
    cause: Cause,
}

impl Model for Refusal {
    ghost use Rattle.std.specs.Prelude.{ℕ};
    ghost use Rattle.qcow2_spec.specs.Causes.{number, cause_of, cause_back};

    ghost Value = { ℕ };

    ghost view = { λ r. number r.cause };

    ghost inverse = { λ n. record { cause = cause_of n } };

    ghost inverse_ok = { λ a h. cause_back a };
}

impl From<Cause> for Refusal {
    ghost from_gives = { λ c r. r ≡ number c };

    fn from(cause: Cause) -> Refusal {
        Refusal { cause }
    }
}

impl Refusal {
    // Why.
    pub fn cause(self) -> Cause
        ensures { self ≡ number result }
    {
        self.cause
    }

    // The refusal of a number; 22 for one that no cause has.
    pub fn of(k: u8) -> Refusal
        ensures { result ≡ number (cause_of k) }
    {
        match k {
            1 => Cause::TooShort.into(),
            2 => Cause::Magic.into(),
            3 => Cause::Version.into(),
            4 => Cause::ClusterBits.into(),
            5 => Cause::Length.into(),
            6 => Cause::Unsupported.into(),
            7 => Cause::Features.into(),
            8 => Cause::DiskSize.into(),
            9 => Cause::Tables.into(),
            10 => Cause::TableEntry.into(),
            11 => Cause::Range.into(),
            12 => Cause::Entry.into(),
            13 => Cause::Compressed.into(),
            14 => Cause::NoRoom.into(),
            15 => Cause::Scratch.into(),
            16 => Cause::Uncounted.into(),
            17 => Cause::Damaged.into(),
            18 => Cause::Sectors.into(),
            19 => Cause::Backing.into(),
            20 => Cause::NoMark.into(),
            21 => Cause::Snapshots.into(),
            _ => Cause::Common.into(),
        }
    }

    // The number that a caller in C is told.
    pub fn number(self) -> u8
        ensures { result ≡ self }
    {
        match self.cause {
            Cause::TooShort => 1,
            Cause::Magic => 2,
            Cause::Version => 3,
            Cause::ClusterBits => 4,
            Cause::Length => 5,
            Cause::Unsupported => 6,
            Cause::Features => 7,
            Cause::DiskSize => 8,
            Cause::Tables => 9,
            Cause::TableEntry => 10,
            Cause::Range => 11,
            Cause::Entry => 12,
            Cause::Compressed => 13,
            Cause::NoRoom => 14,
            Cause::Scratch => 15,
            Cause::Uncounted => 16,
            Cause::Damaged => 17,
            Cause::Sectors => 18,
            Cause::Backing => 19,
            Cause::NoMark => 20,
            Cause::Snapshots => 21,
            Cause::Common => 22,
        }
    }
}
