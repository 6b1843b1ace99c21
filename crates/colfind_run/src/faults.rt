//! The faults that end the program, and the line on standard error that reports each.
ghost use Rattle.std.specs.Prelude.{◌≡◌};
ghost use Rattle.colfind_run.specs.declared.faults.Stop.TheVariants.{Words, File, Table, Pattern};

use crate::words::SettingsFault;
use colfind_io::{FileFault, Line, push_number};
use collation_pattern::PatternFault;
use collation_search::TextFault;
use collation_table::TableFault;

/// Memory was refused for the words of the command line or for the search.
pub const MEMORY: u8 = 36;

/// Memory was refused while the table file or the tailor file was read.
pub const TABLE_MEMORY: u8 = 14;

/// The text file could not be opened, or the text not be read further.
pub const READ: u8 = 41;

/// The ranges could not be written.
pub const WRITE: u8 = 42;

/// The table file could not be opened or read.
pub const TABLE_FILE: u8 = 43;

/// The tailor file could not be opened or read.
pub const TAILOR_FILE: u8 = 44;

/// Why the program has ended without an answer, or before the end of one.
#[derive(Clone, Copy, Debug, PartialEq, Eq)]
pub enum Fault {
    /// The words are not those of the command.
    Usage,
    /// The kind of a fault, and where it stands: for a fault in the table file or the tailor file its
    /// line, counted from 1; for one in the text, or of its reader, a byte offset from the start of the text.
    /// It is 0 where the fault has no such place.
    At(u8, u64),
}

/// Why the program has ended without an answer, by where in the order of its work that was: the
/// words, the table file, the tailor file, the table, the pattern, the text file, the text.
#[derive(Clone, Copy, Debug, PartialEq, Eq)]
pub enum Stop {
    /// The words of the command line.
    Words(SettingsFault),
    /// The table file could not be opened or read, or memory was refused for its bytes.
    File(FileFault),
    /// The tailor file could not be opened or read, or memory was refused for its bytes.
    Tailor(FileFault),
    /// The bytes of the table file and the tailor file.
    Table(TableFault),
    /// The pattern.
    Pattern(PatternFault),
    /// The text file could not be opened.
    TextFile,
    /// The text.
    Text(TextFault),
    /// The text could not be read further, after so many bytes.
    Read(u64),
    /// The ranges could not be written.
    Write,
    /// Memory was refused for the search.
    Memory,
}

impl From<SettingsFault> for Stop {
    ghost from_gives = { λ fault stop. stop ≡ Words fault };

    fn from(fault: SettingsFault) -> Stop {
        Stop::Words(fault)
    }
}

impl From<FileFault> for Stop {
    ghost from_gives = { λ fault stop. stop ≡ File fault };

    fn from(fault: FileFault) -> Stop {
        Stop::File(fault)
    }
}

impl From<TableFault> for Stop {
    ghost from_gives = { λ fault stop. stop ≡ Table fault };

    fn from(fault: TableFault) -> Stop {
        Stop::Table(fault)
    }
}

impl From<PatternFault> for Stop {
    ghost from_gives = { λ fault stop. stop ≡ Pattern fault };

    fn from(fault: PatternFault) -> Stop {
        Stop::Pattern(fault)
    }
}

impl Stop {
    ghost use Rattle.colfind_run.specs.Faults.{fault_of};

    /// The fault that is reported for it.
    pub fn fault(self) -> Fault
        ensures { result ≡ fault_of self }
    {
        match self {
            Stop::Words(SettingsFault::Usage) => Fault::Usage,
            Stop::Words(SettingsFault::Memory) => Fault::At(MEMORY, 0),
            Stop::File(FileFault::Device) => Fault::At(TABLE_FILE, 0),
            Stop::File(FileFault::Memory) => Fault::At(TABLE_MEMORY, 0),
            Stop::Tailor(FileFault::Device) => Fault::At(TAILOR_FILE, 0),
            Stop::Tailor(FileFault::Memory) => Fault::At(TABLE_MEMORY, 0),
            Stop::Table(fault) => Fault::At(fault.kind, fault.line),
            Stop::Pattern(fault) => Fault::At(fault.kind, 0),
            Stop::TextFile => Fault::At(READ, 0),
            Stop::Text(fault) => Fault::At(fault.kind, fault.offset),
            Stop::Read(count) => Fault::At(READ, count),
            Stop::Write => Fault::At(WRITE, 0),
            Stop::Memory => Fault::At(MEMORY, 0),
        }
    }
}

impl Fault {
    ghost use Rattle.colfind_run.specs.Faults.{fault_line};

    /// The line that reports it.
    pub fn line(self) -> Line
        ensures { result.bytes ≡ fault_line self }
    {
        let mut line = Line::new();
        match self {
            Fault::Usage => line.push_str("colfind: usage\n"),
            Fault::At(kind, place) => {
                line.push_str("colfind: fault ");
                push_number(&mut line, u64::from(kind));
                line.push_str(" at ");
                push_number(&mut line, place);
                line.push_str("\n");
            }
        }
        line
    }
}
