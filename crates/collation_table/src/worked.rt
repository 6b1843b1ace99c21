//! Worked tables: small files with their faults and sizes, and look-ups in them, as the definitions give them, proved by computing.

ghost use Rattle.collation_table.specs.WorkedTables.{LineFaults, RowFaults, RangeFaults, TableFaults, AcceptedTables, TailoredTables, TailoredFaults, TableLimits, ImplicitWeights, LongestPrefixes, Classes};

/// Lines that can't be read, and which of several faults is reported.
pub fn faults_of_lines()
    ensures { LineFaults }
{}

/// Entry lines that break a condition.
pub fn faults_of_rows()
    ensures { RowFaults }
{}

/// Range lines that break a condition.
pub fn faults_of_ranges()
    ensures { RangeFaults }
{}

/// Files whose lines are each right, with what the whole table breaks.
pub fn faults_of_tables()
    ensures { TableFaults }
{}

/// Files with no fault, with the sizes of their longest mapped string and largest row.
pub fn accepted_tables()
    ensures { AcceptedTables }
{}

/// Files with a tailor that have no fault.
pub fn tailored_tables()
    ensures { TailoredTables }
{}

/// Files with a tailor, with the fault that they have.
pub fn faults_of_tailored_tables()
    ensures { TailoredFaults }
{}

/// The greatest numbers of code points of a mapped string, of elements of a row, of rows and of ranges.
pub fn limits()
    ensures { TableLimits }
{}

/// Implicit weights of ideographs, of other code points and of ranges (UTS #10, section 10.1.3).
pub fn implicit_weights()
    ensures { ImplicitWeights }
{}

/// The longest prefix of a list of code points that is mapped (UTS #10, S2.1).
pub fn longest_prefixes()
    ensures { LongestPrefixes }
{}

/// Canonical combining classes of code points of a mapped string.
pub fn classes()
    ensures { Classes }
{}
