//! Laws on what a file means. Each function has an empty body; its contract is the law.
ghost use Rattle.aiger_file.specs.Grammar.{FileIsSpelled, SpelledFileIsRead};
ghost use Rattle.aiger_file.specs.Written.{WrittenTextIsRead, WrittenBinaryIsSpelled, WrittenBinaryIsRead};
ghost use Rattle.aiger_file.specs.Readings.{HasOneReading, OneNetlist, OneFirstFault, NeverBoth};

/// Each list of bytes has a netlist or a first fault, only one, and never both.
pub fn one_reading()
    ensures comes { HasOneReading }
    ensures one_netlist { OneNetlist }
    ensures one_fault { OneFirstFault }
    ensures never_both { NeverBoth }
{}

/// What is accepted is a file of the format, text or binary, and each file of the format is accepted.
pub fn spelled_files()
    ensures is_spelled { FileIsSpelled }
    ensures is_read { SpelledFileIsRead }
{}

/// The text that is written of a netlist is accepted as that netlist.
pub fn written_text_is_read()
    ensures { WrittenTextIsRead }
{}

/// The bytes that are written of a netlist are a binary file of the format, and accepted as that netlist, numbered anew.
pub fn written_binary_is_read()
    ensures is_spelled { WrittenBinaryIsSpelled }
    ensures is_read { WrittenBinaryIsRead }
{}
