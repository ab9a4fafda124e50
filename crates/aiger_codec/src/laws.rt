//! What is true of the spellings: each is read again, and nothing else is read.
ghost use Rattle.aiger_codec.specs.Laws.{NumberIsSpelled, SpelledNumberIsRead, LineIsSpelled, SpelledLineIsRead, DeltaIsSpelled, SpelledDeltaIsRead, ShortestIsSpelled, NoneIsShorter, HeaderIsSpelled, SpelledHeaderIsRead, SymbolsAreSpelled, SpelledSymbolsAreRead};

/// Decimal numbers and lines of them, both ways.
pub fn numbers_and_lines()
    ensures number { NumberIsSpelled }
    ensures number_again { SpelledNumberIsRead }
    ensures line { LineIsSpelled }
    ensures line_again { SpelledLineIsRead }
{}

/// Numbers of the binary form, both ways, and which spelling of them is written.
pub fn binary_numbers()
    ensures read { DeltaIsSpelled }
    ensures read_again { SpelledDeltaIsRead }
    ensures written { ShortestIsSpelled }
    ensures shortest { NoneIsShorter }
{}

/// The header, both ways.
pub fn headers()
    ensures read { HeaderIsSpelled }
    ensures read_again { SpelledHeaderIsRead }
{}

/// Symbol lines up to the end or a comment, both ways.
pub fn symbol_lines()
    ensures read { SymbolsAreSpelled }
    ensures read_again { SpelledSymbolsAreRead }
{}
