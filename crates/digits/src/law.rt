//! Laws over the definitions of digits.
ghost use Rattle.digits.specs.Laws.{HexDigitsAreHex, HexReadsBack, OnlyHexDigitsRead, DecimalReadsBack, OnlyDecimalReads};

/// States that the hexadecimal digits of a number are read as that number if they are enough for
/// it. A text of upper-case digits is the text written of its number.
pub fn hex_reads_back()
    ensures digits { HexDigitsAreHex }
    ensures back { HexReadsBack }
    ensures only { OnlyHexDigitsRead }
{}

/// States that the decimal text of a number is read as that number, and that no other text is.
pub fn decimal_reads_back()
    ensures back { DecimalReadsBack }
    ensures only { OnlyDecimalReads }
{}
