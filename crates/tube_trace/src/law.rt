//! Laws over the definitions: what is written reads back.
ghost use Rattle.tube_trace.specs.Laws.{LineReadsBack, OnlyLineReads, TextReadsBack, OnlyTextReads};

use digits::hex_reads_back;

/// The line of an entry is read as that entry, and no other bytes are. Likewise the text of a clock
/// and of entries that rise.
pub fn text_reads_back()
    ensures line { LineReadsBack }
    ensures only_line { OnlyLineReads }
    ensures text { TextReadsBack }
    ensures only_text { OnlyTextReads }
{
    hex_reads_back();
}
