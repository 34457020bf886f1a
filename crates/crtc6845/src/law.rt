//! Laws over whole frames.
ghost use Rattle.crtc6845.specs.Laws.{LinesHaveTheirCharacters, SyncComesInEachLine, FramesHaveTheirClocks};
ghost use Rattle.crtc6845.specs.Rests.{ClocksAtRestAreAlike};
ghost use Rattle.crtc6845.specs.Pictures.{VerticalSyncComesInEachFrame, NoSyncBeyondTheRows, VerticalSyncHasItsLines, ShownAddressesCount};

/// States that a line has R0 + 1 characters.
pub fn lines_have_their_characters()
    ensures { LinesHaveTheirCharacters }
{}

/// States that horizontal sync begins at character R2 of each line, if the line has that character.
pub fn sync_comes_in_each_line()
    ensures { SyncComesInEachLine }
{}

/// States that a frame has R4 + 1 rows and then R5 adjust lines, each of R0 + 1 characters.
pub fn frames_have_their_clocks()
    ensures { FramesHaveTheirClocks }
{}

/// States that vertical sync begins, and a frame is finished, at the first character of row R7 of
/// each frame. R7 must be at most R4, a frame must have at least the lines of vertical sync, and an
/// earlier sync must be over by then.
pub fn vertical_sync_comes_in_each_frame()
    ensures { VerticalSyncComesInEachFrame }
{}

/// States that vertical sync never begins if R7 is above R4.
pub fn no_sync_beyond_the_rows()
    ensures { NoSyncBeyondTheRows }
{}

/// States the address of a shown character, from a frame on that begins at the start address. It is
/// that address, plus R1 for each row above, plus one for each character before it in its line, in
/// 14 bits.
pub fn shown_addresses_count()
    ensures { ShownAddressesCount }
{}

/// States that vertical sync is on in the lines from row R7 on, and in no others, if it ends within
/// the frame. Their number is the high digit of R3, or 16 if that is 0.
pub fn vertical_sync_has_its_lines()
    ensures { VerticalSyncHasItsLines }
{}

/// States that a clock of a quiet chip changes only the state of vertical sync, and has the outputs
/// of each such clock.
pub fn clocks_at_rest_are_alike()
    ensures { ClocksAtRestAreAlike }
{}
