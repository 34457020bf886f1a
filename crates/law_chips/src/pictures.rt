//! The picture: the 6845 and the raster.
ghost use Rattle.law_chips.specs.CrtcBits.{RegistersHaveTheirBits, RastersHaveTheirBits};
ghost use Rattle.law_chips.specs.Colours.{DotsAreColours};
ghost use Rattle.law_chips.specs.ShownBytes.{CharactersAreShown, FramesShowTheirBytes, RestIsBlack};
ghost use Rattle.law_chips.specs.ShownBytes.{MicrosecondsAreClocks};
ghost use Rattle.law_chips.specs.TeletextCells.{CellsShowTheirCodes};
ghost use Rattle.law_chips.specs.TeletextFrames.{FramesShowTheirCells, RestOfPageIsBlack, LowerRowsFollow};

/// Each run from power-on leaves the registers of a 6845 within their bits, and those of a raster's
/// 6845 too. The laws over whole frames need this.
pub fn registers_have_their_bits()
    ensures chip { RegistersHaveTheirBits }
    ensures raster { RastersHaveTheirBits }
{}

/// In each run from power-on, each dot of both frames is a colour from 0 to 7.
pub fn dots_are_colours()
    ensures { DotsAreColours }
{}

/// The 6845 shows the first R1 characters of the first R6 rows, each line on its raster.
pub fn characters_are_shown()
    ensures { CharactersAreShown }
{
    crtc6845::lines_have_their_characters();
    crtc6845::frames_have_their_clocks();
}

/// A microsecond has one character clock, or two at 2 MHz.
pub fn microseconds_are_clocks()
    ensures { MicrosecondsAreClocks }
{}

/// In bit-mapped modes, while no register is written, each dot of a displayed character has in the
/// finished frame the colour of its byte. Each other dot is black.
pub fn frames_show_their_bytes()
    ensures bytes { FramesShowTheirBytes }
    ensures rest { RestIsBlack }
{
    crtc6845::lines_have_their_characters();
    crtc6845::sync_comes_in_each_line();
    crtc6845::vertical_sync_comes_in_each_frame();
    crtc6845::shown_addresses_count();
    characters_are_shown();
}

/// On each line of a teletext row, a cell is shown by its own code and the codes before it in the
/// row.
pub fn cells_show_their_codes()
    ensures { CellsShowTheirCodes }
{
    saa5050::row_is_fold();
}

/// In teletext mode, while no register is written, each dot of a displayed character has in the
/// finished frame the colour that the codes up to its cell give it. Each other dot is black.
pub fn frames_show_their_cells()
    ensures cells { FramesShowTheirCells }
    ensures rest { RestOfPageIsBlack }
{
    crtc6845::lines_have_their_characters();
    crtc6845::sync_comes_in_each_line();
    crtc6845::vertical_sync_comes_in_each_frame();
    crtc6845::shown_addresses_count();
    saa5050::row_is_fold();
    cells_show_their_codes();
    characters_are_shown();
}

/// A row is the lower row of double height if the row above is not one and has the double-height
/// code on one of its lines.
pub fn lower_rows_follow()
    ensures { LowerRowsFollow }
{
    crtc6845::lines_have_their_characters();
    crtc6845::frames_have_their_clocks();
    crtc6845::shown_addresses_count();
    characters_are_shown();
}
