//! Teletext rows.
ghost use Rattle.std.specs.Prelude.{◌≡◌, ◌<◌};
ghost use Rattle.raster.specs.Text.{first_text, text_at, text_after, text_past};
ghost use Rattle.raster.specs.CodeSteps.{cell_on};

use crtc6845::Beam;
use saa5050::{GlyphTable, RowState};
use std::marker::Model;

#[derive(Drop)]
pub(crate) struct Text {
    codes: RowState,
    // The row shows the lower halves of double-height characters.
    bottom: bool,
    // One of the row's lines had a code for double height.
    doubled: bool,
}

impl Model for Text {
    ghost use Rattle.raster.specs.Text.{Text};

    ghost Value = { Text };

    ghost view = { λ t. record { codes = t.codes; bottom = t.bottom; doubled = t.doubled } };
}

impl Text {
    pub(crate) fn first() -> Text
        ensures { result ≡ first_text }
    {
        Text {
            codes: RowState::start(),
            bottom: false,
            doubled: false,
        }
    }

    /// Moves to a character. At the start of a line the codes start again.
    pub(crate) fn meet(&mut self, beam: &Beam)
        ensures { self.new ≡ text_at beam.now self.old }
    {
        if beam.line_start {
            self.codes = RowState::start();
        }
    }

    /// Takes the code of a shown character, and stores its sixteen colours in `to`.
    #[inline(always)]
    #[tactic(auto, unfolding(crate::specs::Text::codes_after, crate::specs::CodeSteps::cell_on))]
    pub(crate) fn put(
        &mut self,
        font: &GlyphTable,
        code: u8,
        ra: u8,
        fields: u32,
        to: &mut [u8; 16],
    )
        requires { code < 128 }
        ensures state { self.new ≡ text_after code self.old }
        ensures colours { to.new ≡ cell_on font.now.font code ra fields self.old }
    {
        self.codes.put(font, code, ra, self.bottom, fields, to);
        if self.codes.had_double() {
            self.doubled = true;
        }
    }

    /// Moves past the character. The row or the frame may end with it.
    pub(crate) fn pass(&mut self, beam: &Beam)
        ensures { self.new ≡ text_past beam.now self.old }
    {
        if beam.restart {
            self.bottom = false;
            self.doubled = false;
        } else if beam.row_end {
            self.bottom = !self.bottom && self.doubled;
            self.doubled = false;
        }
    }
}
