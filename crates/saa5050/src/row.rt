//! A row of codes.
ghost use Rattle.std.specs.Prelude.{◌≡◌, ◌≤◌, ◌<◌};
ghost use Rattle.saa5050.specs.Row.{row_start, row_after, cell, styled_cell};

use crate::dots::{half_dots, pixels};
use crate::glyphs::GlyphTable;
use crate::style::Style;
use std::marker::Model;

/// The state after some codes of a teletext row, for the cells to come.
#[derive(Drop)]
pub struct RowState {
    style: Style,
    had_double: bool,
}

impl Model for RowState {
    ghost use Rattle.saa5050.specs.Row.{Row};

    ghost Value = { Row };

    ghost view = { λ s. record { style = s.style; had_double = s.had_double } };
}

// Returns the pixels of the cell of a code, with the cell's style.
#[inline(always)]
fn styled_cell(
    style: &Style,
    font: &GlyphTable,
    code: u8,
    ra: u8,
    bottom: bool,
    fields: u32,
) -> [u8; 16]
    requires { code < 0x80 }
    ensures { result ≡ styled_cell font.now.font code ra bottom fields style.now }
{
    let dots = half_dots(style, font, code, ra, bottom, fields);
    pixels(dots, style.foreground, style.background)
}

impl RowState {
    /// Returns the state at a row's start: white letters on black, steady, not concealed, of normal
    /// height.
    pub fn start() -> RowState
        ensures { result ≡ row_start }
    {
        RowState {
            style: Style::plain(),
            had_double: false,
        }
    }

    /// Takes the next code of the row, below 80, and stores the sixteen colours of its cell on the
    /// scan line `ra`, the leftmost first. If `bottom`, the row shows the lower halves of the row
    /// above. The number of fields times the flashing.
    #[inline(always)]
    pub fn put(
        &mut self,
        font: &GlyphTable,
        code: u8,
        ra: u8,
        bottom: bool,
        fields: u32,
        to: &mut [u8; 16],
    )
        requires { code < 0x80 }
        ensures row { self.new ≡ row_after code self.old }
        ensures cell { to.new ≡ cell font.now.font code ra bottom fields self.old }
    {
        if code < 0x20 {
            self.put_control(font, code, ra, bottom, fields, to);
        } else {
            self.put_character(font, code, ra, bottom, fields, to);
        }
    }

    // Takes any code.
    #[inline(never)]
    #[tactic(auto, using(crate::proofs::Codes::in_two_parts))]
    fn put_control(
        &mut self,
        font: &GlyphTable,
        code: u8,
        ra: u8,
        bottom: bool,
        fields: u32,
        to: &mut [u8; 16],
    )
        requires { code < 0x80 }
        ensures row { self.new ≡ row_after code self.old }
        ensures cell { to.new ≡ cell font.now.font code ra bottom fields self.old }
    {
        self.style.come_to(code);
        *to = styled_cell(&self.style, font, code, ra, bottom, fields);
        self.style.leave(code);
        self.had_double = self.had_double || code == 0x0d;
    }

    // Takes a code that is no control code.
    #[inline(always)]
    #[tactic(auto, using(crate::proofs::Codes::kept_in_its_cell, crate::proofs::Codes::none_for_double))]
    fn put_character(
        &mut self,
        font: &GlyphTable,
        code: u8,
        ra: u8,
        bottom: bool,
        fields: u32,
        to: &mut [u8; 16],
    )
        requires { (0x20 ≤ code) × (code < 0x80) }
        ensures row { self.new ≡ row_after code self.old }
        ensures cell { to.new ≡ cell font.now.font code ra bottom fields self.old }
    {
        *to = styled_cell(&self.style, font, code, ra, bottom, fields);
        self.style.take(code);
    }

    /// Reports if one of the codes was 0D, double height.
    #[inline(always)]
    pub fn had_double(&self) -> bool
        ensures { result ≡ self.now.had_double }
    {
        self.had_double
    }
}
