//! The style of the cells to come, by the control codes of a row.
ghost use Rattle.std.specs.Prelude.{◌≡◌, ◌<◌};
ghost use Rattle.saa5050.specs.Controls.{plain, glyphs, graphics, normal_height, double_height, controls, effect_of, holds_at_once};
ghost use Rattle.saa5050.specs.Row.{is_sixel, sixel_of, held_shape, style_at, style_after, shape_of, shape_line, is_blank};
ghost use Rattle.saa5050.specs.CodeSteps.{style_past, is_special};
ghost use Rattle.saa5050.specs.CodeDots.{IsInFont};

/// The lines of a cell.
const LINES: u8 = 20;

/// A block of six parts, turned on by the bits of a code, with or without gaps between them.
#[derive(Clone, Copy)]
pub struct Sixel {
    pub code: u8,
    pub separated: bool,
}

/// The shape in a cell.
#[derive(Clone, Copy)]
pub enum Shape {
    /// Nothing.
    Blank,
    /// The font's shape of a code.
    Letter(u8),
    /// A block of graphics.
    Graphic(Sixel),
}

/// The style of the cells to come.
#[derive(Clone, Copy)]
pub struct Style {
    /// The colours, by their numbers from 0 to 7.
    pub foreground: u8,
    pub background: u8,
    /// Codes are graphics, otherwise letters.
    pub graphics: bool,
    pub flashing: bool,
    pub concealed: bool,
    /// Double height.
    pub double: bool,
    /// Graphics have gaps between their parts.
    pub separated: bool,
    /// Control codes show the held shape, which is blank if there is none.
    pub holding: bool,
    pub held: Option<Sixel>,
}

/// Reports if a control code is set-at: it holds from its own cell on.
#[inline(always)]
fn holds_at_once(code: u8) -> bool
    ensures { result ≡ holds_at_once controls code }
{
    matches!(code, 0x09 | 0x0c | 0x18 | 0x19 | 0x1a | 0x1c | 0x1d | 0x1e)
}

/// Reports if the code is a sixel in graphics.
#[inline(always)]
fn is_sixel(code: u8) -> bool
    ensures { result ≡ is_sixel code }
{
    matches!(code, 0x20..=0x3f | 0x60..=0x7f)
}

// Returns the held shape as that of a cell.
fn held_shape(held: Option<Sixel>) -> Shape
    ensures shape { result ≡ held_shape held }
    ensures letter { IsInFont result }
{
    match held {
        Some(sixel) => Shape::Graphic(sixel),
        None => Shape::Blank,
    }
}

impl Style {
    /// Returns the style at a row's start.
    pub(crate) fn plain() -> Style
        ensures { result ≡ plain }
    {
        Style {
            foreground: 7,
            background: 0,
            graphics: false,
            flashing: false,
            concealed: false,
            double: false,
            separated: false,
            holding: false,
            held: None,
        }
    }

    // Selects letters, in the colour of a code.
    fn glyphs(&mut self, code: u8)
        ensures { self.new ≡ glyphs code self.old }
    {
        self.graphics = false;
        self.foreground = code % 8;
        self.concealed = false;
        self.held = None;
    }

    // Selects graphics, in the colour of a code.
    fn graphics(&mut self, code: u8)
        ensures { self.new ≡ graphics code self.old }
    {
        self.graphics = true;
        self.foreground = code % 8;
        self.concealed = false;
    }

    // Selects normal height. A change of the height makes the held shape blank.
    fn normal_height(&mut self)
        ensures { self.new ≡ normal_height 0x0C self.old }
    {
        if self.double {
            self.double = false;
            self.held = None;
        }
    }

    fn double_height(&mut self)
        ensures { self.new ≡ double_height 0x0D self.old }
    {
        if !self.double {
            self.double = true;
            self.held = None;
        }
    }

    // Does the effect of a control code.
    #[inline(never)]
    fn obey(&mut self, code: u8)
        ensures { self.new ≡ effect_of controls code self.old }
    {
        match code {
            0x01..=0x07 => self.glyphs(code),
            0x11..=0x17 => self.graphics(code),
            0x08 => self.flashing = true,
            0x09 => self.flashing = false,
            0x0c => self.normal_height(),
            0x0d => self.double_height(),
            0x18 => self.concealed = true,
            0x19 => self.separated = false,
            0x1a => self.separated = true,
            0x1c => self.background = 0,
            0x1d => self.background = self.foreground,
            0x1e => self.holding = true,
            0x1f => self.holding = false,
            _ => {}
        }
    }

    // Returns the sixel of a code, separated or contiguous.
    #[inline(always)]
    fn sixel(&self, code: u8) -> Sixel
        ensures { result ≡ sixel_of code self.now }
    {
        Sixel {
            code,
            separated: self.separated,
        }
    }

    /// Takes a code: the style becomes that of the cells after it.
    #[inline(always)]
    pub(crate) fn take(&mut self, code: u8)
        ensures { self.new ≡ style_after code self.old }
    {
        if code < 0x20 {
            self.obey(code);
        } else if self.graphics && is_sixel(code) {
            self.held = Some(self.sixel(code));
        }
    }

    /// Does the effect of a set-at code, for the code's own cell.
    #[inline(always)]
    pub(crate) fn come_to(&mut self, code: u8)
        ensures { self.new ≡ style_at code self.old }
    {
        if holds_at_once(code) {
            self.obey(code);
        }
    }

    /// Does the effect of any other code, after the code's own cell.
    #[inline(always)]
    pub(crate) fn leave(&mut self, code: u8)
        ensures { self.new ≡ style_past code self.old }
    {
        if !holds_at_once(code) {
            self.take(code);
        }
    }

    /// Returns the shape in the cell of a code, with the cell's style.
    #[inline(always)]
    pub(crate) fn shape(&self, code: u8) -> Shape
        requires { code < 0x80 }
        ensures shape { result ≡ shape_of code self.now }
        ensures letter { IsInFont result }
    {
        if code >= 0x20 {
            if self.graphics && is_sixel(code) {
                Shape::Graphic(self.sixel(code))
            } else {
                Shape::Letter(code)
            }
        } else if self.holding && self.graphics {
            held_shape(self.held)
        } else {
            Shape::Blank
        }
    }

    /// Reports if the cell of a code may show something other than a steady letter of normal
    /// height.
    #[inline(always)]
    pub(crate) fn is_special(&self, code: u8, ra: u8, bottom: bool) -> bool
        ensures { result ≡ is_special code ra bottom self.now }
    {
        code < 0x20
            || ra >= LINES
            || bottom
            || self.graphics
            || self.flashing
            || self.concealed
            || self.double
    }

    /// Returns the line of the shape for a line of the row.
    #[inline(always)]
    pub(crate) fn line(&self, ra: u8, bottom: bool) -> u8
        ensures { result ≡ shape_line self.now ra bottom }
    {
        if !self.double {
            ra
        } else if bottom {
            ra / 2 + LINES / 2
        } else {
            ra / 2
        }
    }

    /// Reports if a cell is blank on a line of the row.
    #[inline(always)]
    pub(crate) fn is_blank(&self, ra: u8, bottom: bool, fields: u32) -> bool
        ensures { result ≡ is_blank self.now ra bottom fields }
    {
        ra >= LINES
            || (bottom && !self.double)
            || (self.flashing && fields % 64 < 16)
            || self.concealed
    }
}
