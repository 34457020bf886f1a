//! Whole frames, counted character by character, compared with a computation from the registers.
use crtc6845::{
    Beam, Crtc, Finished, Windows, clocks_at_rest_are_alike, frames_have_their_clocks,
    lines_have_their_characters, no_sync_beyond_the_rows, shown_addresses_count,
    sync_comes_in_each_line, vertical_sync_comes_in_each_frame, vertical_sync_has_its_lines,
};
use std::process::Abort;

/// Registers R0 to R15.
type Registers = [u8; 16];

/// The BBC Micro's screens of 80 and of 40 characters and its teletext screen; lines of 5
/// characters and rows of one line; rows of 32 lines with the sync row beyond the total; an odd
/// last raster with interlace; 31 lines of vertical total adjust, horizontal sync beyond the line
/// and 16 lines of vertical sync; and a frame with nothing shown.
const SCREENS: [Registers; 8] = [
    [
        127, 80, 98, 0x28, 38, 0, 32, 34, 0x01, 7, 0x07, 8, 0x06, 0x00, 0x06, 0x51,
    ],
    [
        63, 40, 49, 0x24, 38, 0, 32, 34, 0x00, 7, 0x00, 7, 0x0b, 0x00, 0x0b, 0x00,
    ],
    [
        63, 40, 51, 0x24, 30, 2, 25, 27, 0x93, 18, 0x12, 19, 0x28, 0x00, 0x28, 0x29,
    ],
    [
        4, 3, 1, 0x10, 2, 3, 2, 1, 0x00, 0, 0x00, 0, 0x3f, 0xff, 0x00, 0x01,
    ],
    [
        6, 9, 0, 0x34, 1, 1, 9, 5, 0x02, 31, 0x03, 30, 0x00, 0x10, 0x00, 0x11,
    ],
    [
        9, 7, 9, 0x20, 3, 5, 3, 3, 0x03, 5, 0x03, 31, 0x01, 0x00, 0x01, 0x07,
    ],
    [
        11, 12, 12, 0x05, 0, 31, 1, 0, 0x00, 1, 0x00, 0, 0x20, 0x00, 0x20, 0x0b,
    ],
    [
        7, 0, 3, 0x50, 4, 2, 0, 2, 0x00, 3, 0x00, 31, 0x00, 0x00, 0x00, 0x00,
    ],
];

/// The counts of a frame.
#[derive(Clone, Copy, Debug, PartialEq, Eq)]
struct Counts {
    lines: u32,
    syncs: u32,
    row_ends: u32,
    restarts: u32,
    frame_ends: u32,
    /// The line, counted from the frame's first, of the beginning of vertical sync.
    sync_line: u32,
    /// The number of lines with vertical sync.
    vsync_lines: u32,
    shown: u32,
    first: u16,
    last: u16,
    cursors: u32,
}

const NOTHING: Counts = Counts {
    lines: 0,
    syncs: 0,
    row_ends: 0,
    restarts: 0,
    frame_ends: 0,
    sync_line: 0,
    vsync_lines: 0,
    shown: 0,
    first: 0,
    last: 0,
    cursors: 0,
};

fn chip(registers: &Registers) -> Crtc {
    let mut crtc = Crtc::new();
    for n in 0..16u8 {
        crtc.select(n);
        crtc.set(registers[n as usize]);
    }
    crtc
}

impl Counts {
    fn add(&mut self, beam: &Beam, vsync: bool) {
        if beam.frame_end {
            self.sync_line = self.lines;
        }
        if beam.shown {
            if self.shown == 0 {
                self.first = beam.ma;
            }
            self.last = beam.ma;
        }
        self.lines = self.lines.wrapping_add(u32::from(beam.line_start));
        self.syncs = self.syncs.wrapping_add(u32::from(beam.sync_start));
        self.row_ends = self.row_ends.wrapping_add(u32::from(beam.row_end));
        self.restarts = self.restarts.wrapping_add(u32::from(beam.restart));
        self.frame_ends = self.frame_ends.wrapping_add(u32::from(beam.frame_end));
        self.vsync_lines = self
            .vsync_lines
            .wrapping_add(u32::from(beam.line_start && vsync));
        self.shown = self.shown.wrapping_add(u32::from(beam.shown));
        self.cursors = self.cursors.wrapping_add(u32::from(beam.cursor));
    }
}

fn count(crtc: &mut Crtc, clocks: u32) -> Counts {
    let mut counts = NOTHING;
    for _ in 0..clocks {
        let beam = crtc.clock();
        counts.add(&beam, crtc.vsync());
    }
    counts
}

/// Returns the number of a row's rasters with the cursor: those of the row between the cursor's
/// first and last one.
fn cursor_rasters(r: &Registers, step: usize, last: u8) -> u32 {
    let mut rasters: u32 = 0;
    for n in 0..32u8 {
        let is_there = n <= last && n as usize % step.max(1) == 0;
        rasters = rasters.wrapping_add(u32::from(is_there && r[10] % 32 <= n && n <= r[11]));
    }
    rasters
}

/// Computes the clocks and the counts of a whole frame from the registers.
fn computed(r: &Registers) -> (u32, Counts) {
    let number = |n: usize| -> u32 { u32::from(r[n % 16]) };
    let interlaced = r[8] % 4 == 3;
    let last = if interlaced { r[9] - r[9] % 2 } else { r[9] };
    let row_lines = if interlaced {
        u32::from(last) / 2 + 1
    } else {
        u32::from(last) + 1
    };
    let lines = (number(4) + 1) * row_lines + number(5);
    let width = number(1).min(number(0) + 1);
    let height = number(6).min(number(4) + 1);
    let syncs = number(7) <= number(4);
    let sync_height = if r[3] < 16 { 16 } else { number(3) / 16 };
    let any = width * height > 0;
    let start = 256 * number(12) + number(13);
    let end = start
        + if any {
            (height - 1) * number(1) + width - 1
        } else {
            0
        };
    let counts = Counts {
        lines,
        syncs: if r[2] <= r[0] { lines } else { 0 },
        row_ends: number(4) + u32::from(r[5] > 0),
        restarts: 1,
        frame_ends: u32::from(syncs),
        sync_line: if syncs {
            number(7).wrapping_mul(row_lines)
        } else {
            0
        },
        vsync_lines: if syncs { sync_height } else { 0 },
        shown: (width * height).wrapping_mul(row_lines),
        first: if any { start as u16 } else { 0 },
        last: if any { (end % 16384) as u16 } else { 0 },
        cursors: if any {
            cursor_rasters(r, if interlaced { 2 } else { 1 }, last)
        } else {
            0
        },
    };
    ((number(0) + 1).wrapping_mul(lines), counts)
}

#[test]
fn frames_are_as_the_registers_say(rt: HostRuntime) {
    lines_have_their_characters();
    sync_comes_in_each_line();
    frames_have_their_clocks();
    vertical_sync_comes_in_each_frame();
    no_sync_beyond_the_rows();
    shown_addresses_count();
    vertical_sync_has_its_lines();
    for registers in &SCREENS {
        let (clocks, want) = computed(registers);
        let mut crtc = chip(registers);
        for _ in 0..3u8 {
            count(&mut crtc, clocks);
        }
        for _ in 0..2u8 {
            assert_eq!(rt; count(&mut crtc, clocks), want, "{registers:?}");
        }
    }
}

#[test]
fn at_power_on_a_black_frame_is_finished(rt: HostRuntime) {
    let mut crtc = Crtc::new();
    assert!(rt; !crtc.vsync());
    let first = Beam {
        shown: false,
        ma: 0,
        ra: 0,
        cursor: false,
        line_start: true,
        sync_start: true,
        frame_end: true,
        fields: 1,
        row_end: false,
        restart: true,
    };
    assert_eq!(rt; crtc.clock(), first);
    assert!(rt; crtc.vsync());
    // Vertical sync has sixteen lines of one character, and then begins again.
    for n in 2..34u32 {
        let beam = crtc.clock();
        assert_eq!(rt; beam.frame_end, n % 16 == 1, "{n}");
        assert!(rt; crtc.vsync(), "{n}");
    }
}

#[test]
fn vertical_sync_stays_as_long_as_it_is_calm(rt: HostRuntime) {
    for registers in &SCREENS {
        let (clocks, want) = computed(registers);
        let mut crtc = chip(registers);
        for _ in 0..3u8 {
            count(&mut crtc, clocks);
        }
        let width = u32::from(registers[0]) + 1;
        // If R7 is above R4 no sync comes, and `before` is 0.
        let before = want.sync_line.wrapping_mul(width);
        assert!(rt; crtc.calm() >= u64::from(before), "{registers:?}");
        if want.frame_ends == 1 {
            count(&mut crtc, before);
            assert_eq!(rt; crtc.calm(), 0, "{registers:?}");
            assert!(rt; crtc.clock().frame_end, "{registers:?}");
            let within = want.vsync_lines.wrapping_mul(width);
            assert_eq!(rt;
                crtc.calm(),
                u64::from(within.wrapping_sub(1)),
                "{registers:?}"
            );
        }
    }
}

#[test]
fn a_chip_at_rest_does_many_clocks_at_once(rt: HostRuntime) {
    clocks_at_rest_are_alike();
    // Vertical sync has sixteen lines of one character. The clock before these was the first of
    // them.
    for n in [0, 1, 15, 16, 17, 31, 32, 100, 1_000_000_000_000u64] {
        let mut crtc = Crtc::new();
        crtc.clock();
        if crtc.is_quiet() {
            assert_eq!(rt; crtc.calm(), u64::MAX);
            let want = Finished {
                frames: n / 16,
                past: n % 16,
            };
            assert_eq!(rt; crtc.rest(n), want);
            assert_eq!(rt; crtc.clock().frame_end, n % 16 == 15);
        }
    }
    // If R7 is above R4, vertical sync ends, and does not begin again.
    let mut crtc = Crtc::new();
    crtc.select(7);
    crtc.clock();
    crtc.set(1);
    crtc.clock();
    assert!(rt; crtc.is_quiet() && crtc.vsync());
    assert_eq!(rt; crtc.calm(), 14);
    if crtc.is_quiet() {
        assert_eq!(rt;
            crtc.rest(99),
            Finished {
                frames: 0,
                past: 99
            }
        );
    }
    assert!(rt; !crtc.vsync());
    assert_eq!(rt; crtc.calm(), u64::MAX);
}

/// Does a line. Returns the lengths of its spans.
fn spans(crtc: &mut Crtc) -> [u16; 5] {
    let mut spans = [0; 5];
    crtc.clock();
    for n in 0..5usize {
        if !crtc.is_edge() {
            let span = crtc.span();
            spans[n] = span.clocks;
            crtc.pass(span.clocks);
        }
    }
    crtc.clock();
    spans
}

#[test]
fn a_line_has_few_spans(rt: HostRuntime) {
    // A screen of those above, the number of lines before, and the spans from the second character
    // on. A span is of shown characters, up to or from the cursor or the next 1,024 addresses, or
    // of the others up to the last but one. The beginning of horizontal sync ends no span.
    let rows: [(usize, u32, [u16; 5]); 7] = [
        (0, 0, [79, 47, 0, 0, 0]),
        (0, 15, [79, 47, 0, 0, 0]),
        (0, 48, [31, 48, 47, 0, 0]),
        (1, 0, [39, 23, 0, 0, 0]),
        (2, 0, [39, 23, 0, 0, 0]),
        (3, 0, [1, 1, 1, 0, 0]),
        (5, 0, [6, 2, 0, 0, 0]),
    ];
    for (screen, lines, want) in rows {
        if screen < 8 {
            let registers = SCREENS[screen];
            let (clocks, _) = computed(&registers);
            let mut crtc = chip(&registers);
            for _ in 0..3u8 {
                count(&mut crtc, clocks);
            }
            for _ in 0..lines {
                spans(&mut crtc);
            }
            assert_eq!(rt; spans(&mut crtc), want, "{screen} {lines}");
        }
    }
}

#[test]
fn a_frame_shows_its_rows(rt: HostRuntime) {
    // The number of rows done, and the part of the frame, and of the next one, that is still to be
    // shown.
    let rows = [(0, 0x0b00, 1_280), (5, 0x0bc8, 1_080), (32, 0x1000, 0)];
    for (over, base, count_now) in rows {
        let (clocks, _) = computed(&SCREENS[1]);
        let mut crtc = chip(&SCREENS[1]);
        for _ in 0..3u8 {
            count(&mut crtc, clocks);
        }
        count(&mut crtc, over * 512);
        let want = Windows {
            base,
            count: count_now,
            start: 0x0b00,
            frame: 1_280,
        };
        assert_eq!(rt; crtc.windows(), want, "{over}");
    }
}

#[test]
fn registers_have_their_bits(rt: HostRuntime) {
    let mut crtc = Crtc::new();
    let rows = [
        (12, 0x3f),
        (13, 0xff),
        (14, 0x3f),
        (15, 0xff),
        (44, 0x3f),
        (0, 0),
        (4, 0),
        (10, 0),
        (11, 0),
        (16, 0),
        (31, 0),
    ];
    for (n, want) in rows {
        crtc.select(n);
        crtc.set(0xff);
        assert_eq!(rt; crtc.get(), want, "R{n}");
    }
}

#[test]
fn the_cursor_blinks_by_the_fields(rt: HostRuntime) {
    // R10, and a bit for each field, the lowest first, which is set if the cursor is on.
    let rows: [(u8, u64); 4] = [
        (0x00, 0xffff_ffff_ffff_ffff),
        (0x20, 0x0000_0000_0000_0000),
        (0x40, 0x00ff_00ff_00ff_00ff),
        (0x60, 0x0000_ffff_0000_ffff),
    ];
    for (start, want) in rows {
        let mut crtc = chip(&[1, 1, 0, 0x10, 0, 0, 1, 0, 0, 0, start, 0, 0, 5, 0, 5]);
        // A frame of one line and two characters. It is shown after its start address is taken.
        crtc.clock();
        crtc.clock();
        for n in 2..66u32 {
            let beam = crtc.clock();
            crtc.clock();
            assert_eq!(rt; beam.fields, n);
            assert_eq!(rt;
                beam.cursor,
                want >> (n % 64) & 1 == 1,
                "R10 {start}, field {n}"
            );
        }
    }
}
