//! Programs of accesses and steps, with values by hand from the profile of the controller.
mod programs;

use crate::tests::words::{byte, digit};
use disc_image::{Disc, Kind};
use programs::PROGRAMS;
use std::alloc::Global;
use std::process::Abort;
use std::test::Fail;
use std::vec::Vec;
use wd1770::{
    Fdc, a_controller_stays_sound, a_motion_takes_its_time, an_idle_controller_stays,
    the_discs_turn,
};

/// A controller. Its steps are done one by one if `single` is set, otherwise at once.
#[derive(Drop)]
struct Bench {
    fdc: Fdc,
    single: bool,
}

fn number(digits: &[u8]) -> u64 {
    let mut n: u64 = 0;
    for b in digits {
        n = n % (1 << 32) * 10 + u64::from(digit(*b));
    }
    n
}

/// Makes a disc. Byte i of sector n of its image is n + i.
fn disc(alloc: Global, kind: Kind, len: usize) -> Result<Option<Disc>, Fail> {
    let mut bytes = vec![in alloc; 0; len]?;
    for (place, byte) in bytes.iter_mut().enumerate() {
        *byte = ((place / 256 + place % 256) % 256) as u8;
    }
    Ok(Some(Disc::make(alloc, kind, bytes)?))
}

/// Makes the controller with the discs of a program's beginning.
fn fdc(alloc: Global, program: &str) -> Result<Fdc, Fail> {
    Ok(match program.as_bytes() {
        [b'n', ..] => Fdc::new(None, None),
        [b'e', ..] => Fdc::new(disc(alloc, Kind::Ssd, 0)?, None),
        [b's', ..] => Fdc::new(disc(alloc, Kind::Ssd, 204_800)?, None),
        _ => Fdc::new(
            disc(alloc, Kind::Ssd, 204_800)?,
            disc(alloc, Kind::Dsd, 409_600)?,
        ),
    })
}

impl Bench {
    fn steps(&mut self, n: u64) {
        if self.single {
            for _ in 0..n {
                self.fdc.step();
            }
        } else {
            self.fdc.advance(n);
        }
    }

    /// Reads 256 bytes, each one more than the one before, a byte each 64 steps.
    fn read_sector(&mut self, rt: &impl Abort, first: u8, program: &str) {
        for i in 0..=255u8 {
            assert_eq!(rt; self.fdc.read(3), first.wrapping_add(i), "{program}");
            self.steps(64);
        }
    }

    /// Writes 255 bytes, each one more than the one before, a byte each 64 steps.
    fn write_sector(&mut self, first: u8) {
        for i in 0..255u8 {
            self.fdc.write(3, first.wrapping_add(i));
            self.steps(64);
        }
    }

    /// Returns a byte of the image in a drive.
    fn image_byte(&self, drive: u8, place: u64) -> Option<u8> {
        let disc = self.fdc.disc(drive)?;
        disc.bytes().get(place as usize).copied()
    }

    /// Returns the length of the image in a drive.
    fn image_len(&self, drive: u8) -> Option<usize> {
        let disc = self.fdc.disc(drive)?;
        Some(disc.bytes().len())
    }

    /// Does one word of a program.
    fn act(&mut self, rt: &impl Abort, word: &[u8], program: &str) {
        match word {
            b"none" | b"empty" | b"ssd" | b"both" => {}
            b"drq" => assert!(rt; self.fdc.drq(), "{program}"),
            b"no-drq" => assert!(rt; !self.fdc.drq(), "{program}"),
            b"int" => assert!(rt; self.fdc.intrq(), "{program}"),
            b"no-int" => assert!(rt; !self.fdc.intrq(), "{program}"),
            [b'+', digits @ ..] => self.steps(number(digits)),
            [b'n', digits @ ..] => assert_eq!(rt; self.fdc.nmis(), number(digits), "{program}"),
            [b'r', high, low] => self.read_sector(rt, byte(*high, *low), program),
            [b'w', high, low] => self.write_sector(byte(*high, *low)),
            [b'L', b'=', high, low] => self.fdc.latch(byte(*high, *low)),
            [b'd', drive, b':', high, low, b'@', digits @ ..] => {
                let found = self.image_byte(digit(*drive), number(digits));
                assert_eq!(rt; found, Some(byte(*high, *low)), "{program}");
            }
            [b'd', drive, b'#', digits @ ..] => {
                let len = self.image_len(digit(*drive));
                assert_eq!(rt; len, Some(number(digits) as usize), "{program}");
            }
            [reg, b'=', high, low] => self.fdc.write(digit(*reg) % 4, byte(*high, *low)),
            [reg, b'?', high, low] => {
                let answer = self.fdc.read(digit(*reg) % 4);
                assert_eq!(rt; answer, byte(*high, *low), "{program}");
            }
            _ => assert!(rt; false, "not understood: {program}"),
        }
    }
}

#[test]
fn commands_do_what_the_profile_says(rt: HostRuntime) -> Result<(), Fail> {
    for program in PROGRAMS.lines() {
        for single in [false, true] {
            if !program.starts_with('#') {
                let mut bench = Bench {
                    fdc: fdc(rt.alloc(), program)?,
                    single,
                };
                for word in program.split(' ') {
                    bench.act(&rt, word.as_bytes(), program);
                }
            }
        }
    }
    Ok(())
}

#[test]
fn there_are_two_drives(rt: HostRuntime) -> Result<(), Fail> {
    the_discs_turn();
    a_controller_stays_sound();
    an_idle_controller_stays();
    a_motion_takes_its_time();
    let fdc = Fdc::new(None, disc(rt.alloc(), Kind::Dsd, 5)?);
    let has = [
        fdc.disc(0).is_some(),
        fdc.disc(1).is_some(),
        fdc.disc(2).is_some(),
    ];
    assert_eq!(rt; has, [false, true, false]);
    Ok(())
}

#[test]
fn steps_with_no_command_are_done_at_once(rt: HostRuntime) {
    let mut fdc = Fdc::new(None, None);
    fdc.latch(0x29);
    fdc.write(0, 0);
    fdc.advance(1_000_000_100_000);
    assert_eq!(rt; fdc.read(0), 4);
}

#[test]
fn a_search_is_calm_up_to_its_sector(rt: HostRuntime) -> Result<(), Fail> {
    let mut fdc = Fdc::new(disc(rt.alloc(), Kind::Ssd, 204_800)?, None);
    fdc.latch(0x29);
    fdc.advance(1);
    fdc.write(2, 5);
    fdc.write(0, 0x80);
    assert_eq!(rt; fdc.calm(), 99_839);
    fdc.advance(99_840);
    assert_eq!(rt; fdc.nmis(), 0);
    Ok(())
}
