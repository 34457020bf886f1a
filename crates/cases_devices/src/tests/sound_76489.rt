//! Programs of the sound chip, with values by hand from the data sheet, its samples and their file.
ghost use Rattle.std.specs.Prelude.{◌≡◌, ◌≤◌, ◌^◌, length, IfOk};
ghost use Rattle.sn76489.specs.Samples.{NeverFallFrom};

use crate::tests::words::{byte, number};
use sn76489::{
    Sound, SoundWrite, noise_repeats, noise_shifts_in_time, render, tones_turn_over,
    volume_15_is_silence, wav,
};
use std::alloc::Global;
use std::process::Abort;
use std::test::Fail;

/// Words: `VV` writes a byte, `+N` does N clocks, and `=N` is the level (both decimal).
const PROGRAMS: &str = "\
=0 +5000 =0
# Tone 1 with a period of 1, of 2, of 1,023 and of 0, which is 1,024.
81 00 90 =0 +1 =8191 +1 =0 +1 =8191 +1 =0
82 00 90 =0 +1 =8191 +1 =8191 +1 =0 +1 =0 +1 =8191
8F 3F 90 =0 +1 =8191 +1022 =8191 +1 =0 +1022 =0 +1 =8191
80 00 90 =0 +1 =8191 +1023 =8191 +1 =0 +1023 =0 +1 =8191
# Tones 2 and 3, and all three.
A0 01 B1 +1 =6506 +15 =6506 +1 =0
C1 00 DE +1 =326 +1 =0 +1 =326
81 00 90 A1 00 B1 C1 00 D2 +1 =19865 +1 =0
# Bit 6 of a byte that is latched for is nothing; at power-on it is for tone 1's period; a volume takes one too.
80 41 90 +16 =8191 +1 =0
01 90 +16 =8191 +1 =0
81 00 9F +1 =0 05 =2590 75 =2590 3F =0
# Four bits of a period, and a counter that goes on from the earlier one.
8F 3F 80 90 +1008 =8191 +1 =0
80 01 90 +1 =8191 81 00 +15 =8191 +1 =0 +1 =8191
# Noise with one tap: its bit comes out after 14 shifts, and after each 15 more.
E0 F0 +447 =0 +1 =8191 +31 =8191 +1 =0 +447 =0 +1 =8191 +32 =0
E1 F0 +895 =0 +1 =8191 +63 =8191 +1 =0
E2 F0 +1791 =0 +1 =8191 +127 =8191 +1 =0
# Shifts where tone 3 rises, at clocks 1, 5, 9 and so on.
C2 00 E3 F0 +52 =0 +1 =8191 +3 =8191 +1 =0
# The count of clocks goes on over a write, and at that rate.
E0 F0 +16 E0 +431 =0 +1 =8191 +32 =0
E3 F0 +16 E0 +431 =0 +1 =8191 +32 =0
# White noise: after 14, 28 and 29 shifts.
E4 F0 +447 =0 +1 =8191 +32 =0 +415 =0 +1 =8191 +32 =8191 +31 =8191 +1 =0
# A write to the control begins it anew.
E4 F0 +448 =8191 E4 =0 +447 =0 +1 =8191
F0 E0 +448 =8191 04 =0 +447 =0 +1 =8191 +32 =0 +415 =0 +1 =8191
E0 F7 +448 =1634 0F =0 FE =326
80 00 90 A0 00 B0 C0 00 D0 E0 F0 +448 =32764
";

/// A chip. Its clocks are done one by one if `single` is set, otherwise at once.
#[derive(Drop)]
struct Bench {
    sound: Sound,
    single: bool,
}

impl Bench {
    fn clocks(&mut self, n: u32) {
        if self.single {
            for _ in 0..n {
                self.sound.clock();
            }
        } else {
            self.sound.advance(u64::from(n));
        }
    }

    /// Does one word of a program.
    fn act(&mut self, rt: &impl Abort, word: &[u8], program: &str) {
        match word {
            [b'+', digits @ ..] => self.clocks(number(digits)),
            [b'=', digits @ ..] => {
                let level = i32::from(self.sound.level());
                assert_eq!(rt; level, number(digits) as i32, "{program}");
            }
            [high, low] => self.sound.write(byte(*high, *low)),
            _ => assert!(rt; false, "not understood: {program}"),
        }
    }
}

fn run(rt: &impl Abort, program: &str, single: bool) {
    let mut bench = Bench {
        sound: Sound::new(),
        single,
    };
    for word in program.split(' ') {
        bench.act(rt, word.as_bytes(), program);
    }
}

#[test]
fn voices_do_what_the_data_sheet_says(rt: HostRuntime) {
    tones_turn_over();
    noise_repeats();
    noise_shifts_in_time();
    volume_15_is_silence();
    for program in PROGRAMS.lines() {
        if !program.starts_with('#') {
            run(&rt, program, false);
            run(&rt, program, true);
        }
    }
}

#[test]
fn volumes_have_their_amplitudes(rt: HostRuntime) {
    let rows = [
        (0x90, 8191),
        (0x91, 6506),
        (0x92, 5168),
        (0x93, 4105),
        (0x94, 3261),
        (0x95, 2590),
        (0x96, 2057),
        (0x97, 1634),
        (0x98, 1298),
        (0x99, 1031),
        (0x9a, 819),
        (0x9b, 650),
        (0x9c, 517),
        (0x9d, 410),
        (0x9e, 326),
        (0x9f, 0),
    ];
    let mut sound = Sound::new();
    sound.clock();
    for (byte, amplitude) in rows {
        sound.write(byte);
        assert_eq!(rt; sound.level(), amplitude, "{byte}");
    }
}

// Renders the writes, and compares.
fn expect_samples(
    rt: &impl Abort,
    alloc: Global,
    writes: &[SoundWrite],
    steps: u64,
    want: &[i16],
) -> Result<(), Fail>
    requires order { NeverFallFrom 0 writes.now }
    requires steps { steps ≤ 2 ^ 28 }
{
    let samples = render(alloc, writes, steps)?;
    assert_eq!(rt; samples.as_slice(), want, "{writes:?} {steps}");
    Ok(())
}

// Makes a write.
const fn at(moment: u64, byte: u8) -> SoundWrite
    ensures { result ≡ record { moment = moment; byte = byte } }
{
    SoundWrite { moment, byte }
}

#[test]
fn samples_are_levels_after_the_writes(rt: HostRuntime) -> Result<(), Fail> {
    let alloc = rt.alloc();
    let low = [at(0, 0x80), at(0, 0x01), at(0, 0x90)];
    expect_samples(&rt, alloc, &low, 160, &[8191, 8191, 0, 0, 8191])?;
    expect_samples(&rt, alloc, &[], 0, &[])?;
    expect_samples(&rt, alloc, &[], 1, &[0])?;
    expect_samples(&rt, alloc, &[], 32, &[0])?;
    expect_samples(&rt, alloc, &[], 33, &[0, 0])?;
    // Writes at one moment take effect in order, and before its sample.
    expect_samples(&rt, alloc, &[at(0, 0x90), at(0, 0x9f)], 1, &[0])?;
    expect_samples(&rt, alloc, &[at(0, 0x9f), at(0, 0x90)], 1, &[8191])?;
    expect_samples(&rt, alloc, &[at(32, 0x90)], 64, &[0, 8191])?;
    expect_samples(&rt, alloc, &[at(33, 0x90)], 65, &[0, 0, 8191])?;
    expect_samples(
        &rt,
        alloc,
        &[at(31, 0x91), at(64, 0x92)],
        96,
        &[0, 6506, 5168],
    )?;
    // A write that no sample follows, and one after the last step.
    expect_samples(&rt, alloc, &[at(31, 0x90)], 32, &[0])?;
    expect_samples(&rt, alloc, &[at(0, 0x90), at(1_000, 0x9f)], 32, &[8191])?;
    Ok(())
}

// Makes `n` samples of silence.
fn silence(alloc: Global, n: usize) -> Result<Vec<i16>, Fail>
    ensures { IfOk result (λ samples. length samples.items ≡ n) }
{
    Ok(vec![in alloc; 0; n]?)
}

#[test]
fn a_file_has_room_for_2_to_the_24_samples(rt: HostRuntime) -> Result<(), Fail> {
    let samples = silence(rt.alloc(), 16_777_216)?;
    let bytes = wav(rt.alloc(), &samples)?;
    assert_eq!(rt; bytes.len(), 33_554_476);
    assert_eq!(rt; &bytes[40..44], [0x00, 0x00, 0x00, 0x02].as_slice());
    Ok(())
}

#[test]
fn a_file_is_its_header_and_its_samples(rt: HostRuntime) -> Result<(), Fail> {
    let bytes = wav(rt.alloc(), &[8191, 0, -1, -32_768])?;
    let want = [
        0x52, 0x49, 0x46, 0x46, 0x2c, 0x00, 0x00, 0x00, 0x57, 0x41, 0x56, 0x45, 0x66, 0x6d, 0x74,
        0x20, 0x10, 0x00, 0x00, 0x00, 0x01, 0x00, 0x01, 0x00, 0x12, 0x7a, 0x00, 0x00, 0x24, 0xf4,
        0x00, 0x00, 0x02, 0x00, 0x10, 0x00, 0x64, 0x61, 0x74, 0x61, 0x08, 0x00, 0x00, 0x00, 0xff,
        0x1f, 0x00, 0x00, 0xff, 0xff, 0x00, 0x80,
    ];
    assert_eq!(rt; bytes.as_slice(), want.as_slice());
    let bytes = wav(rt.alloc(), &[8191, 8191, 0, 0, 8191])?;
    assert_eq!(rt; bytes.len(), 54);
    assert_eq!(rt; &bytes[4..8], [0x2e, 0x00, 0x00, 0x00].as_slice());
    Ok(())
}
