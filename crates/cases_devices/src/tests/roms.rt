//! Sets of images.
use rom_set::{RomError, RomSet};
use std::alloc::Global;
use std::test::Fail;
use std::vec::Vec;

// Makes `len` bytes: 251 rising ones from `first` on, repeated.
fn image(alloc: Global, len: usize, first: u8) -> Result<Vec<u8>, Fail> {
    let mut bytes = vec![in alloc; 0; len]?;
    for (place, byte) in bytes.iter_mut().enumerate() {
        *byte = first.wrapping_add((place % 251) as u8);
    }
    Ok(bytes)
}

// Returns the refusal of images of these lengths: an operating system, the ROMs of the slots 15 and
// 3, and perhaps a font.
fn refusal(
    alloc: Global,
    (os, first, second): (usize, usize, usize),
    font: Option<usize>,
) -> Result<Option<RomError>, Fail> {
    let slots = vec![in alloc;
        (15, image(alloc, first, 0)?),
        (3, image(alloc, second, 0)?),
    ]?;
    let font = match font {
        Some(len) => Some(image(alloc, len, 0)?),
        None => None,
    };
    Ok(RomSet::read(image(alloc, os, 0)?, slots, font).err())
}

#[test]
fn only_images_of_their_lengths_are_taken(rt: HostRuntime) -> Result<(), Fail> {
    let slot = |slot, len| Some(RomError::BadSlot { slot, len });
    // The lengths of the operating system and of both ROMs, and the refusal, with a font of the
    // right length and without one.
    let rows = [
        (16_384, 8_192, 16_384, None),
        (16_384, 16_384, 8_192, None),
        (16_383, 8_192, 8_192, Some(RomError::BadOs { len: 16_383 })),
        (16_385, 1, 1, Some(RomError::BadOs { len: 16_385 })),
        (0, 16_384, 16_384, Some(RomError::BadOs { len: 0 })),
        // The first one of the list is refused, whatever its slot is.
        (16_384, 8_191, 0, slot(15, 8_191)),
        (16_384, 8_193, 16_384, slot(15, 8_193)),
        (16_384, 16_384, 16_383, slot(3, 16_383)),
        (16_384, 8_192, 16_385, slot(3, 16_385)),
        (16_384, 8_192, 0, slot(3, 0)),
    ];
    for (os, first, second, want) in rows {
        assert_eq!(rt; refusal(rt.alloc(), (os, first, second), None)?, want);
        assert_eq!(rt; refusal(rt.alloc(), (os, first, second), Some(960))?, want);
    }
    let font = |len| Some(RomError::BadFont { len });
    // The same with a font of another length, which is checked last.
    let rows = [
        (16_384, 8_192, 16_384, 959, font(959)),
        (16_384, 8_192, 16_384, 961, font(961)),
        (16_384, 16_384, 8_192, 0, font(0)),
        (16_384, 8_192, 0, 959, slot(3, 0)),
        (16_383, 8_192, 0, 959, Some(RomError::BadOs { len: 16_383 })),
    ];
    for (os, first, second, len, want) in rows {
        assert_eq!(rt; refusal(rt.alloc(), (os, first, second), Some(len))?, want);
    }
    Ok(())
}

#[test]
fn bytes_stand_by_slot_and_address(rt: HostRuntime) -> Result<(), Fail> {
    let alloc = rt.alloc();
    let slots = vec![in alloc;
        (15, image(alloc, 8_192, 100)?),
        (3, image(alloc, 16_384, 7)?),
    ]?;
    let roms = RomSet::read(image(alloc, 16_384, 0)?, slots, None)?;
    // Above a multiple of 251, 8,191 is 159, 8,192 is 160 and 16,383 is 68.
    for (at, want) in [(0, 0), (250, 250), (251, 0), (8_192, 160), (16_383, 68)] {
        assert_eq!(rt; roms.os(at), want);
    }
    // The slot, the address, and the byte. The ROM of 8,192 bytes is mapped twice.
    let rows = [
        (15, 0, 100),
        (15, 8_191, 3),
        (15, 8_192, 100),
        (15, 16_383, 3),
        (3, 0, 7),
        (3, 8_192, 167),
        (3, 16_383, 75),
        (0, 0, 0xff),
        (14, 16_383, 0xff),
    ];
    for (slot, at, want) in rows {
        assert_eq!(rt; roms.byte(slot, at), want, "slot {slot}, {at}");
    }
    // Each ROM as it was given, and `None` for an empty slot.
    for (slot, want) in [(15, Some(8_192)), (3, Some(16_384)), (0, None)] {
        assert_eq!(rt; roms.rom(slot).map(|rom| rom.len()), want, "slot {slot}");
    }
    assert_eq!(rt; (roms.shape(0x20, 0), roms.shape(0x41, 3)), (0, 0));
    Ok(())
}

#[test]
fn shapes_stand_by_code_and_row(rt: HostRuntime) -> Result<(), Fail> {
    let alloc = rt.alloc();
    let os = image(alloc, 16_384, 0)?;
    let roms = RomSet::read(os, Vec::new(alloc), Some(image(alloc, 960, 5)?))?;
    // The code, the row, and the byte. The shape of 21 begins at 10. That of 41 begins at 330,
    // which is 79 above 251, and that of 7F at 950, which is 197 above three times 251.
    let rows = [
        (0x20, 0, 5),
        (0x20, 9, 14),
        (0x21, 0, 15),
        (0x41, 0, 84),
        (0x41, 7, 91),
        (0x7f, 0, 202),
        (0x7f, 9, 211),
    ];
    for (code, row, want) in rows {
        assert_eq!(rt; roms.shape(code, row), want, "{code}, {row}");
    }
    Ok(())
}

#[test]
fn each_refusal_of_an_image_has_a_text(rt: HostRuntime) -> Result<(), Fail> {
    let text = format!(in rt.alloc(); "{}", RomError::BadOs { len: 16_383 })?;
    assert_eq!(rt; text.as_str(), "the operating system has 16383 bytes");
    let text = format!(in rt.alloc(); "{}", RomError::BadSlot { slot: 4, len: 1 })?;
    assert_eq!(rt; text.as_str(), "the ROM of slot 4 has 1 bytes");
    let text = format!(in rt.alloc(); "{}", RomError::BadFont { len: 959 })?;
    assert_eq!(rt; text.as_str(), "the font has 959 bytes");
    Ok(())
}
