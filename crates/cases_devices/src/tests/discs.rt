//! Images of both kinds, read and written.
use disc_image::{Disc, DiscError, Kind, a_byte_put_is_read_back};
use std::alloc::Global;
use std::test::Fail;
use std::vec::Vec;

// Makes an image of `len` bytes. Each is the number of its sector in the image, plus 1, mod 251.
fn image(alloc: Global, len: usize) -> Result<Vec<u8>, Fail> {
    let mut bytes = vec![in alloc; 0; len]?;
    for (place, byte) in bytes.iter_mut().enumerate() {
        *byte = ((place / 256) % 251) as u8 + 1;
    }
    Ok(bytes)
}

#[test]
fn images_above_the_largest_are_refused(rt: HostRuntime) -> Result<(), Fail> {
    let bad = |len| Some(DiscError::BadDisc { len });
    let rows = [
        (Kind::Ssd, 0, None),
        (Kind::Ssd, 204_800, None),
        (Kind::Ssd, 204_801, bad(204_801)),
        (Kind::Dsd, 204_801, None),
        (Kind::Dsd, 409_600, None),
        (Kind::Dsd, 409_601, bad(409_601)),
    ];
    for (kind, len, want) in rows {
        let made = Disc::make(rt.alloc(), kind, vec![in rt.alloc(); 7; len]?);
        assert_eq!(rt; made.err(), want, "{kind:?} {len}");
    }
    let text = format!(in rt.alloc(); "{}", DiscError::BadDisc { len: 204_801 })?;
    assert_eq!(rt; text.as_str(), "the disc image has 204801 bytes");
    Ok(())
}

#[test]
fn sectors_stand_by_track_and_side(rt: HostRuntime) -> Result<(), Fail> {
    a_byte_put_is_read_back();
    // The kind, the length of the image, the side, the track and the sector, and its first and last
    // byte.
    let rows = [
        (Kind::Ssd, 204_800, 0, 0, 0, Some((1, 1))),
        (Kind::Ssd, 204_800, 0, 0, 9, Some((10, 10))),
        (Kind::Ssd, 204_800, 0, 1, 0, Some((11, 11))),
        // Sector 799 is 46 above three times 251.
        (Kind::Ssd, 204_800, 0, 79, 9, Some((47, 47))),
        (Kind::Ssd, 204_800, 1, 0, 0, None),
        (Kind::Ssd, 204_800, 0, 80, 0, None),
        (Kind::Ssd, 204_800, 0, 0, 10, None),
        (Kind::Dsd, 409_600, 1, 0, 0, Some((11, 11))),
        (Kind::Dsd, 409_600, 0, 1, 0, Some((21, 21))),
        (Kind::Dsd, 409_600, 1, 1, 2, Some((33, 33))),
        // Sector 1,599 is 93 above six times 251.
        (Kind::Dsd, 409_600, 1, 79, 9, Some((94, 94))),
        (Kind::Dsd, 409_600, 2, 0, 0, None),
        (Kind::Dsd, 409_600, 0, 255, 255, None),
        // The image ends inside the sector, just before it, and far before it.
        (Kind::Ssd, 300, 0, 0, 1, Some((2, 0))),
        (Kind::Ssd, 512, 0, 0, 2, Some((0, 0))),
        (Kind::Ssd, 0, 0, 79, 9, Some((0, 0))),
    ];
    for (kind, len, side, track, sector, want) in rows {
        let disc = Disc::make(rt.alloc(), kind, image(rt.alloc(), len)?)?;
        let ends = disc
            .sector(side, track, sector)
            .map(|bytes| (bytes[0], bytes[255]));
        assert_eq!(rt; ends, want, "{kind:?} {side} {track} {sector}");
        assert_eq!(rt; disc.bytes().len(), len);
    }
    Ok(())
}

#[test]
fn a_byte_put_makes_the_image_as_long_as_its_sectors_end(rt: HostRuntime) -> Result<(), Fail> {
    // The kind, the length of the image, the side, the track, the sector and the byte; and the
    // byte's place in the image and the image's new length.
    let rows = [
        (Kind::Ssd, 0, 0, 0, 2, 0, Some((512, 768))),
        (Kind::Ssd, 0, 0, 0, 2, 255, Some((767, 768))),
        (Kind::Ssd, 700, 0, 0, 2, 10, Some((522, 768))),
        (Kind::Ssd, 1_000, 0, 0, 2, 10, Some((522, 1_000))),
        (Kind::Ssd, 100, 0, 79, 9, 255, Some((204_799, 204_800))),
        (Kind::Ssd, 100, 1, 0, 0, 0, None),
        (Kind::Ssd, 100, 0, 80, 0, 0, None),
        (Kind::Ssd, 100, 0, 0, 10, 0, None),
        (Kind::Dsd, 0, 1, 0, 0, 1, Some((2_561, 2_816))),
        (Kind::Dsd, 0, 0, 1, 0, 1, Some((5_121, 5_376))),
        (Kind::Dsd, 409_600, 1, 79, 9, 255, Some((409_599, 409_600))),
        (Kind::Dsd, 0, 2, 0, 0, 0, None),
    ];
    for (kind, len, side, track, sector, at, want) in rows {
        let mut disc = Disc::make(rt.alloc(), kind, vec![in rt.alloc(); 7; len]?)?;
        let has = disc.put_byte(side, track, sector, at, 0x5a);
        assert_eq!(rt; has, want.is_some());
        let (place, long) = want.unwrap_or((len, len));
        assert_eq!(rt; disc.bytes().len(), long);
        for (n, byte) in disc.bytes().iter().enumerate() {
            let old = if n < len { 7 } else { 0 };
            assert_eq!(rt; *byte, if n == place { 0x5a } else { old }, "{n}");
        }
    }
    Ok(())
}
