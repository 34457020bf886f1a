//! Frames as picture files.
use frame_out::ppm;
use raster::Frame;
use std::test::Fail;

// Black, red, green, yellow, blue, magenta, cyan, white.
const PIXELS: &[u8] =
    b"P6\n640 256\n255\n\x00\x00\x00\xff\x00\x00\x00\xff\x00\xff\xff\x00\x00\x00\xff\xff\x00\xff\x00\xff\xff\xff\xff\xff";

#[test]
fn a_frame_is_its_header_and_its_pixels(rt: HostRuntime) -> Result<(), Fail> {
    let mut frame = Frame::black(rt.alloc())?;
    for (place, colour) in frame.colours.iter_mut().enumerate() {
        *colour = if place < 8 { place as u8 } else { 0 };
    }
    let bytes = ppm(rt.alloc(), &frame)?;
    let black = bytes.iter().filter(|byte| **byte == 0).count();
    assert!(rt; bytes.starts_with(PIXELS));
    // Twelve of the samples are FF.
    assert_eq!(rt; (black, bytes.len()), (491_508, 491_535));
    Ok(())
}
