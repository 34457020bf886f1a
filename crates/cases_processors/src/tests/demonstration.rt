//! The pairs of three seeds, compared with a plain generator and images that were assembled by
//! hand.
use demo_gen::{Demo, pair};
use std::alloc::Global;
use std::test::Fail;

// PCG's reference code (XSH RR 64/32) with the increment of stream 0, which is 1.
#[derive(Drop)]
struct Plain {
    state: u64,
}

fn stepped(state: u64) -> u64 {
    state
        .wrapping_mul(6_364_136_223_846_793_005)
        .wrapping_add(1)
}

impl Plain {
    fn of(seed: u64) -> Plain {
        Plain {
            state: stepped(seed.wrapping_add(1)),
        }
    }

    fn next(&mut self) -> u32 {
        let word = ((self.state >> 18) ^ self.state) >> 27;
        let turn = (self.state >> 59) as u32;
        self.state = stepped(self.state);
        ((word % 4_294_967_296) as u32).rotate_right(turn)
    }
}

// Returns true if the bytes at F900 to F9FF are the low bytes of the plain generator's words.
fn holds_plain_bytes(demo: &Demo, seed: u64) -> bool {
    let mut plain = Plain::of(seed);
    let drawn = demo.tube.get(256..512).unwrap_or(&[]);
    for byte in drawn {
        if plain.next() % 256 != u32::from(*byte) {
            return false;
        }
    }
    drawn.len() == 256
}

// Returns true if the image is the code, zeroes up to the vectors except for the drawn bytes, and
// the vectors.
fn is_image(image: &[u8], code: &[u8], vectors: &[u8], len: usize) -> bool {
    let mut at = 0usize;
    for byte in image {
        let is_drawn = len == 2_048 && 256 <= at && at < 512;
        if code.len() <= at && at < len.saturating_sub(6) && !is_drawn && *byte != 0 {
            return false;
        }
        at = at.saturating_add(1);
    }
    at == len && image.starts_with(code) && image.ends_with(vectors)
}

const OS: &[u8] =
    b"\xa2\x00\x86\x70\x86\x71\x2c\xe0\xfe\x10\xfb\xad\xe1\xfe\x9d\x00\x20\x18\x65\x70\x85\x70\x90\x02\xe6\x71\xe8\x4c\x06\xc0";

const TUBE: &[u8] =
    b"\xa2\x00\xbd\x00\xf8\x9d\x00\xf8\xbd\x00\xf9\x9d\x00\xf9\xe8\xd0\xf1\xa0\x10\x2c\xf8\xfe\x50\xfb\xbd\x00\xf9\x8d\xf9\xfe\xe8\xd0\xf2\x88\xd0\xef\x4c\x24\xf8";

// Returns the first four bytes of PCG's reference code for a seed.
fn first_bytes(seed: u64) -> &'static [u8] {
    match seed {
        0 => b"\x88\x16\xbb\xe0",
        1 => b"\x51\x35\x35\x4a",
        _ => b"\x00\x88\x16\xbb",
    }
}

// Returns true if this is the pair of a seed.
fn is_pair(demo: &Demo, seed: u64) -> bool {
    is_image(&demo.os, OS, b"\x00\xc0\x00\xc0\x00\xc0", 16_384)
        & is_image(&demo.tube, TUBE, b"\x00\xf8\x00\xf8\x00\xf8", 2_048)
        & holds_plain_bytes(demo, seed)
        & (demo.tube.get(256..260) == Some(first_bytes(seed)))
}

#[test]
fn the_pair_of_a_seed_is_assembled_and_drawn(rt: HostRuntime) -> Result<(), Fail> {
    for seed in [0, 1, u64::MAX] {
        let demo = pair(rt.alloc(), seed)?;
        assert!(rt; is_pair(&demo, seed), "{seed}");
    }
    Ok(())
}
