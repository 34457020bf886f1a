//! The memory map.
ghost use Rattle.std.specs.Prelude.{◌≡◌, ◌≤◌};
ghost use Rattle.host_devices.specs.Map.{Sheila, place_of, stretch, memory_map, stretched_in};

/// The devices in SHEILA. (Acorn, BBC Microcomputer Advanced User Guide, Sheila.)
#[derive(Clone, Copy, Debug, PartialEq, Eq)]
pub enum Device {
    /// The 6845.
    Crtc,
    /// A stub of the serial interface.
    Acia,
    /// A stub of the serial ULA.
    SerialUla,
    /// The video ULA.
    VideoUla,
    /// The latch of the paged ROM: ROMSEL, at FE30.
    RomLatch,
    /// The system's 6522.
    SystemVia,
    /// The user's 6522.
    UserVia,
    /// The latch of the disc drives.
    DiscLatch,
    /// The WD1770.
    DiscController,
    /// Nothing, Econet included.
    Absent,
    /// The analogue converter.
    Adc,
    /// The Tube.
    Tube,
}

// Returns the device at an address from FE00 to FE7F.
fn device_in_lower_half(at: u16) -> Device
    requires low { 0xfe00 ≤ at }
    requires high { at ≤ 0xfe7f }
    ensures { place_of at ≡ Sheila result }
{
    if at <= 0xfe07 {
        Device::Crtc
    } else if at <= 0xfe0f {
        Device::Acia
    } else if at <= 0xfe1f {
        Device::SerialUla
    } else if at <= 0xfe2f {
        Device::VideoUla
    } else if at <= 0xfe3f {
        Device::RomLatch
    } else if at <= 0xfe5f {
        Device::SystemVia
    } else {
        Device::UserVia
    }
}

/// Returns the device at an address in SHEILA, from FE00 to FEFF.
pub fn device_at(at: u16) -> Device
    requires low { 0xfe00 ≤ at }
    requires high { at ≤ 0xfeff }
    ensures { place_of at ≡ Sheila result }
{
    if at <= 0xfe7f {
        device_in_lower_half(at)
    } else if at <= 0xfe83 {
        Device::DiscLatch
    } else if at <= 0xfe87 {
        Device::DiscController
    } else if at <= 0xfebf {
        Device::Absent
    } else if at <= 0xfedf {
        Device::Adc
    } else {
        Device::Tube
    }
}

/// Reports if an access waits for the 1 MHz clock.
fn is_stretched(at: u16) -> bool
    ensures { result ≡ stretched_in memory_map at }
{
    (0xfc00 <= at && at <= 0xfe1f)
        || (0xfe40 <= at && at <= 0xfe7f)
        || (0xfec0 <= at && at <= 0xfedf)
}

/// Returns the number of 2 MHz cycles of an access that begins in `cycle`, counted from power-on.
pub fn stretch(at: u16, cycle: u64) -> u8
    ensures value { result ≡ stretch at cycle }
    ensures some { 1 ≤ result }
    ensures bound { result ≤ 3 }
{
    if !is_stretched(at) {
        1
    } else if cycle % 2 == 0 {
        2
    } else {
        3
    }
}
