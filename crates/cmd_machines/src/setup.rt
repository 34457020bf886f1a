//! The setup of the machines, from the options.
ghost use Rattle.std.specs.Prelude.{◌≡◌, ◌≤◌, map};

use beeb_bits::Clock;
use bus_plug::BusDevice;
use cmd_words::Given;
use disc_image::Kind;

/// The setup of the machines: their clock, the kinds of the discs in drive 0 and drive 1, the
/// number of devices asked for, and the plugged devices. `tube` is true if the host has a Tube.
#[derive(Drop)]
pub struct Setup<D> {
    pub clock: Clock,
    pub kinds: (Kind, Kind),
    pub number: u8,
    pub plugs: Vec<D>,
    pub tube: bool,
    ghost most: { number ≤ 8 },
}

impl<D: BusDevice> Setup<D> {
    ghost use Rattle.cmd_words.specs.View.{seen_given};
    ghost use Rattle.cmd_machines.specs.Setup.{setup_of};
    ghost use Rattle.cmd_machines.specs.View.{seen_setup};

    /// Makes the setup from the options. The first `number` devices of `plugs` are plugged, or all
    /// if they are fewer. The others are dropped.
    #[tactic(auto, using(crate::proofs::PlugLemmas::first_plugs))]
    pub fn of(given: &Given<'_>, plugs: Vec<D>) -> Setup<D>
        ensures { seen_setup D.plug result ≡ setup_of (seen_given given.now) (map D.plug plugs.items) }
    {
        let number = given.plugs();
        let mut plugs = plugs;
        plugs.truncate(number);
        Setup {
            clock: given.clock(),
            kinds: given.disc_kinds(),
            number: number as u8,
            plugs,
            tube: given.tube(),
        }
    }
}
