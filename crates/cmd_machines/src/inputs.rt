//! The bytes that a command read.
ghost use Rattle.std.specs.Prelude.{◌≡◌, map, IfOk};
ghost use Rattle.cmd_stages.specs.View.{seen_input};
ghost use Rattle.cmd_machines.specs.Inputs.{no_inputs, with_input, inputs_of};
ghost use Rattle.cmd_machines.specs.View.{seen_inputs};

use cmd_words::InputKind;
use std::alloc::{AllocError, Global};

/// The bytes that a command read, by their purpose. A required field is empty if its file wasn't
/// read.
#[derive(Drop)]
pub struct Inputs {
    pub trace: Vec<u8>,
    pub source: Vec<u8>,
    pub image: Vec<u8>,
    pub state: Vec<u8>,
    pub os: Vec<u8>,
    pub tube: Vec<u8>,
    pub roms: Vec<(u8, Vec<u8>)>,
    pub font: Option<Vec<u8>>,
    pub disc0: Option<Vec<u8>>,
    pub disc1: Option<Vec<u8>>,
    pub keys: Option<Vec<u8>>,
    pub points: Option<Vec<u8>>,
}

impl Inputs {
    pub fn none(alloc: Global) -> Inputs
        ensures { seen_inputs result ≡ no_inputs }
    {
        Inputs {
            trace: Vec::new(alloc),
            source: Vec::new(alloc),
            image: Vec::new(alloc),
            state: Vec::new(alloc),
            os: Vec::new(alloc),
            tube: Vec::new(alloc),
            roms: Vec::new(alloc),
            font: None,
            disc0: None,
            disc1: None,
            keys: None,
            points: None,
        }
    }

    fn put(&mut self, slot: InputKind, bytes: Vec<u8>) -> Result<(), AllocError>
        ensures { IfOk result (λ _. seen_inputs self.new ≡ with_input slot bytes.items (seen_inputs self.old)) }
    {
        match slot {
            InputKind::Trace => self.trace = bytes,
            InputKind::Source => self.source = bytes,
            InputKind::Image => self.image = bytes,
            InputKind::State => self.state = bytes,
            InputKind::Os => self.os = bytes,
            InputKind::Tube => self.tube = bytes,
            InputKind::Rom(n) => self.roms.push((n, bytes))?,
            InputKind::Font => self.font = Some(bytes),
            InputKind::Disc(0) => self.disc0 = Some(bytes),
            InputKind::Disc(_) => self.disc1 = Some(bytes),
            InputKind::Keys => self.keys = Some(bytes),
            InputKind::Points => self.points = Some(bytes),
        }
        Ok(())
    }

    /// Makes the inputs of the bytes that were read, each in its place.
    #[tactic(auto, unfolding(crate::specs::Inputs::inputs_of))]
    pub fn of(alloc: Global, list: Vec<(InputKind, Vec<u8>)>) -> Result<Inputs, AllocError>
        ensures { IfOk result (λ inputs. seen_inputs inputs ≡ inputs_of (map seen_input list.items)) }
    {
        let mut inputs = Inputs::none(alloc);
        for (slot, bytes) in list {
            inputs.put(slot, bytes)?;
        }
        Ok(inputs)
    }
}
