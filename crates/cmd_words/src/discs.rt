//! The kinds of the discs, by the names of their images.
ghost use Rattle.std.specs.Prelude.{◌≡◌, option_copied};
ghost use Rattle.cmd_words.specs.Discs.{is_dsd, kind_in, kinds_of};
ghost use Rattle.cmd_words.specs.View.{seen_given};

use crate::given::Given;
use disc_image::Kind;

/// The end of the name of a DSD.
const DSD: &[u8] = b".dsd";

fn is_dsd(name: &str) -> bool
    ensures { result ≡ is_dsd name.now }
{
    let bytes = name.as_bytes();
    let start = bytes.len().saturating_sub(DSD.len());
    &bytes[start..] == DSD
}

// Returns the kind of a disc, by the value of its key.
fn kind_in(value: Option<&str>) -> Kind
    ensures { result ≡ kind_in (option_copied value.entry) }
{
    match value {
        Some(name) if is_dsd(name) => Kind::Dsd,
        _ => Kind::Ssd,
    }
}

impl<'a> Given<'a> {
    /// Returns the kinds of the discs in drive 0 and drive 1, by the names of their images. A name
    /// that ends in `.dsd` is that of a DSD. Any other is that of an SSD.
    pub fn disc_kinds(&self) -> (Kind, Kind)
        ensures { result ≡ kinds_of (seen_given self.now) }
    {
        (
            kind_in(self.value_of("--disc0")),
            kind_in(self.value_of("--disc1")),
        )
    }
}
