//! The labels of a source text.
ghost use Rattle.std.specs.Prelude.{◌≡◌, ◌++◌, ℕ, List, true, not, option_to_list, option_map, IfOk};
ghost use Rattle.std.specs.List.{list_any};
ghost use Rattle.asm65.specs.Placement.{is_among};
ghost use Rattle.asm65.specs.Source.{value_of_label, label_with};
ghost use Rattle.asm65.specs.CodeLabels.{labels_in, names_in, seen_name};

use std::alloc::AllocError;
use std::collections::BTreeMap;

/// The address of each label.
pub(crate) type Labels<'a> = BTreeMap<&'a [u8], u32>;

pub(crate) fn address_of<'a>(labels: &Labels<'a>, name: &'a [u8]) -> Option<u32>
    ensures { result ≡ value_of_label (labels_in labels.now) name.now }
{
    labels.get(&name).copied()
}

/// Gives a label, if there is one, its address. Returns `false` if an earlier line has this label.
pub(crate) fn define<'a>(
    labels: &mut Labels<'a>,
    label: Option<&'a [u8]>,
    address: u32,
) -> Result<bool, AllocError>
    ensures new { let name = option_to_list (option_map seen_name label.entry) in
        IfOk result (λ new. new ≡ not (list_any (is_among (names_in labels.old)) name)) }
    ensures labelled { IfOk result (λ new. new ≡ true → (q : List ℕ) → value_of_label (labels_in labels.new) q
        ≡ value_of_label (labels_in labels.old ++ label_with address (option_map seen_name label.entry)) q) }
{
    let Some(name) = label else {
        return Ok(true);
    };
    let earlier = labels.insert(name, address)?;
    Ok(earlier.is_none())
}
