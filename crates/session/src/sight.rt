//! What a side reads at its status registers.
ghost use Rattle.std.specs.Prelude.{◌≡◌};
ghost use Rattle.tube_chip.specs.declared.Op.TheVariants.{Read};
ghost use Rattle.session.specs.CodeSight.{byte_seen};

use tube_chip::Op;

/// Returns the byte that `op` reads, if it reads one of the side's status registers. Their bytes
/// are `status`.
pub(crate) fn byte_of(status: &[u8; 4], op: Op) -> Option<u8>
    ensures { result ≡ byte_seen status.now op }
{
    match op {
        Op::Read(number) => status_of(status, number),
        Op::Write(..) | Op::Reset => None,
    }
}

fn status_of(status: &[u8; 4], number: u8) -> Option<u8>
    ensures { (op : Op) → op ≡ Read number → result ≡ byte_seen status.now op }
{
    if number == 0 {
        Some(status[0])
    } else if number == 2 {
        Some(status[1])
    } else if number == 4 {
        Some(status[2])
    } else if number == 6 {
        Some(status[3])
    } else {
        None
    }
}
