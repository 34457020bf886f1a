//! The disc controller.
ghost use Rattle.law_chips.specs.SectorReads.{SectorIsRead};
ghost use Rattle.law_chips.specs.SectorWrites.{SectorIsWritten};
ghost use Rattle.law_chips.specs.WholeReads.{SearchedAndRead};
ghost use Rattle.law_chips.specs.Searches.{SearchEnds};
ghost use Rattle.law_chips.specs.LostData.{LostDataIsTold};
ghost use Rattle.law_chips.specs.InTime.{ReadsInTime, WritesInTime};
ghost use Rattle.law_chips.specs.Motions.{MotionsArrive};
ghost use Rattle.law_chips.specs.Interrupts.{InterruptsAreForced};
ghost use Rattle.law_chips.specs.AddressReads.{AddressIsRead};
ghost use Rattle.law_chips.specs.DiscImages.{ImagesKeepTheirKind};
ghost use Rattle.law_chips.specs.SeveralSectors.{SectorsFollow, SectorsAreWritten};

/// A search for a sector ends at the sector's beginning, or when its time is over.
pub fn a_search_ends_in_time()
    ensures { SearchEnds }
{}

/// A program that reads a sector and takes each byte in time gets the sector's 256 bytes in order.
/// The law holds from the sector's beginning and from the write of the command.
pub fn a_sector_is_read()
    ensures sector { SectorIsRead }
    ensures searched { SearchedAndRead }
    ensures in_time { ReadsInTime }
{}

/// A program that writes a sector and gives each byte in time has its 256 bytes on the disc in
/// order, and all other bytes as they were.
pub fn a_sector_is_written()
    ensures sector { SectorIsWritten }
    ensures in_time { WritesInTime }
{
    disc_image::a_byte_put_is_read_back();
}

/// During a sector no byte is lost that the program takes, or gives, in its time. If the program
/// misses one, lost data is set.
pub fn lost_data_is_told()
    ensures { LostDataIsTold }
{}

/// Restore, seek and the steps move the head to its track in their time, and set the track register
/// as the data sheet says. Verification sets seek error if head and track register differ.
pub fn a_motion_arrives()
    ensures { MotionsArrive }
{}

/// A forced interrupt ends the command at once. If its bits request INTRQ, INTRQ stays set until
/// the status is read.
pub fn an_interrupt_is_forced()
    ensures { InterruptsAreForced }
{}

/// Read address gives the six bytes of the next ID field to a program that takes each in time, and
/// puts the ID field's track into the sector register.
pub fn an_address_is_read()
    ensures { AddressIsRead }
{}

/// A command for several sectors reads, or writes, one after the other up to the last of the track,
/// for a program that is in time.
pub fn sectors_follow()
    ensures read { SectorsFollow }
    ensures written { SectorsAreWritten }
{
    disc_image::a_byte_put_is_read_back();
}

/// Whatever a program does, a disc stays an image of its kind, and is never shorter. If it is not
/// longer than its kind allows, it stays so. A drive without a disc stays without one.
pub fn images_keep_their_kind()
    ensures { ImagesKeepTheirKind }
{}
