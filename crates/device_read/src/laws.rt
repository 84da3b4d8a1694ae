//! What a device that reads as a content has for its readers.

ghost use Rattle.device_read.specs.Laws.{FaultyLeavesDoNotRead, MissingLeavesAreAtFault, NoneNeedBeAtFault, ReadersHavePages, ReadersHaveTables, ReadersHaveValues, SpoiltDevicesHaveReaders};

use stored::what_is_read_is_regular;

/// The tables of a reader are those of the machine that an opening makes.
pub fn readers_have_tables()
    ensures { ReadersHaveTables }
{}

/// The device has the pages of each table, and they have all its rows, upwards and downwards.
pub fn readers_have_pages()
    ensures { ReadersHavePages }
{
    what_is_read_is_regular();
}

/// The value of a key whose leaf is there is that of the machine that an opening makes of the whole device.
pub fn readers_have_values()
    ensures { ReadersHaveValues }
{
    what_is_read_is_regular();
}

/// A device with a leaf at fault reads as no content.
pub fn faulty_leaves_do_not_read()
    ensures { FaultyLeavesDoNotRead }
{}

/// A leaf at fault below a reader is damage of the device.
pub fn missing_leaves_are_at_fault()
    ensures { MissingLeavesAreAtFault }
{}

/// A device that a reader was opened on is one of those that may have leaves at fault.
pub fn none_need_be_at_fault()
    ensures { NoneNeedBeAtFault }
{}

/// A reader of a device with leaves at fault is one of the whole device.
pub fn spoilt_devices_have_readers()
    ensures { SpoiltDevicesHaveReaders }
{}
