ghost use Rattle.std.specs.Prelude.{◌<◌, length};
ghost use Rattle.head.specs.Reading.{Fills, Adds};
ghost use Rattle.head.specs.Tables.{entries};

use crate::content::is_sound;
use crate::record::Records;
use crate::table::{Entry, Table};
use lines::fault::{Cause, Fault};
use lines::source::LineSource;
use records::delta_record::DeltaRecord;
use sets::{Lists, SerialSet};

// Fills an entry from its delta record and the records after it, up to the mark of its end.
fn fill_entry<S: LineSource>(
    records: &mut Records<'_, S>,
    d: DeltaRecord,
    entry: &mut Entry,
) -> Result<(), Fault>
    requires serial { d.serial < 256 }
    requires predecessor { d.predecessor < 256 }
    ensures { Fills records.old d entry.new result records.new }
{
    // Here and below `as` is proved to lose nothing; `try_from` would add a failure that cannot happen.
    let serial = d.serial as u8;
    let none = SerialSet::empty();
    let includes = records.take_list(b'i', serial, none)?;
    let excludes = records.take_list(b'x', serial, includes)?;
    *entry = Entry {
        sid: d.sid,
        serial,
        predecessor: d.predecessor as u8,
        lists: Lists { includes, excludes },
    };
    records.take_comment()?;
    records.take_mark(b"\x01e")
}

// Reads an entry into the table.
pub(crate) fn read_entry<S: LineSource>(
    records: &mut Records<'_, S>,
    table: &mut Table,
) -> Result<(), Fault>
    requires { length (entries table.old) < 63 }
    ensures { Adds records.old (entries table.old) result records.new (entries table.new) }
{
    records.take_counts()?;
    let fault = records.refuse(Cause::HeadContent);
    let d = records.take_delta()?;
    if !is_sound(table.entries(), d) {
        return Err(fault);
    }
    fill_entry(records, d, &mut table.entries[table.count])?;
    table.count += 1;
    Ok(())
}
