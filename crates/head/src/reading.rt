ghost use Rattle.std.specs.Prelude.{◌≡◌, ◌≤◌, length, IfOk};
ghost use Rattle.head.specs.Heads.{head};
ghost use Rattle.head.specs.Reading.{Ends};
ghost use Rattle.head.specs.Tables.{entries, loaded};
ghost use Rattle.head.specs.Whole.{Whole};

use crate::entry::read_entry;
use crate::record::Records;
use crate::table::{Table, last_serial};
use lines::fault::Fault;
use lines::source::LineSource;

// A head that was read: its deltas, and the number of its records.
#[derive(Clone, Copy)]
pub struct Head {
    pub table: Table,
    pub records: usize,
}

// The marks that end the head.
fn take_last<S: LineSource>(records: &mut Records<'_, S>) -> Result<(), Fault>
    ensures { Ends records.old result records.new }
{
    records.take_mark(b"\x01u")?;
    records.take_mark(b"\x01U")?;
    records.take_mark(b"\x01t")?;
    records.take_mark(b"\x01T")
}

// Reads the head of an s-file: the first records of the source. (That it has at most 63 entries is the table's own fact,
// said again for callers who see a head and not how a table is made.)
pub fn read_head<S: LineSource>(source: &S) -> Result<Head, Fault>
    ensures value { loaded result ≡ head (S.LineSource.lines source.now) }
    ensures whole { IfOk result (λ h. Whole (entries h.table)) }
    ensures within { IfOk result (λ h. h.records ≤ length (S.LineSource.lines source.now)) }
    ensures few { IfOk result (λ h. length (entries h.table) ≤ 63) }
{
    let mut records = Records::of(source);
    let mut table = Table::new();
    while last_serial(table.entries()) != Some(1) {
        read_entry(&mut records, &mut table)?;
    }
    take_last(&mut records)?;
    Ok(Head {
        table,
        records: records.passed(),
    })
}
