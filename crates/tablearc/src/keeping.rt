ghost use Rattle.std.specs.Prelude.{◌≡◌};
ghost use Rattle.lines.specs.Faults.{verdict};
ghost use Rattle.whole.specs.Whole.{whole_refusal, stored};
ghost use Rattle.tablearc.specs.Keeping.{kept_as};

use crate::report::Kept;
use checksum::sum::sum_of;
use lines::fault::Fault;
use lines::source::LineSource;
use lines::store::LineStore;
use whole::compared::first_difference;
use whole::measure::total_bytes;
use whole::stored::store_whole;

// Stores a table in a store, reads it back and compares it line for line. Nothing ever differs.
pub fn keep_table<S: LineSource, D: LineStore>(table: &S, store: &mut D) -> Result<Kept, Fault>
    ensures answer { result ≡ verdict (whole_refusal (S.LineSource.health table.now) (S.LineSource.lines table.now) (D.LineStore.store store.old)) (kept_as (S.LineSource.lines table.now) (D.LineStore.store store.old).limits) }
    ensures store { D.LineStore.store store.new ≡ stored (S.LineSource.health table.now) (S.LineSource.lines table.now) (D.LineStore.store store.old) }
{
    store_whole(table, store)?;
    let lines = store.count();
    let bytes = total_bytes(store);
    let (most_lines, most_bytes) = store.limits();
    Ok(Kept {
        lines,
        bytes,
        sum: sum_of(store),
        health: store.health(),
        difference: first_difference(table, store),
        room: (
            most_lines.saturating_sub(lines),
            most_bytes.saturating_sub(bytes),
        ),
    })
}
