ghost use Rattle.std.specs.Prelude.{◌≡◌, true, [], Some, Ok};
ghost use Rattle.lines.specs.Faults.{verdict};
ghost use Rattle.lines.specs.Stores.{drafting};
ghost use Rattle.whole.specs.Whole.{fits, whole_refusal, stored};

use crate::measure::has_room;
use lines::each::Lines;
use lines::fault::{Cause, Fault};
use lines::line::LONGEST;
use lines::source::LineSource;
use lines::store::LineStore;

// Makes the lines of a source the list of a store, whatever that was before: a draft begun, every line added in order,
// and kept. A source that is not whole, or that has no room, is refused before the draft is begun.
pub fn store_whole<S: LineSource, D: LineStore>(source: &S, store: &mut D) -> Result<(), Fault>
    ensures answer { result ≡ verdict (whole_refusal (S.LineSource.health source.now) (S.LineSource.lines source.now) (D.LineStore.store store.old)) tt }
    ensures store { D.LineStore.store store.new ≡ stored (S.LineSource.health source.now) (S.LineSource.lines source.now) (D.LineStore.store store.old) }
{
    // (A head is opened by the same test; a call for both would be a public one with a definition of its own, for two lines.)
    let health = source.health();
    if health != 0 {
        return Err(Fault::in_layer(Cause::NotWhole, health));
    }
    if !has_room(source, store) {
        return Err(Fault::in_layer(Cause::NoRoom, store.bottom()));
    }
    store.begin()?;
    add_all(source, store)?;
    store.keep()
}

// Adds all lines of a source to a draft without lines.
fn add_all<S: LineSource, D: LineStore>(source: &S, store: &mut D) -> Result<(), Fault>
    requires begun { (D.LineStore.store store.old).draft ≡ Some [] }
    requires room { fits (D.LineStore.store store.old).limits (S.LineSource.lines source.now) ≡ true }
    ensures answer { result ≡ Ok tt }
    ensures store { D.LineStore.store store.new ≡ drafting (S.LineSource.lines source.now) (D.LineStore.store store.old) }
{
    let mut lines = Lines::of(source);
    let mut room = [0; LONGEST];
    while let Some(line) = lines.next_in(&mut room) {
        store.add(line)?;
    }
    Ok(())
}
