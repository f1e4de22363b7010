use crate::damage::show_damage;
use crate::failure::Failure;
use crate::keeping::keep_table;
use blocks::store::{Image, IndexedBlock};
use checksum::layer::Checksum;
use lines::source::MOST_LINES;
use lines::store::{LineStore, MOST_BYTES};
use lines::text::Text;

// The blocks that the two stores need for the highest limits: two sheets each.
const IMAGE_BLOCK: usize = 2 * (MOST_LINES + MOST_BYTES);

const INDEXED_BLOCK: usize = 2 * (4 * MOST_LINES + MOST_BYTES);

// Stores a table in a checksum layer over an image and in one over an indexed block, and prints what became of it. The
// two are the cases of one store whose layouts have no name outside its crate; a function generic in the store would be
// handed `check` and `new`, and nothing else would be left of it.
pub(crate) fn keep_in_both(rt: &HostRuntime, bytes: &[u8]) -> Result<(), Failure> {
    Text::check(bytes)?;
    let table = Text::new(bytes);
    let mut block = vec![in rt.alloc(); 0u8; IMAGE_BLOCK]?;
    Image::check(block.as_slice(), MOST_LINES, MOST_BYTES)?;
    let image = Image::new(block.as_mut_slice(), MOST_LINES, MOST_BYTES);
    keep_in(rt, "checksum over image", &table, image)?;
    let mut block = vec![in rt.alloc(); 0u8; INDEXED_BLOCK]?;
    IndexedBlock::check(block.as_slice(), MOST_LINES, MOST_BYTES)?;
    let indexed = IndexedBlock::new(block.as_mut_slice(), MOST_LINES, MOST_BYTES);
    keep_in(rt, "checksum over indexed block", &table, indexed)
}

// Stores a table in a checksum layer over a store, prints what became of it, and shows that a damaged copy is found out.
fn keep_in<S: LineStore + Drop>(
    rt: &HostRuntime,
    name: &str,
    table: &Text,
    store: S,
) -> Result<(), Failure> {
    let mut pile = Checksum::new(store);
    let kept = keep_table(table, &mut pile)?;
    println!(rt; "{name}: {kept}")?;
    show_damage(rt, pile.below())?;
    Ok(())
}
