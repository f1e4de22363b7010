use anyhow::anyhow;
use checksum::layer::Checksum;
use lines::line::LF;
use lines::source::LineSource;
use lines::text::Text;
use whole::measure::total_bytes;
use whole::written::write_text;

// Writes what lies under a layer as a text, changes one byte of a line in it, and prints the health before and after.
pub(crate) fn show_damage<S: LineSource>(rt: &HostRuntime, below: &S) -> anyhow::Result<()> {
    let size = total_bytes(below).saturating_add(below.count());
    let mut copy = vec![in rt.alloc(); 0u8; size]?;
    write_text(below, copy.as_mut_slice())?;
    let good = Checksum::new(Text::new(copy.as_slice())).health();
    // the last byte that is no line end
    let Some(at) = copy.as_slice().iter().rposition(|byte| *byte != LF) else {
        return Err(anyhow!("the copy is empty"));
    };
    copy[at] ^= 1;
    let bad = Checksum::new(Text::new(copy.as_slice())).health();
    println!(rt; "  a copy of {size} bytes: health {good}; with byte {at} changed: health {bad}")?;
    Ok(())
}
