ghost use Rattle.std.specs.Prelude.{◌≡◌};
ghost use Rattle.lines.specs.Lines.{total};
ghost use Rattle.whole.specs.Whole.{fits};

use lines::each::Lines;
use lines::line::LONGEST;
use lines::source::LineSource;
use lines::store::LineStore;

// The bytes of all lines of a source, LF not counted.
pub fn total_bytes<S: LineSource>(source: &S) -> usize
    ensures { result ≡ total (S.LineSource.lines source.now) }
{
    // room lent once: a `for` over `Lines` would fill and copy room of its own for each line
    let mut lines = Lines::of(source);
    let mut room = [0; LONGEST];
    let mut bytes = 0;
    while let Some(line) = lines.next_in(&mut room) {
        bytes += line.len();
    }
    bytes
}

// Would the lines of a source pass no limit of a store?
pub fn has_room<S: LineSource, D: LineStore>(source: &S, store: &D) -> bool
    ensures { result ≡ fits (D.LineStore.store store.now).limits (S.LineSource.lines source.now) }
{
    let (lines, bytes) = store.limits();
    lines != 0 && source.count() <= lines && total_bytes(source) <= bytes
}
