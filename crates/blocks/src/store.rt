ghost use Rattle.std.specs.Prelude.{◌≡◌, length, if◌then◌else◌, MatchResult, refl};
ghost use Rattle.lines.specs.Faults.{verdict};
ghost use Rattle.lines.specs.Lines.{begin_refusal, add_refusal, patch_refusal, keep_refusal};
ghost use Rattle.lines.specs.Stores.{begun, added, patched, kept};
ghost use Rattle.blocks.specs.Blocks.{fits, stands, block_refusal, Begins, Listed, Listless, Drafted, Draftless};
ghost use Rattle.blocks.specs.Stores.{store_list, store_draft, store_limits, store_health, block_store, StoreLaid};
ghost use Rattle.blocks.specs.BlockLaws.{list_lawful, draft_lawful, limits_lawful};

use crate::indexed::Indexed;
use crate::layout::Layout;
use crate::marks::Marks;
use crate::packed::Packed;
use crate::sheet::{add_line, change_line, read_line};
use crate::tally::Tally;
use lines::fault::{Cause, Fault};
use lines::line::is_line;
use lines::source::{LineSource, MOST_LINES};
use lines::store::{LineStore, MOST_BYTES};
use std::marker::PhantomData;

// A store over one lent block with two sheets: the current list lies on the one, the draft on the other.
#[derive(Drop)]
pub struct BlockStore<'a, L> {
    block: &'a mut [u8],
    at: Marks,
    layout: PhantomData<L>,
}

// Kind 2: the lines of a sheet are packed, each ended by LF.
pub type Image<'a> = BlockStore<'a, Packed>;

// Kind 3: a sheet has an index and a text.
pub type IndexedBlock<'a> = BlockStore<'a, Indexed>;

impl<'a, L: Layout> BlockStore<'a, L> {
    // Are the limits at most 4,000 and 24,000, and has a block of so many bytes both sheets?
    fn fits(size: usize, lines: usize, bytes: usize) -> bool
        ensures { result ≡ fits L.Layout.size lines bytes size }
    {
        lines <= MOST_LINES && bytes <= MOST_BYTES && 2 * L::size(lines, bytes) <= size
    }

    // Refuses a block that is short for the limits, and limits above 4,000 or 24,000.
    pub fn check(block: &[u8], lines: usize, bytes: usize) -> Result<(), Fault>
        ensures { result ≡ verdict (block_refusal L.Layout.size lines bytes (length block.now)) tt }
    {
        if Self::fits(block.len(), lines, bytes) {
            return Ok(());
        }
        Err(Fault::plain(Cause::BlockForm))
    }

    // A store with no lines, no draft and health 0; where `check` refuses, its limits are 0.
    pub fn new(block: &'a mut [u8], lines: usize, bytes: usize) -> BlockStore<'a, L>
        ensures begins { Begins (store_list L.Layout.own result) (store_draft L.Layout.own result) (store_health result) }
        ensures limits { store_limits L.Layout.own result ≡ (if fits L.Layout.size lines bytes (length block.old) then (lines, bytes) else (0, 0)) }
        ensures layout { StoreLaid L.Layout.own result }
    {
        BlockStore {
            block,
            at: Marks::new(lines, bytes),
            layout: PhantomData,
        }
    }

    // Do the limits fit the block, and the counts the limits?
    fn stands(&self) -> bool
        ensures { result ≡ stands L.Layout.size self.now.block.now self.now.at }
    {
        Self::fits(self.block.len(), self.at.lines, self.at.bytes) && self.at.within()
    }

    // The numbers of the list's sheet, or the refusal of a read where the store does not stand: it has no lines then.
    fn listed(&self) -> Result<Tally, Fault>
        ensures { MatchResult result (λ t. Listed L.Layout.size self.now.block.now self.now.at t) (λ e. Listless L.Layout.size self.now.block.now self.now.at e) }
    {
        let Marks {
            lines,
            bytes,
            count,
            ..
        } = self.at;
        if !self.stands() {
            return Err(Fault::plain(Cause::NoSuchLine));
        }
        Ok(Tally {
            lines,
            bytes,
            count,
        })
    }

    // The numbers of the draft's sheet, or the refusal of a call that needs a draft.
    fn drafted(&self) -> Result<Tally, Fault>
        ensures { MatchResult result (λ t. Drafted L.Layout.size self.now.block.now self.now.at t) (λ e. Draftless L.Layout.size self.now.block.now self.now.at e) }
    {
        let Marks {
            lines,
            bytes,
            draft,
            ..
        } = self.at;
        match draft {
            Some(count) if self.stands() => Ok(Tally {
                lines,
                bytes,
                count,
            }),
            _ => Err(Fault::plain(Cause::NoDraft)),
        }
    }
}

impl<'a, L: Layout> LineSource for BlockStore<'a, L> {
    ghost lines = { λ s. store_list L.Layout.own s };

    ghost health = { λ s. store_health s };

    ghost lawful = { λ s. list_lawful L.Layout.lines L.Layout.size L.Layout.counted L.Layout.lawful s.block.now s.at };

    fn count(&self) -> usize {
        self.listed().map_or(0, |list| list.count)
    }

    fn health(&self) -> u8 {
        0
    }

    fn read(&self, n: usize, buf: &mut [u8]) -> Result<usize, Fault> {
        let list = self.listed()?;
        let half = self.at.list.range(L::size(list.lines, list.bytes));
        read_line::<L>(&self.block[half], list, n, buf)
    }
}

impl<'a, L: Layout> LineStore for BlockStore<'a, L> {
    ghost store = { λ s. block_store L.Layout.own s };

    ghost lawful_draft = { λ s. draft_lawful L.Layout.lines L.Layout.size L.Layout.counted L.Layout.lawful s.block.now s.at };

    ghost lawful_limits = { λ s. limits_lawful L.Layout.size s.block.now s.at };

    ghost lawful_bottom = { λ _. L.Layout.lawful_kind };

    ghost same_lines = { λ _. refl };

    ghost same_health = { λ _. refl };

    fn limits(&self) -> (usize, usize) {
        self.listed()
            .map_or((0, 0), |list| (list.lines, list.bytes))
    }

    fn bottom(&self) -> u8 {
        L::KIND
    }

    // The storing calls repeat the two clauses of their trait, which those of an impl replace, and add `layout`: where
    // list and draft lie in their sheets as the layout has them, they do so afterwards.
    fn begin(&mut self) -> Result<(), Fault>
        ensures answer { result ≡ verdict (begin_refusal (block_store L.Layout.own self.old).limits) tt }
        ensures store { block_store L.Layout.own self.new ≡ begun (block_store L.Layout.own self.old) }
        ensures layout { StoreLaid L.Layout.own self.old → StoreLaid L.Layout.own self.new }
    {
        let (lines, _) = self.limits();
        if lines == 0 {
            return Err(Fault::plain(Cause::NoRoom));
        }
        self.at.draft = Some(0);
        Ok(())
    }

    fn add(&mut self, line: &[u8]) -> Result<(), Fault>
        ensures answer { result ≡ verdict (add_refusal (block_store L.Layout.own self.old).draft (block_store L.Layout.own self.old).limits line.now) tt }
        ensures store { block_store L.Layout.own self.new ≡ added line.now (block_store L.Layout.own self.old) }
        ensures layout { StoreLaid L.Layout.own self.old → StoreLaid L.Layout.own self.new }
    {
        let draft = self.drafted()?;
        if !is_line(line) {
            return Err(Fault::plain(Cause::NotALine));
        }
        let half = self
            .at
            .list
            .other()
            .range(L::size(draft.lines, draft.bytes));
        add_line::<L>(&mut self.block[half], draft, line)?;
        self.at.draft = Some(draft.count + 1);
        Ok(())
    }

    // A checksum layer asks this how long the first line is; where it is inlined, the compiler can leave the copy out.
    #[inline]
    fn look(&self, n: usize, buf: &mut [u8]) -> Result<usize, Fault> {
        let draft = self.drafted()?;
        let half = self
            .at
            .list
            .other()
            .range(L::size(draft.lines, draft.bytes));
        read_line::<L>(&self.block[half], draft, n, buf)
    }

    fn patch(&mut self, n: usize, line: &[u8]) -> Result<(), Fault>
        ensures answer { result ≡ verdict (patch_refusal (block_store L.Layout.own self.old).draft n line.now) tt }
        ensures store { block_store L.Layout.own self.new ≡ patched n line.now (block_store L.Layout.own self.old) }
        ensures layout { StoreLaid L.Layout.own self.old → StoreLaid L.Layout.own self.new }
    {
        let draft = self.drafted()?;
        if !is_line(line) {
            return Err(Fault::plain(Cause::NotALine));
        }
        let half = self
            .at
            .list
            .other()
            .range(L::size(draft.lines, draft.bytes));
        change_line::<L>(&mut self.block[half], draft, n, line)
    }

    fn keep(&mut self) -> Result<(), Fault>
        ensures answer { result ≡ verdict (keep_refusal (block_store L.Layout.own self.old).draft) tt }
        ensures store { block_store L.Layout.own self.new ≡ kept (block_store L.Layout.own self.old) }
        ensures layout { StoreLaid L.Layout.own self.old → StoreLaid L.Layout.own self.new }
    {
        let draft = self.drafted()?;
        self.at = Marks {
            list: self.at.list.other(),
            count: draft.count,
            draft: None,
            ..self.at
        };
        Ok(())
    }
}
