//! The counts of all addresses, updated at each start.
ghost use Rattle.std.specs.Prelude.{◌≡◌, ◌++◌, IfOk, length};

use crate::count::{Count, condition_at, push_count, with_start, with_ticks};
use crate::start::Start;
use std::alloc::{AllocError, Global};

/// The number of addresses.
const ADDRESSES: usize = 65_536;

/// The address and tick of the last start. The table does not contain its ticks yet.
#[derive(Clone, Copy, Drop)]
pub(crate) struct Last {
    pub(crate) pc: u16,
    pub(crate) tick: u64,
}

/// The counts of each address, up to the last start.
#[derive(Drop)]
pub(crate) struct Tally {
    pub(crate) table: Vec<Count>,
    pub(crate) last: Option<Last>,
    ghost whole: { length table.items ≡ 65536 },
}

impl Tally {
    ghost use Rattle.follow.specs.CodeStart.{start_seen};
    ghost use Rattle.follow.specs.CodeTally.{tally_seen, none_tallied, ended_at, tally, table_lines, tallied_text};

    /// Returns counts of zero for all addresses.
    pub(crate) fn new(alloc: Global) -> Result<Tally, AllocError>
        ensures { IfOk result (λ t. tally_seen t ≡ none_tallied) }
    {
        let none = Count {
            starts: 0,
            ticks: 0,
            branches: false,
            taken: 0,
        };
        Ok(Tally {
            table: vec![in alloc; none; ADDRESSES]?,
            last: None,
        })
    }

    // Ends the last start at tick `tick`.
    #[inline(always)]
    fn end(&mut self, tick: u64)
        ensures table { self.new.table.items ≡ ended_at self.old.table.items self.old.last tick }
        ensures last { self.new.last ≡ self.old.last }
    {
        if let Some(last) = self.last {
            let at = last.pc as usize;
            self.table[at] = with_ticks(self.table[at], tick.saturating_sub(last.tick));
        }
    }

    /// Counts `start`, and ends the start before it.
    #[inline(always)]
    pub(crate) fn note(&mut self, start: &Start)
        ensures { tally_seen self.new ≡ tally (tally_seen self.old) (start_seen start.now) }
    {
        self.end(start.tick);
        let at = start.regs.pc as usize;
        self.table[at] = with_start(self.table[at], condition_at(start));
        self.last = Some(Last {
            pc: start.regs.pc,
            tick: start.tick,
        });
    }

    // Appends the line of each address that has a start.
    fn push_lines(&self, alloc: Global, text: &mut Vec<u8>) -> Result<(), AllocError>
        ensures { IfOk result (λ _. text.new.items ≡ text.old.items ++ table_lines 0 self.now.table.items) }
    {
        for (at, count) in self.table.iter().enumerate() {
            push_count(alloc, text, at as u16, *count)?;
        }
        Ok(())
    }

    /// Returns the text of the counts of a run that ends at tick `n`.
    pub(crate) fn text(self, alloc: Global, n: u64) -> Result<Vec<u8>, AllocError>
        ensures { IfOk result (λ text. text.items ≡ tallied_text n (tally_seen self)) }
    {
        let mut tally = self;
        tally.end(n);
        let mut text = Vec::new(alloc);
        tally.push_lines(alloc, &mut text)?;
        Ok(text)
    }
}
