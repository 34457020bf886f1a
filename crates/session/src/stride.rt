//! Lengths of the parasite's strides ahead of the host.
use beeb_bits::Tick;

/// The lengths of strides, in ticks. No promise depends on them.
#[derive(Clone, Copy, Debug)]
pub struct Strides {
    /// The first stride from a mark.
    pub first: u64,
    /// The fewest ticks of a stride, and of all strides from one mark.
    pub fewest: u64,
    /// The most ticks of a stride.
    pub most: u64,
    /// The most ticks of all strides from one mark.
    pub span: u64,
}

// In ticks: the first stride from a mark, the fewest and the most of one stride, and the most of
// all strides from one mark.
const FIRST: u64 = 128;

const FEWEST: u64 = 64;

const MOST: u64 = 2_048;

const SPAN: u64 = 1_048_576;

/// The usual lengths.
pub const USUAL: Strides = Strides {
    first: FIRST,
    fewest: FEWEST,
    most: MOST,
    span: SPAN,
};

/// The length of the next stride, and of all strides from one mark. Both grow while the host forces
/// no rollback.
#[derive(Drop)]
pub(crate) struct Stride {
    lengths: Strides,
    ticks: u64,
    // The present upper limit of a stride.
    cap: u64,
    span: u64,
}

impl Stride {
    pub(crate) fn new(lengths: Strides) -> Stride {
        Stride {
            lengths,
            ticks: lengths.first,
            cap: lengths.most,
            span: lengths.span,
        }
    }

    /// Starts from a new mark. Returns the tick that ends its first stride.
    pub(crate) fn set_out(&mut self, mark: Tick) -> Tick {
        self.ticks = self.lengths.first.min(self.cap);
        self.end(mark)
    }

    /// Returns the tick that ends the next stride, which starts at `from`.
    pub(crate) fn end(&self, from: Tick) -> Tick {
        Tick(from.0.saturating_add(self.ticks))
    }

    /// Returns the limit of the strides from `mark`: none starts at that tick or later.
    pub(crate) fn limit(&self, mark: Tick) -> Tick {
        Tick(mark.0.saturating_add(self.span))
    }

    /// Records a stride that was done: the next is longer.
    pub(crate) fn is_made(&mut self) {
        let cap = self.cap.saturating_add(self.cap / 4 + 1);
        self.cap = cap.min(self.lengths.most);
        self.ticks = self.ticks.saturating_mul(2).min(self.cap);
    }

    /// Records that all strides from a mark were confirmed.
    pub(crate) fn stands(&mut self) {
        let span = self.span.saturating_add(self.span / 4 + 1);
        self.span = span.min(self.lengths.span);
    }

    /// Records a rollback: only the given number of ticks after the mark was confirmed.
    pub(crate) fn is_cut(&mut self, speculation: u64) {
        let fewest = self.lengths.fewest;
        self.span = (speculation / 2).max(fewest).min(self.lengths.span);
        self.cap = (self.cap / 4).max(fewest).min(self.lengths.most);
    }
}
