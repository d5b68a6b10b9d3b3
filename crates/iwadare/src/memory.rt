// The words of a memory: their places, what they are below, and how many blocks a delivery is late.

// Of the coder: the pending word.
pub(crate) const CODER_WORDS: usize = 1;

// Of the decoder: the fill, the pending word, the last 12 terms, and 18 delayed blocks, oldest first.
pub(crate) const DECODER_WORDS: usize = 21;

// Places in the decoder's.
pub(crate) const FILL: usize = 0;

pub(crate) const PENDING: usize = 1;

pub(crate) const TERMS: usize = 2;

pub(crate) const OLDEST: usize = 3;

// The block 15 back.
pub(crate) const BACK_15: usize = DECODER_WORDS - 15;

pub(crate) const DELAY: u64 = 18;

pub(crate) const PENDING_BOUND: u64 = 1 << 18;

// Of the last 12 terms.
pub(crate) const TERMS_BOUND: u64 = 1 << 12;

// Of a delayed block, and of information.
pub(crate) const DELAYED_BOUND: u64 = 1 << 2;

// Of a received block.
pub(crate) const RECEIVED_BOUND: u64 = 1 << 3;
