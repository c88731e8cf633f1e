//! The places of the parts of a multi-pack index in its bytes.

// The place and the length of a chunk.
#[derive(Clone, Copy)]
pub(crate) struct Span {
    pub(crate) start: usize,
    pub(crate) len: usize,
}

// The places of the chunks with names and rows.
#[derive(Clone, Copy)]
pub(crate) struct Spans {
    pub(crate) names: Span,
    pub(crate) counts: Span,
    pub(crate) ids: Span,
    pub(crate) offsets: Span,
    pub(crate) wides: Option<Span>,
}

// The number of rows, and the places of counts, ids, offsets and wide offsets.
#[derive(Clone, Copy)]
pub(crate) struct Layout {
    pub(crate) count: u32,
    pub(crate) counts: Span,
    pub(crate) ids: Span,
    pub(crate) offsets: Span,
    pub(crate) wides: Option<Span>,
}
