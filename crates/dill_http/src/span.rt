/// A part of a line, from the byte at `from` to before the one at `to`.
#[derive(Clone, Copy, Debug, PartialEq, Eq)]
pub struct Span {
    pub from: usize,
    pub to: usize,
}

/// The two parts of a line: command and resource, or name and value.
#[derive(Clone, Copy, Debug, PartialEq, Eq)]
pub struct Cut {
    pub first: Span,
    pub second: Span,
}
