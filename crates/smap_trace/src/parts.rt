//! What a frame line is made of.

/// What a frame line is made of, lent from the line, which is `head`, `url`, `:`, the line, `:`, the column and `tail`,
/// joined. The line and the column are as printed, from 1.
#[derive(Clone, Copy)]
pub struct Frame<'a> {
    pub head: &'a [u8],
    pub url: &'a [u8],
    pub line: u32,
    pub column: u32,
    pub tail: &'a [u8],
}
