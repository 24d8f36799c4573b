//! Names of sources.
use crate::answer::Answer;
use crate::fault::RowFault;
use crate::row::Row;
use smap_resolve::{SourceName, resolve};

/// A root or none, a source, and a base or none: the name, and whether that is a URL or the text.
pub(crate) fn answer(row: &Row<'_>, answer: &mut Answer) -> Result<(), RowFault> {
    match name_of(row)? {
        SourceName::Resolved(url) => {
            answer.put_text(&url)?;
            answer.put_text("url")
        }
        SourceName::Kept(text) => {
            answer.put_text(&text)?;
            answer.put_text("text")
        }
    }
}

fn name_of(row: &Row<'_>) -> Result<SourceName, RowFault> {
    let (root, source, base) = (row.text_or_none(1)?, row.text(2)?, row.url_or_none(3)?);
    resolve(row.alloc(), root.as_deref(), &source, base.as_ref()).map_err(|_| RowFault::Memory)
}
