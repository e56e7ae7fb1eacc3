//! Which rows lang items name.
use crate::rows::Text;
use goal_terms::lang::LangRow;
use vurloske_names::faults::ItemFault;

impl Text<'_> {
    /// Adds what the text says of lang items.
    pub(super) fn push_lang_rows(self, rows: &mut Vec<LangRow>) -> Result<(), ItemFault> {
        rows.extend_from_slice(self.definitions.lang_items.as_slice())?;
        Ok(())
    }
}
