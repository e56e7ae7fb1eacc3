//! How deep a text may nest.
ghost use Rattle.std.specs.Prelude.{◌≡◌, ◌+◌, IfSome};

use crate::reader::Reader;
use vurloske_ast::phrase::Phrase;

/// How many levels may stand in one another.
pub(crate) const MAX_NESTING: u32 = 500;

/// What is left one level down, if that may be.
pub(crate) fn deeper(reader: &mut Reader, depth: u32) -> Option<u32>
    ensures { IfSome result (λ left. left + 1 ≡ depth) }
{
    let left = depth.checked_sub(1);
    if left.is_none() {
        reader.mistake(Phrase::LESS_NESTING);
    }
    left
}
