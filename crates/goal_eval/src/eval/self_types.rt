//! Arguments whose self type is replaced.
ghost use Rattle.std.specs.Prelude.{◌≡◌, [], ◌∷◌, IfOk, MatchOption};

use goal_interner::term_nodes::{OutOfMemory, TermId};
use goal_tables::lookup::IndexedTables;

/// The self type of arguments, and the others.
pub fn split_self_type(args: &[TermId]) -> Option<(TermId, &[TermId])>
    ensures { MatchOption result (args.now ≡ []) (λ p. args.now ≡ p.0 ∷ p.1.now) }
{
    match args {
        [] => None,
        [first, rest @ ..] => Some((*first, rest)),
    }
}

/// A self type with the other arguments behind it. Want of memory is the only refusal.
pub fn with_self_type(
    rows: &IndexedTables,
    self_ty: TermId,
    rest: &[TermId],
) -> Result<Vec<TermId>, OutOfMemory>
    ensures { IfOk result (λ args. args.items ≡ self_ty ∷ rest.now) }
{
    let alloc = *rows.tables().traits.allocator();
    let mut args = Vec::new(alloc);
    args.push(self_ty)?;
    args.extend_from_slice(rest)?;
    Ok(args)
}
