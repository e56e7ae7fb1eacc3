//! What the built-in rule of the item `Output` says.
ghost use Rattle.std.specs.Prelude.{◌≡◌, IfOk};
ghost use Rattle.goal_interner.specs.TableMeaning.{Keeps};
ghost use Rattle.goal_terms.specs.declared.lang.LangItem.TheVariants as lang;
ghost use Rattle.goal_lists.specs.BuiltinWords.{call_output};
ghost use Rattle.goal_lists.specs.Interned.{IsIn, AreIn, ListedIn, erased_at, erased_all, listed_at};

use crate::builtin::call_premises::{call_premises, output_of};
use crate::builtin::calls::signature_of;
use crate::candidates::interned::ListedTerm;
use crate::candidates::row_terms::allocator_of;
use goal_interner::term_nodes::{OutOfMemory, TermId};
use goal_interner::term_table::TermTable;
use goal_tables::lookup::IndexedTables;
use goal_terms::lang::LangItem;

/// What is said of an item `Output`: the output of the signature by which the self type is called, where
/// the call's premises hold. The table gets the terms. Want of memory or of numbers is the only refusal.
pub(crate) fn output_rule(
    rows: &IndexedTables,
    terms: &mut TermTable,
    self_ty: TermId,
    args: &[TermId],
) -> Result<ListedTerm, OutOfMemory>
    requires self_in { IsIn terms.old self_ty }
    requires args_in { AreIn terms.old args.now }
    ensures kept { Keeps terms.old terms.new }
    ensures within { IfOk result (ListedIn terms.new) }
    ensures listed { IfOk result (λ l. listed_at terms.new l ≡ call_output rows.now (erased_all terms.old args.now) (erased_at terms.old self_ty)) }
{
    let Some(sig) = signature_of(rows, terms, LangItem::FnOnce, self_ty)? else {
        return Ok(ListedTerm::Nothing);
    };
    let Some(output) = output_of(terms, sig) else {
        return Ok(ListedTerm::Nothing);
    };
    let Some(sized) = rows.lang_trait(LangItem::Sized) else {
        return Ok(ListedTerm::Nothing);
    };
    let premises = call_premises(allocator_of(rows), terms, sized, sig, args, output)?;
    Ok(ListedTerm::Behind(premises, output))
}
