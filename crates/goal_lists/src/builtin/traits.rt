//! The meaning of trait aliases, and the built-in rules of traits.
ghost use Rattle.std.specs.Prelude.{◌≡◌, IfOk, IfSome};
ghost use Rattle.std.specs.List.{All};
ghost use Rattle.goal_interner.specs.TableMeaning.{Keeps};
ghost use Rattle.goal_lists.specs.BuiltinWords.{rule_at};
ghost use Rattle.goal_lists.specs.Builtins.{lang_rule, trait_rule};
ghost use Rattle.goal_lists.specs.Interned.{IsIn, AreIn, PremiseIn, erased_at, erased_all};

use crate::builtin::call_premises::call_rule;
use crate::builtin::copy_clone::copy_rule;
use crate::builtin::markers::{has_field, is_fn_ptr, is_tuple, where_true};
use crate::builtin::sized::sized_rule;
use crate::candidates::interned::InternedPremise;
use crate::candidates::premises::clauses_under;
use crate::candidates::row_terms::allocator_of;
use goal_interner::term_nodes::{OutOfMemory, TermId};
use goal_interner::term_table::TermTable;
use goal_tables::lookup::IndexedTables;
use goal_terms::ids::TraitId;
use goal_terms::lang::{LangItem, LangTarget};

#[tactic(auto, unfolding(crate::specs::Builtins::lang_rule))]
/// The rule of a lang trait, for its self type and its other arguments.
fn lang_rule(
    rows: &IndexedTables,
    terms: &mut TermTable,
    trait_id: TraitId,
    lang: LangItem,
    self_ty: TermId,
    args: &[TermId],
) -> Result<Option<Vec<InternedPremise>>, OutOfMemory>
    requires within { IsIn terms.old self_ty }
    requires args { AreIn terms.old args.now }
    ensures kept { Keeps terms.old terms.new }
    ensures within { IfOk result (λ o. IfSome o (λ ps. All (PremiseIn terms.new) ps.items)) }
    ensures premises { IfOk result (λ o. rule_at terms.new o ≡ lang_rule rows.now trait_id lang (erased_at terms.old self_ty) (erased_all terms.old args.now)) }
{
    let alloc = allocator_of(rows);
    match lang {
        LangItem::Sized => sized_rule(rows, terms, trait_id, self_ty),
        LangItem::Copy | LangItem::Clone => copy_rule(rows, terms, trait_id, self_ty),
        LangItem::Fn | LangItem::FnMut | LangItem::FnOnce => {
            call_rule(rows, terms, lang, self_ty, args)
        }
        LangItem::FnPtr => Ok(where_true(alloc, is_fn_ptr(terms, self_ty))),
        LangItem::Tuple => Ok(where_true(alloc, is_tuple(terms, self_ty))),
        LangItem::Pointee | LangItem::DiscriminantKind | LangItem::Destruct => {
            Ok(where_true(alloc, true))
        }
        LangItem::Field => Ok(where_true(alloc, has_field(rows, terms, self_ty))),
        LangItem::Output
        | LangItem::Metadata
        | LangItem::Discriminant
        | LangItem::Base
        | LangItem::FieldType
        | LangItem::DynMetadata => Ok(None),
    }
}

#[tactic(auto, unfolding(crate::specs::Builtins::trait_rule))]
/// What a trait that is a trait alias or a lang item asks for to hold for arguments, the self type first;
/// nothing where there is no rule. The table gets the terms. Want of memory or of numbers is the only
/// refusal.
pub fn trait_rule(
    rows: &IndexedTables,
    terms: &mut TermTable,
    trait_id: TraitId,
    args: &[TermId],
) -> Result<Option<Vec<InternedPremise>>, OutOfMemory>
    requires { AreIn terms.old args.now }
    ensures kept { Keeps terms.old terms.new }
    ensures within { IfOk result (λ o. IfSome o (λ ps. All (PremiseIn terms.new) ps.items)) }
    ensures premises { IfOk result (λ o. rule_at terms.new o ≡ trait_rule rows.now trait_id (erased_all terms.old args.now)) }
{
    let [self_ty, rest @ ..] = args else {
        return Ok(None);
    };
    let Some(row) = rows.trait_row(trait_id) else {
        return Ok(None);
    };
    if row.is_alias {
        let premises = clauses_under(terms, row.predicates.as_slice(), args)?;
        return Ok(Some(premises));
    }
    let Some(lang) = rows.lang_naming(LangTarget::Trait(trait_id)) else {
        return Ok(None);
    };
    lang_rule(rows, terms, trait_id, lang.item, *self_ty, rest)
}
