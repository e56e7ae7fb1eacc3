//! Rules that ask for nothing: of traits that go by the constructor of the self type.
ghost use Rattle.std.specs.Prelude.{◌≡◌, List, [], true, map, IfSome};
ghost use Rattle.std.specs.List.{All};
ghost use Rattle.std.specs.Option.{option_map, option_and_then};
ghost use Rattle.goal_tables.specs.Rows.{adt_of};
ghost use Rattle.goal_terms.specs.Tree.{Tree};
ghost use Rattle.goal_lists.specs.Builtins.{field_of, is_fn_ptr, is_tuple, where_true};
ghost use Rattle.goal_lists.specs.Interned.{IsIn, PremiseIn, erased_at, premise_at};

use crate::candidates::interned::InternedPremise;
use goal_interner::term_nodes::TermId;
use goal_interner::term_table::TermTable;
use goal_tables::lookup::IndexedTables;
use goal_terms::heads::{Head, Node};
use goal_terms::ids::AdtId;
use std::alloc::Global;

/// No premises, where a test is passed. It takes no memory.
pub(crate) fn where_true(alloc: Global, passed: bool) -> Option<Vec<InternedPremise>>
    ensures within { (T : List Tree) → IfSome result (λ ps. All (PremiseIn T) ps.items) }
    ensures premises { (T : List Tree) → option_map (λ ps. map (premise_at T) ps.items) result ≡ where_true passed }
{
    if passed { Some(Vec::new(alloc)) } else { None }
}

/// Whether a type is a pointer to a function.
pub(crate) fn is_fn_ptr(terms: &TermTable, self_ty: TermId) -> bool
    requires { IsIn terms.now self_ty }
    ensures { result ≡ is_fn_ptr (erased_at terms.now self_ty) }
{
    match terms.node(self_ty) {
        Node::Head(head) => matches!(head, Head::FnPtr { .. }),
        Node::Alias(_) => false,
        Node::Variable(_) => false,
    }
}

/// Whether a type is a tuple.
pub(crate) fn is_tuple(terms: &TermTable, self_ty: TermId) -> bool
    requires { IsIn terms.now self_ty }
    ensures { result ≡ is_tuple (erased_at terms.now self_ty) }
{
    match terms.node(self_ty) {
        Node::Head(head) => matches!(head, Head::Tuple(_)),
        Node::Alias(_) => false,
        Node::Variable(_) => false,
    }
}

/// Whether an ADT has field information.
fn adt_has_field(rows: &IndexedTables, adt: AdtId) -> bool
    ensures { where_true result ≡ option_and_then (λ r. option_map (λ f. []) r.field_info) (adt_of rows.now adt) }
{
    match rows.adt_row(adt) {
        None => false,
        Some(row) => row.field_info.is_some(),
    }
}

/// Whether a type is an ADT with field information.
pub(crate) fn has_field(rows: &IndexedTables, terms: &TermTable, self_ty: TermId) -> bool
    requires { IsIn terms.now self_ty }
    ensures { where_true result ≡ option_and_then (λ p. option_map (λ f. []) p.1.field_info) (field_of rows.now (erased_at terms.now self_ty)) }
{
    match terms.node(self_ty) {
        Node::Head(head) => match head {
            Head::Adt(adt, _) => adt_has_field(rows, adt),
            _ => false,
        },
        Node::Alias(_) => false,
        Node::Variable(_) => false,
    }
}
