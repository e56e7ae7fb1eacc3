//! What the built-in rules of items say, for a self type.
ghost use Rattle.std.specs.Prelude.{◌≡◌, [], List, None, IfOk, IfSome, IsTrue};
ghost use Rattle.std.specs.List.{All};
ghost use Rattle.std.specs.Option.{option_map, option_and_then};
ghost use Rattle.goal_terms.specs.Erased.{erased_head};
ghost use Rattle.goal_terms.specs.Sorts.{HeadFits, IsArgument, is_argument_sort, sort_of_head};
ghost use Rattle.goal_interner.specs.TableMeaning.{tree_at, Keeps};
ghost use Rattle.goal_terms.specs.Tree.{Tree, node_of, parts_of};
ghost use Rattle.goal_terms.specs.TreeOf.{leaf, tree_of_ty};
ghost use Rattle.goal_terms.specs.declared.heads.Node.TheVariants as nodes;
ghost use Rattle.goal_tables.specs.Rows.{adt_of, lang_trait_of, lang_adt_of};
ghost use Rattle.goal_terms.specs.declared.lang.LangItem.TheVariants as lang;
ghost use Rattle.goal_lists.specs.BuiltinWords.{parts_at, discriminant_under, said_of_field};
ghost use Rattle.goal_lists.specs.Builtins.{listed, listed_term, listed_by_size_of, metadata_of, adt_metadata, dyn_metadata, metadata_rule, discriminant_rule, field_of, field_base, field_ty};
ghost use Rattle.goal_lists.specs.Candidates.{last_of};
ghost use Rattle.goal_lists.specs.Headers.{under};
ghost use Rattle.goal_lists.specs.Interned.{IsIn, ListedIn, erased_at, listed_at};
ghost use Rattle.goal_lists.specs.Tops.{adt_at};

use crate::builtin::made_terms::{intern_leaf, type_under};
use crate::candidates::interned::ListedTerm;
use crate::candidates::row_terms::last_part;
use goal_interner::term_nodes::{OutOfMemory, TermId};
use goal_interner::term_table::TermTable;
use goal_tables::lookup::IndexedTables;
use goal_tables::rows::{AdtKind, AdtRow, FieldInfo};
use goal_terms::heads::{Head, Node};
use goal_terms::ids::{AdtId, ItemId};
use goal_terms::lang::LangItem;
use goal_terms::scalars::UintTy;
use goal_terms::terms::{AliasTermKind, Ty};
use std::alloc::Global;

/// A term behind no premises.
fn unconditional(alloc: Global, term: TermId) -> ListedTerm
    ensures within { (T : List Tree) → IsIn T term → ListedIn T result }
    ensures listed { (T : List Tree) → listed_at T result ≡ listed [] (erased_at T term) }
{
    ListedTerm::Behind(Vec::new(alloc), term)
}

/// What is said of a type that stands for any type: it goes by whether that is `Sized`.
fn by_size(rows: &IndexedTables) -> ListedTerm
    ensures within { (T : List Tree) → ListedIn T result }
    ensures listed { (T : List Tree) → listed_at T result ≡ listed_by_size_of (lang_trait_of rows.now lang.Sized) }
{
    match rows.lang_trait(LangItem::Sized) {
        None => ListedTerm::Nothing,
        Some(sized) => ListedTerm::BySize(sized),
    }
}

/// A type without parts, behind no premises.
fn listed_leaf(alloc: Global, terms: &mut TermTable, head: Head) -> Result<ListedTerm, OutOfMemory>
    requires fits { HeadFits head [] }
    requires argument { IsTrue (is_argument_sort (sort_of_head head)) }
    ensures kept { Keeps terms.old terms.new }
    ensures within { IfOk result (ListedIn terms.new) }
    ensures listed { IfOk result (λ l. listed_at terms.new l ≡ listed [] (leaf (erased_head head))) }
{
    let id = intern_leaf(alloc, terms, head)?;
    Ok(unconditional(alloc, id))
}

/// The metadata of another type, by its own rule; `()` where there is no other type.
fn metadata_of(
    alloc: Global,
    terms: &mut TermTable,
    item: ItemId,
    ty: Option<TermId>,
) -> Result<TermId, OutOfMemory>
    requires { IfSome ty (IsIn terms.old) }
    ensures kept { Keeps terms.old terms.new }
    ensures within { IfOk result (IsIn terms.new) }
    ensures tree { IfOk result (λ id. erased_at terms.new id ≡ metadata_of item (option_map (erased_at terms.old) ty)) }
{
    let Some(ty) = ty else {
        return intern_leaf(alloc, terms, Head::Tuple(0));
    };
    let mut args = Vec::with_capacity(alloc, 1)?;
    args.push(ty)?;
    let id = terms.intern_node(Node::Alias(AliasTermKind::ProjectionTy(item)), args)?;
    Ok(id)
}

/// The last field's type of a struct, if it has one.
fn tail_of(row: &AdtRow) -> Option<&Ty>
    ensures { (item : ItemId) (args : List Tree) → adt_metadata item args row.now.kind row.now ≡ metadata_of item (option_map (λ ty. under args (tree_of_ty ty.now)) result) }
{
    match row.kind {
        AdtKind::Struct => row.tail.as_ref(),
        AdtKind::Enum | AdtKind::Union => None,
    }
}

/// A type of a row under a term's arguments, if there is one.
fn optional_under(
    alloc: Global,
    terms: &mut TermTable,
    ty: Option<&Ty>,
    of: TermId,
) -> Result<Option<TermId>, OutOfMemory>
    requires here { IsIn terms.old of }
    requires arguments { All IsArgument (parts_of (tree_at terms.old of)) }
    ensures kept { Keeps terms.old terms.new }
    ensures within { IfOk result (λ o. IfSome o (IsIn terms.new)) }
    ensures tree { IfOk result (λ o. option_map (erased_at terms.new) o ≡ option_map (λ ty. under (parts_of (erased_at terms.old of)) (tree_of_ty ty.now)) ty.entry) }
{
    let Some(ty) = ty else {
        return Ok(None);
    };
    let id = type_under(alloc, terms, ty, of)?;
    Ok(Some(id))
}

/// The metadata of an ADT: that of a struct's tail, and `()` of all others.
fn adt_metadata(
    rows: &IndexedTables,
    terms: &mut TermTable,
    item: ItemId,
    self_ty: TermId,
    adt: AdtId,
) -> Result<ListedTerm, OutOfMemory>
    requires here { IsIn terms.old self_ty }
    requires arguments { All IsArgument (parts_of (tree_at terms.old self_ty)) }
    ensures kept { Keeps terms.old terms.new }
    ensures within { IfOk result (ListedIn terms.new) }
    ensures listed { IfOk result (λ l. listed_at terms.new l ≡ listed_term (option_map (λ r. adt_metadata item (parts_at terms.old self_ty) r.kind r) (adt_of rows.now adt))) }
{
    let alloc = *rows.tables().adts.allocator();
    let Some(row) = rows.adt_row(adt) else {
        return Ok(ListedTerm::Nothing);
    };
    let tail = optional_under(alloc, terms, tail_of(row), self_ty)?;
    let metadata = metadata_of(alloc, terms, item, tail)?;
    Ok(unconditional(alloc, metadata))
}

/// The metadata of a `dyn` type.
fn dyn_metadata(
    rows: &IndexedTables,
    terms: &mut TermTable,
    self_ty: TermId,
) -> Result<ListedTerm, OutOfMemory>
    requires { IsIn terms.old self_ty }
    ensures kept { Keeps terms.old terms.new }
    ensures within { IfOk result (ListedIn terms.new) }
    ensures listed { IfOk result (λ l. listed_at terms.new l ≡ listed_term (option_map (dyn_metadata (erased_at terms.old self_ty)) (lang_adt_of rows.now lang.DynMetadata))) }
{
    let alloc = *rows.tables().adts.allocator();
    let Some(adt) = rows.lang_adt(LangItem::DynMetadata) else {
        return Ok(ListedTerm::Nothing);
    };
    let mut args = Vec::with_capacity(alloc, 1)?;
    args.push(self_ty)?;
    let id = terms.intern_node(Node::Head(Head::Adt(adt, 1)), args)?;
    Ok(unconditional(alloc, id))
}

/// The metadata of a tuple: that of its last element.
fn tuple_metadata(
    alloc: Global,
    terms: &mut TermTable,
    item: ItemId,
    self_ty: TermId,
) -> Result<ListedTerm, OutOfMemory>
    requires here { IsIn terms.old self_ty }
    requires arguments { All IsArgument (parts_of (tree_at terms.old self_ty)) }
    ensures kept { Keeps terms.old terms.new }
    ensures within { IfOk result (ListedIn terms.new) }
    ensures listed { IfOk result (λ l. listed_at terms.new l ≡ listed [] (metadata_of item (last_of (parts_at terms.old self_ty)))) }
{
    let last = last_part(terms, self_ty);
    let metadata = metadata_of(alloc, terms, item, last)?;
    Ok(unconditional(alloc, metadata))
}

/// The metadata of a type with a constructor.
fn metadata_of_head(
    rows: &IndexedTables,
    terms: &mut TermTable,
    item: ItemId,
    self_ty: TermId,
    head: Head,
) -> Result<ListedTerm, OutOfMemory>
    requires here { IsIn terms.old self_ty }
    requires top { node_of (tree_at terms.old self_ty) ≡ nodes.Head head }
    requires fits { HeadFits head (parts_of (tree_at terms.old self_ty)) }
    ensures kept { Keeps terms.old terms.new }
    ensures within { IfOk result (ListedIn terms.new) }
    ensures listed { IfOk result (λ l. listed_at terms.new l ≡ metadata_rule rows.now item (erased_at terms.old self_ty)) }
{
    let alloc = *rows.tables().adts.allocator();
    match head {
        Head::Str | Head::Slice => listed_leaf(alloc, terms, Head::Uint(UintTy::Usize)),
        Head::TyError(number) => listed_leaf(alloc, terms, Head::TyError(number)),
        Head::Dynamic(_, _) => dyn_metadata(rows, terms, self_ty),
        Head::Adt(adt, _) => adt_metadata(rows, terms, item, self_ty, adt),
        Head::Tuple(_) => tuple_metadata(alloc, terms, item, self_ty),
        Head::TyParam(_) | Head::TyPlaceholder(_) => Ok(by_size(rows)),
        _ => listed_leaf(alloc, terms, Head::Tuple(0)),
    }
}

/// What is said of an item `Metadata`.
pub(crate) fn metadata_rule(
    rows: &IndexedTables,
    terms: &mut TermTable,
    item: ItemId,
    self_ty: TermId,
) -> Result<ListedTerm, OutOfMemory>
    requires { IsIn terms.old self_ty }
    ensures kept { Keeps terms.old terms.new }
    ensures within { IfOk result (ListedIn terms.new) }
    ensures listed { IfOk result (λ l. listed_at terms.new l ≡ metadata_rule rows.now item (erased_at terms.old self_ty)) }
{
    match terms.node(self_ty) {
        Node::Head(head) => metadata_of_head(rows, terms, item, self_ty, head),
        Node::Alias(_) => Ok(by_size(rows)),
        Node::Variable(_) => {
            let alloc = *rows.tables().adts.allocator();
            listed_leaf(alloc, terms, Head::Tuple(0))
        }
    }
}

/// The discriminant's type of an ADT.
fn adt_discriminant(
    rows: &IndexedTables,
    terms: &mut TermTable,
    self_ty: TermId,
    adt: AdtId,
) -> Result<ListedTerm, OutOfMemory>
    requires here { IsIn terms.old self_ty }
    requires arguments { All IsArgument (parts_of (tree_at terms.old self_ty)) }
    ensures kept { Keeps terms.old terms.new }
    ensures within { IfOk result (ListedIn terms.new) }
    ensures listed { IfOk result (λ l. listed_at terms.new l ≡ listed_term (option_map (discriminant_under (parts_at terms.old self_ty)) (adt_of rows.now adt))) }
{
    let alloc = *rows.tables().adts.allocator();
    let Some(row) = rows.adt_row(adt) else {
        return Ok(ListedTerm::Nothing);
    };
    let discriminant = type_under(alloc, terms, &row.discriminant, self_ty)?;
    Ok(unconditional(alloc, discriminant))
}

/// The discriminant's type of a type with a constructor.
fn discriminant_of_head(
    rows: &IndexedTables,
    terms: &mut TermTable,
    self_ty: TermId,
    head: Head,
) -> Result<ListedTerm, OutOfMemory>
    requires here { IsIn terms.old self_ty }
    requires top { node_of (tree_at terms.old self_ty) ≡ nodes.Head head }
    requires fits { HeadFits head (parts_of (tree_at terms.old self_ty)) }
    ensures kept { Keeps terms.old terms.new }
    ensures within { IfOk result (ListedIn terms.new) }
    ensures listed { IfOk result (λ l. listed_at terms.new l ≡ discriminant_rule rows.now (erased_at terms.old self_ty)) }
{
    match head {
        Head::TyParam(_) | Head::TyPlaceholder(_) => Ok(ListedTerm::Rigid),
        Head::Adt(adt, _) => adt_discriminant(rows, terms, self_ty, adt),
        _ => {
            let alloc = *rows.tables().adts.allocator();
            listed_leaf(alloc, terms, Head::Uint(UintTy::U8))
        }
    }
}

/// What is said of an item `Discriminant`.
pub(crate) fn discriminant_rule(
    rows: &IndexedTables,
    terms: &mut TermTable,
    self_ty: TermId,
) -> Result<ListedTerm, OutOfMemory>
    requires { IsIn terms.old self_ty }
    ensures kept { Keeps terms.old terms.new }
    ensures within { IfOk result (ListedIn terms.new) }
    ensures listed { IfOk result (λ l. listed_at terms.new l ≡ discriminant_rule rows.now (erased_at terms.old self_ty)) }
{
    match terms.node(self_ty) {
        Node::Head(head) => discriminant_of_head(rows, terms, self_ty, head),
        Node::Alias(_) => Ok(ListedTerm::Rigid),
        Node::Variable(_) => {
            let alloc = *rows.tables().adts.allocator();
            listed_leaf(alloc, terms, Head::Uint(UintTy::U8))
        }
    }
}

/// The ADT of a type, if it is of one.
fn adt_at(node: Node) -> Option<AdtId>
    ensures { result ≡ adt_at node }
{
    match node {
        Node::Head(Head::Adt(adt, _)) => Some(adt),
        _ => None,
    }
}

/// What a field representing type says of its field. Such a type is an ADT.
fn field_info<'t>(
    rows: &'t IndexedTables,
    terms: &TermTable,
    self_ty: TermId,
) -> Option<&'t FieldInfo>
    requires { IsIn terms.now self_ty }
    ensures info { (g : List Tree → FieldInfo → Tree) → said_of_field rows.now g (erased_at terms.now self_ty) ≡ option_map (λ f. g (parts_at terms.now self_ty) f.now) result }
    ensures arguments { IfSome result (λ f. All IsArgument (parts_of (tree_at terms.now self_ty))) }
{
    let adt = adt_at(terms.node(self_ty))?;
    let row = rows.adt_row(adt)?;
    row.field_info.as_ref()
}

/// What is said of an item that is a field's struct.
pub(crate) fn base_rule(
    rows: &IndexedTables,
    terms: &mut TermTable,
    self_ty: TermId,
) -> Result<ListedTerm, OutOfMemory>
    requires { IsIn terms.old self_ty }
    ensures kept { Keeps terms.old terms.new }
    ensures within { IfOk result (ListedIn terms.new) }
    ensures listed { IfOk result (λ l. listed_at terms.new l ≡ listed_term (option_and_then field_base (field_of rows.now (erased_at terms.old self_ty)))) }
{
    let Some(field) = field_info(rows, terms, self_ty) else {
        return Ok(ListedTerm::Nothing);
    };
    let alloc = *rows.tables().adts.allocator();
    let base = type_under(alloc, terms, &field.base, self_ty)?;
    Ok(unconditional(alloc, base))
}

/// What is said of an item that is a field's type.
pub(crate) fn field_type_rule(
    rows: &IndexedTables,
    terms: &mut TermTable,
    self_ty: TermId,
) -> Result<ListedTerm, OutOfMemory>
    requires { IsIn terms.old self_ty }
    ensures kept { Keeps terms.old terms.new }
    ensures within { IfOk result (ListedIn terms.new) }
    ensures listed { IfOk result (λ l. listed_at terms.new l ≡ listed_term (option_and_then field_ty (field_of rows.now (erased_at terms.old self_ty)))) }
{
    let Some(field) = field_info(rows, terms, self_ty) else {
        return Ok(ListedTerm::Nothing);
    };
    let alloc = *rows.tables().adts.allocator();
    let ty = type_under(alloc, terms, &field.ty, self_ty)?;
    Ok(unconditional(alloc, ty))
}
