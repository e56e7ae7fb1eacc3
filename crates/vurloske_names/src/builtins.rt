//! The names that no item has to declare, and those of lang items.
ghost use Rattle.std.specs.Prelude.{◌≡◌};
ghost use Rattle.goal_terms.specs.TreeOf.{tree_of_ty};
ghost use Rattle.vurloske_names.specs.Spelling.{builtin_text, builtin_tree, lang_text};
ghost use Rattle.vurloske_ast.specs.Spelling.{IsNamed};

use goal_terms::lang::LangItem;
use goal_terms::scalars::{FloatTy, IntTy, UintTy};
use goal_terms::terms::Ty;

/// A type that is named by a word of the language.
#[derive(Clone, Copy)]
pub enum Builtin {
    Bool,
    Char,
    Str,
    Int(IntTy),
    Uint(UintTy),
    Float(FloatTy),
}

impl Builtin {
    /// The type that is written so.
    pub fn of(text: &str) -> Option<Builtin>
        ensures { IsNamed builtin_text text.now result }
    {
        match text {
            "bool" => Some(Builtin::Bool),
            "char" => Some(Builtin::Char),
            "str" => Some(Builtin::Str),
            "isize" => Some(Builtin::Int(IntTy::Isize)),
            "i8" => Some(Builtin::Int(IntTy::I8)),
            "i16" => Some(Builtin::Int(IntTy::I16)),
            "i32" => Some(Builtin::Int(IntTy::I32)),
            "i64" => Some(Builtin::Int(IntTy::I64)),
            "i128" => Some(Builtin::Int(IntTy::I128)),
            "usize" => Some(Builtin::Uint(UintTy::Usize)),
            "u8" => Some(Builtin::Uint(UintTy::U8)),
            "u16" => Some(Builtin::Uint(UintTy::U16)),
            "u32" => Some(Builtin::Uint(UintTy::U32)),
            "u64" => Some(Builtin::Uint(UintTy::U64)),
            "u128" => Some(Builtin::Uint(UintTy::U128)),
            "f16" => Some(Builtin::Float(FloatTy::F16)),
            "f32" => Some(Builtin::Float(FloatTy::F32)),
            "f64" => Some(Builtin::Float(FloatTy::F64)),
            "f128" => Some(Builtin::Float(FloatTy::F128)),
            _ => None,
        }
    }

    /// The type itself.
    #[tactic(auto, using(goal_terms::proofs::TreeLemmas::tree_equations))]
    pub fn ty(self) -> Ty
        ensures { tree_of_ty result ≡ builtin_tree self }
    {
        match self {
            Builtin::Bool => Ty::Bool,
            Builtin::Char => Ty::Char,
            Builtin::Str => Ty::Str,
            Builtin::Int(int) => Ty::Int(int),
            Builtin::Uint(int) => Ty::Uint(int),
            Builtin::Float(float) => Ty::Float(float),
        }
    }
}

/// The lang item of a name.
pub fn lang_item(name: &str) -> Option<LangItem>
    ensures { IsNamed lang_text name.now result }
{
    match name {
        "sized" => Some(LangItem::Sized),
        "copy" => Some(LangItem::Copy),
        "clone" => Some(LangItem::Clone),
        "fn" => Some(LangItem::Fn),
        "fn_mut" => Some(LangItem::FnMut),
        "fn_once" => Some(LangItem::FnOnce),
        "fn_ptr_trait" => Some(LangItem::FnPtr),
        "tuple_trait" => Some(LangItem::Tuple),
        "pointee_trait" => Some(LangItem::Pointee),
        "discriminant_kind" => Some(LangItem::DiscriminantKind),
        "destruct" => Some(LangItem::Destruct),
        "field_trait" => Some(LangItem::Field),
        "fn_once_output" => Some(LangItem::Output),
        "metadata_type" => Some(LangItem::Metadata),
        "discriminant_type" => Some(LangItem::Discriminant),
        "field_base" => Some(LangItem::Base),
        "field_type" => Some(LangItem::FieldType),
        "dyn_metadata" => Some(LangItem::DynMetadata),
        _ => None,
    }
}
