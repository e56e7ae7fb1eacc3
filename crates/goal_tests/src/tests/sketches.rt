//! Terms, clauses and goals as constant data, and what they stand for.
use goal_program::names::{A, P, TRAIT_ASSOC, VEC, X, Z};
use goal_program::types::{equation_clause, trait_clause};
use goal_terms::ids::{AdtId, TraitId};
use goal_terms::predicates::{
    BoundConstness, Clause, Goal, HostEffectPredicate, NormalizesTo, Predicate,
    ProjectionPredicate, TraitPredicate, TraitRef,
};
use goal_terms::scalars::{FloatTy, IntTy, UintTy};
use goal_terms::terms::{AliasTerm, AliasTermKind, Const, GenericArg, InferTy, Term, Ty};
use std::alloc::{AllocError, Global};

/// A type.
#[derive(Clone, Copy)]
pub enum TypeSketch {
    Bool,
    Char,
    Str,
    Int(IntTy),
    Uint(UintTy),
    Float(FloatTy),
    Param(u32),
    Placeholder(u32),
    Error(u32),
    Infer(InferTy),
    Tuple(&'static [TypeSketch]),
    Adt(AdtId, &'static [TypeSketch]),
    Alias(AliasTermKind, &'static [TypeSketch]),
}

/// A type, or a constant that is a number.
#[derive(Clone, Copy)]
pub enum TermSketch {
    Ty(TypeSketch),
    Value(u32),
}

/// A clause. It binds no lifetimes.
#[derive(Clone, Copy)]
pub enum ClauseSketch {
    Holds(TraitId, &'static [TypeSketch]),
}

/// What a goal asks.
#[derive(Clone, Copy)]
pub enum Asked {
    Holds(TraitId, &'static [TypeSketch]),
    HoldsConst(TraitId, &'static [TypeSketch]),
    Equals(AliasTermKind, &'static [TypeSketch], TermSketch),
    /// That an alias stands for a term.
    Is(AliasTermKind, &'static [TypeSketch], TermSketch),
    Ambiguous,
}

pub const BOOL: TypeSketch = TypeSketch::Bool;

pub const STR: TypeSketch = TypeSketch::Str;

pub const U8: TypeSketch = TypeSketch::Uint(UintTy::U8);

pub const U16: TypeSketch = TypeSketch::Uint(UintTy::U16);

pub const U32: TypeSketch = TypeSketch::Uint(UintTy::U32);

pub const U64: TypeSketch = TypeSketch::Uint(UintTy::U64);

pub const I32: TypeSketch = TypeSketch::Int(IntTy::I32);

/// The parameter 0.
pub const T: TypeSketch = TypeSketch::Param(0);

/// The struct `X`, whose item `A` of `Tr` is itself.
pub const STRUCT_X: TypeSketch = TypeSketch::Adt(X, &[]);

/// The struct `Z`, whose item `A` of `Tr` is `u8`.
pub const STRUCT_Z: TypeSketch = TypeSketch::Adt(Z, &[]);

/// The struct `P`, which has no impl.
pub const STRUCT_P: TypeSketch = TypeSketch::Adt(P, &[]);

/// `Vec<u32>`.
pub const VEC_OF_U32: TypeSketch = TypeSketch::Adt(VEC, &[U32]);

/// The item `A` of `Tr`.
pub const TR_A: AliasTermKind = AliasTermKind::ProjectionTy(A);

/// The item `Assoc` of `Trait`.
pub const ASSOC: AliasTermKind = AliasTermKind::ProjectionTy(TRAIT_ASSOC);

/// `<X as Tr>::A`, which has no term.
pub const A_OF_X: TypeSketch = TypeSketch::Alias(TR_A, &[STRUCT_X]);

/// `<Z as Tr>::A`.
pub const A_OF_Z: TypeSketch = TypeSketch::Alias(TR_A, &[STRUCT_Z]);

/// The variable 0, of any type.
pub const V0: TypeSketch = TypeSketch::Infer(InferTy::TyVar(0));

/// The variable 1, of any type.
pub const V1: TypeSketch = TypeSketch::Infer(InferTy::TyVar(1));

/// The type of a sketch.
#[cycle(sketch)]
pub fn ty_of(alloc: Global, sketch: &TypeSketch) -> Result<Ty, AllocError> {
    Ok(match sketch {
        TypeSketch::Bool => Ty::Bool,
        TypeSketch::Char => Ty::Char,
        TypeSketch::Str => Ty::Str,
        TypeSketch::Int(ty) => Ty::Int(*ty),
        TypeSketch::Uint(ty) => Ty::Uint(*ty),
        TypeSketch::Float(ty) => Ty::Float(*ty),
        TypeSketch::Param(number) => Ty::Param(*number),
        TypeSketch::Placeholder(number) => Ty::Placeholder(*number),
        TypeSketch::Error(number) => Ty::Error(*number),
        TypeSketch::Infer(variable) => Ty::Infer(*variable),
        TypeSketch::Tuple(parts) => Ty::Tuple(types_of(alloc, parts)?),
        TypeSketch::Adt(id, parts) => Ty::Adt(*id, args_of(alloc, parts)?),
        TypeSketch::Alias(kind, parts) => Ty::Alias(AliasTerm {
            kind: *kind,
            args: args_of(alloc, parts)?,
        }),
    })
}

/// The types of sketches.
#[cycle(sketch)]
pub fn types_of(alloc: Global, parts: &[TypeSketch]) -> Result<Vec<Ty>, AllocError> {
    let mut types = Vec::new(alloc);
    for part in parts {
        types.push(ty_of(alloc, part)?)?;
    }
    Ok(types)
}

/// The arguments that are types.
#[cycle(sketch)]
pub fn args_of(alloc: Global, parts: &[TypeSketch]) -> Result<Vec<GenericArg>, AllocError> {
    let mut args = Vec::new(alloc);
    for part in parts {
        args.push(GenericArg::Ty(ty_of(alloc, part)?))?;
    }
    Ok(args)
}

/// The term of a sketch.
pub fn term_of(alloc: Global, sketch: &TermSketch) -> Result<Term, AllocError> {
    Ok(match sketch {
        TermSketch::Ty(ty) => Term::Ty(ty_of(alloc, ty)?),
        TermSketch::Value(value) => Term::Const(Const::Value(u128::from(*value))),
    })
}

/// The alias of a kind and of arguments that are types.
pub fn alias_of(
    alloc: Global,
    kind: AliasTermKind,
    parts: &[TypeSketch],
) -> Result<AliasTerm, AllocError> {
    Ok(AliasTerm {
        kind,
        args: args_of(alloc, parts)?,
    })
}

/// The trait reference of a trait and of arguments that are types.
pub fn ref_of(
    alloc: Global,
    def_id: TraitId,
    parts: &[TypeSketch],
) -> Result<TraitRef, AllocError> {
    Ok(TraitRef {
        def_id,
        args: args_of(alloc, parts)?,
    })
}

/// The clause of a sketch.
pub fn clause_of(alloc: Global, sketch: &ClauseSketch) -> Result<Clause, AllocError> {
    match sketch {
        ClauseSketch::Holds(id, parts) => Ok(trait_clause(ref_of(alloc, *id, parts)?)),
    }
}

/// The clauses of sketches.
pub fn clauses_of(alloc: Global, sketches: &[ClauseSketch]) -> Result<Vec<Clause>, AllocError> {
    let mut clauses = Vec::new(alloc);
    for sketch in sketches {
        clauses.push(clause_of(alloc, sketch)?)?;
    }
    Ok(clauses)
}

/// The predicate that is asked.
pub fn predicate_of(alloc: Global, asked: &Asked) -> Result<Predicate, AllocError> {
    Ok(match asked {
        Asked::Holds(id, parts) => Predicate::Trait(TraitPredicate {
            trait_ref: ref_of(alloc, *id, parts)?,
        }),
        Asked::HoldsConst(id, parts) => Predicate::HostEffect(HostEffectPredicate {
            trait_ref: ref_of(alloc, *id, parts)?,
            constness: BoundConstness::Const,
        }),
        Asked::Equals(kind, parts, term) => Predicate::Projection(ProjectionPredicate {
            projection_term: alias_of(alloc, *kind, parts)?,
            term: term_of(alloc, term)?,
        }),
        Asked::Is(kind, parts, term) => Predicate::NormalizesTo(NormalizesTo {
            alias: alias_of(alloc, *kind, parts)?,
            term: term_of(alloc, term)?,
        }),
        Asked::Ambiguous => Predicate::Ambiguous,
    })
}

/// The goal of what is asked under clauses.
pub fn goal_of(
    alloc: Global,
    assumed: &[ClauseSketch],
    asked: &Asked,
) -> Result<Goal<Predicate>, AllocError> {
    Ok(Goal {
        param_env: clauses_of(alloc, assumed)?,
        predicate: predicate_of(alloc, asked)?,
    })
}

/// The goal that a trait holds, in an empty environment.
pub fn trait_goal_of(
    alloc: Global,
    id: TraitId,
    parts: &[TypeSketch],
) -> Result<Goal<TraitPredicate>, AllocError> {
    Ok(Goal {
        param_env: Vec::new(alloc),
        predicate: TraitPredicate {
            trait_ref: ref_of(alloc, id, parts)?,
        },
    })
}

/// The goal that an alias has a type for its term, in an empty environment.
pub fn alias_goal_of(
    alloc: Global,
    kind: AliasTermKind,
    parts: &[TypeSketch],
    expected: &TypeSketch,
) -> Result<Goal<NormalizesTo>, AllocError> {
    Ok(Goal {
        param_env: Vec::new(alloc),
        predicate: NormalizesTo {
            alias: alias_of(alloc, kind, parts)?,
            term: Term::Ty(ty_of(alloc, expected)?),
        },
    })
}
