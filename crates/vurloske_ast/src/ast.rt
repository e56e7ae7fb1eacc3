//! What a text says, as it stands: items, goals, and the terms in them.
//!
//! Nodes lie in the lists of one `Ast` and name each other by place, so that they are `Copy` and no
//! type here leads back to itself. A node is made after its parts.
ghost use Rattle.std.specs.Prelude.{◌≡◌, ◌≤◌, [], length, slice_get, IfOk, IfSome, Some};
ghost use Rattle.std.specs.Option.{option_and_then, option_map};
ghost use Rattle.std.specs.String.{string_bytes};

use indexmap::IndexSet;
use std::alloc::{AllocError, Global};

/// A line and a column of a text, both from 1. A column counts bytes.
#[derive(Clone, Copy, Debug)]
pub struct Position {
    pub line: u32,
    pub column: u32,
}

impl Position {
    /// The place behind the first bytes of a text.
    pub fn behind(bytes: &[u8]) -> Position
        ensures line { 1 ≤ result.line }
        ensures column { 1 ≤ result.column }
    {
        let mut at = Position { line: 1, column: 1 };
        for byte in bytes {
            if *byte == b'\n' {
                at.line = at.line.saturating_add(1);
                at.column = 1;
            } else {
                at.column = at.column.saturating_add(1);
            }
        }
        at
    }
}

/// A piece of a text: its first byte, and the byte after its last one.
#[derive(Clone, Copy, Debug)]
pub struct Span {
    pub start: usize,
    pub end: usize,
}

/// A name, by its number in the list of names.
#[derive(Clone, Copy, PartialEq, Eq, Hash)]
pub struct Symbol(pub u32);

/// A name where it stands.
#[derive(Clone, Copy)]
pub struct Ident {
    pub name: Symbol,
    pub at: Position,
}

impl Ident {
    /// Stands for a name that was not read.
    pub const MISSING: Ident = Ident {
        name: Symbol(u32::MAX),
        at: Position { line: 0, column: 0 },
    };
}

/// Neighbours in one of the lists of an `Ast`.
#[derive(Clone, Copy)]
pub struct Run {
    pub first: usize,
    pub len: usize,
}

/// A type or a constant, by its place in the list of terms.
#[derive(Clone, Copy)]
pub struct TermId(pub usize);

impl TermId {
    /// Stands for a term that was not read.
    pub const MISSING: TermId = TermId(usize::MAX);
}

/// A type or a constant: which of the two a path is, its names decide.
#[derive(Clone, Copy)]
pub struct Term {
    pub kind: TermKind,
    pub at: Position,
}

#[derive(Clone, Copy)]
pub enum Mutability {
    Not,
    Mut,
}

#[derive(Clone, Copy)]
pub enum TermKind {
    /// `!`
    Never,
    /// `_`: a fresh inference variable.
    Infer,
    /// `?x`: an inference variable that has a name.
    InferNamed(Ident),
    /// `{integer}` and `{float}`: fresh variables of integer and of floating types.
    IntVar,
    FloatVar,
    /// `{error 6}`
    Error(u32),
    /// `{placeholder 0}`
    Placeholder(u32),
    /// `{const 3}` and `{const 3 <T>}`: a constant that nobody evaluates, with its arguments.
    Unevaluated(u32, Args),
    /// `3`, `true`, `'c'` are all numbers.
    Literal(u128),
    /// `(A, B)`. Its parts are a run of `operands`.
    Tuple(Run),
    Slice(TermId),
    Array(TermId, TermId),
    RawPtr(Mutability, TermId),
    Ref(Lifetime, Mutability, TermId),
    FnPtr(FnPtr),
    /// `dyn Tr<u8, A = u16> + 'a`. Its bounds are a run of `bounds`.
    Dyn(Run, Lifetime),
    /// `Vec<T>`, `u8`, `T`, `Self`, `f`
    Path(Segment),
    /// `<T as Tr<u8>>::A<u16>`: the self type, the trait, the item.
    Projection(TermId, Segment, Segment),
    /// `T::A`, `<T>::A`, `Vec<u8>::I`: the self type and the item.
    Assoc(TermId, Segment),
}

/// A lifetime where it stands.
#[derive(Clone, Copy)]
pub struct Lifetime {
    pub kind: LifetimeKind,
    pub at: Position,
}

#[derive(Clone, Copy)]
pub enum LifetimeKind {
    /// `'static`
    Static,
    /// `'_`, and where none is written.
    Erased,
    /// `'a`: a parameter, or one of an enclosing `for<'a>`.
    Named(Symbol),
    /// `'?a`: a region variable that has a name.
    InferNamed(Symbol),
}

/// `for<'a> fn(&'a u8) -> bool`. An `unsafe` one has no `Fn` traits.
#[derive(Clone, Copy)]
pub struct FnPtr {
    /// The names of its `for<..>`: a run of `idents`.
    pub binder: Run,
    pub is_unsafe: bool,
    /// A run of `operands`.
    pub inputs: Run,
    /// None where `()` is meant.
    pub output: Option<TermId>,
}

/// A name with its arguments.
#[derive(Clone, Copy)]
pub struct Segment {
    pub ident: Ident,
    pub args: Args,
}

#[derive(Clone, Copy)]
pub enum Args {
    /// No `<`.
    Absent,
    /// `<'a, u8, 3, A = u16>`: a run of `args`.
    Angle(Run),
    /// `(u8) -> bool`: inputs, a run of `operands`, and the output.
    Paren(Run, Option<TermId>),
}

#[derive(Clone, Copy)]
pub enum Arg {
    Lifetime(Lifetime),
    Term(TermId),
    /// `A<u8> = u16`: the item and the term.
    Binding(Segment, TermId),
}

/// How a bound asks for its trait.
#[derive(Clone, Copy)]
pub enum Constness {
    /// `Tr`
    Plain,
    /// `const Tr`
    Const,
    /// `[const] Tr`
    Maybe,
}

/// `for<'a> [const] Tr<'a>`, or `?Sized`.
#[derive(Clone, Copy)]
pub struct Bound {
    /// The names of its `for<..>`: a run of `idents`.
    pub binder: Run,
    pub constness: Constness,
    /// Whether it begins with `?`. Such a bound says nothing.
    pub is_relaxed: bool,
    pub trait_: Segment,
    pub at: Position,
}

/// A where clause. In the head of a `where` block also a parameter that is declared.
#[derive(Clone, Copy)]
pub struct WhereClause {
    /// The names of its `for<..>`: a run of `idents`.
    pub binder: Run,
    pub kind: WhereKind,
    pub at: Position,
}

#[derive(Clone, Copy)]
pub enum WhereKind {
    /// `T: A + B`: a run of `bounds`.
    Bounds(TermId, Run),
    /// `<T as Tr>::A == u8`
    Equal(TermId, TermId),
    /// `T`, by itself: a type parameter is declared.
    DeclareTy(TermId),
    /// `const N`
    DeclareConst(Ident),
    /// `'a`
    DeclareLifetime(Ident),
}

#[derive(Clone, Copy)]
pub enum ParamKind {
    Lifetime,
    Ty,
    Const,
}

/// A parameter of an item, with its bounds, a run of `bounds`. The type of a constant is not kept.
#[derive(Clone, Copy)]
pub struct Param {
    pub kind: ParamKind,
    pub ident: Ident,
    pub bounds: Run,
}

/// What an item declares by parameters and where clauses: runs of `params` and `where_clauses`.
#[derive(Clone, Copy)]
pub struct Generics {
    pub params: Run,
    pub where_clauses: Run,
}

/// `#[name]`, `#[name = "text"]`, `#[name(..)]` with a run of `attr_args`.
#[derive(Clone, Copy)]
pub struct Attr {
    pub ident: Ident,
    pub value: AttrValue,
}

#[derive(Clone, Copy)]
pub enum AttrValue {
    Absent,
    /// The text between the quotes, as a name.
    Text(Symbol),
    Args(Run),
}

#[derive(Clone, Copy)]
pub enum AttrArg {
    /// `u8`, `7`, a name
    Term(TermId),
    /// `base = T`
    Binding(Ident, TermId),
    /// `T: Destruct`: a run of `bounds`.
    Bounds(TermId, Run),
}

/// An item with its attributes, a run of `attrs`.
#[derive(Clone, Copy)]
pub struct Item {
    pub attrs: Run,
    pub kind: ItemKind,
    pub at: Position,
}

#[derive(Clone, Copy)]
pub enum ItemKind {
    Trait(Trait),
    Impl(Impl),
    /// `type A<T> = ..;` and `const C: usize = ..;`
    Free(Free),
    Adt(Adt),
    Fn(Fn),
    Closure(Closure),
    /// `extern type E;`
    Foreign(Ident),
}

/// `const trait Tr<U>: Super + [const] Other where .. { .. }`, or an alias of bounds.
#[derive(Clone, Copy)]
pub struct Trait {
    pub ident: Ident,
    pub is_const: bool,
    pub is_auto: bool,
    pub generics: Generics,
    /// Supertraits; of an alias what it stands for. A run of `bounds`.
    pub bounds: Run,
    /// Whether it was written with `=`.
    pub is_alias: bool,
    /// A run of `assoc_items`.
    pub items: Run,
}

/// An item of a trait or of an impl.
#[derive(Clone, Copy)]
pub struct AssocItem {
    /// A run of `attrs`.
    pub attrs: Run,
    pub ident: Ident,
    pub is_const: bool,
    /// Whether it was written with `default`.
    pub is_default: bool,
    pub generics: Generics,
    /// A run of `bounds`.
    pub bounds: Run,
    pub value: Option<TermId>,
}

/// `impl<T> const Tr<U> for Vec<T> where .. { .. }`, or without a trait.
#[derive(Clone, Copy)]
pub struct Impl {
    pub generics: Generics,
    pub is_const: bool,
    pub is_negative: bool,
    pub trait_: Option<Segment>,
    pub self_ty: TermId,
    /// A run of `assoc_items`.
    pub items: Run,
}

/// A type alias, an opaque type or a constant.
#[derive(Clone, Copy)]
pub struct Free {
    pub ident: Ident,
    pub is_const: bool,
    pub generics: Generics,
    pub value: FreeValue,
}

#[derive(Clone, Copy)]
pub enum FreeValue {
    Absent,
    Term(TermId),
    /// `type Hid = impl Tr + Other;`: a run of `bounds`.
    Opaque(Run),
}

#[derive(Clone, Copy)]
pub enum AdtKind {
    Struct,
    Enum,
    Union,
}

/// `struct S<T>;`, `struct S(u8, str);`, `struct S { a: u8 }`, `enum E {}`. The types of the fields
/// are a run of `operands`; variants have none.
#[derive(Clone, Copy)]
pub struct Adt {
    pub kind: AdtKind,
    pub ident: Ident,
    pub generics: Generics,
    pub fields: Run,
}

/// `const fn f<T>(u8, x: T) -> bool where ..;`
#[derive(Clone, Copy)]
pub struct Fn {
    pub ident: Ident,
    pub is_const: bool,
    pub is_unsafe: bool,
    pub generics: Generics,
    /// A run of `operands`.
    pub inputs: Run,
    pub output: Option<TermId>,
}

/// `const closure c<T>: FnMut(u8) -> bool where ..;`
#[derive(Clone, Copy)]
pub struct Closure {
    pub ident: Ident,
    pub is_const: bool,
    pub generics: Generics,
    pub signature: Segment,
}

/// What is said between and after the items, in order.
#[derive(Clone, Copy)]
pub struct Statement {
    pub kind: StatementKind,
    pub at: Position,
}

#[derive(Clone, Copy)]
pub enum StatementKind {
    /// `where T: Tr, <T as Tr>::A == u8 { .. }`: a run of `where_clauses`, one of `statements`.
    Where(Run, Run),
    /// `in borrowck(Loc) { .. }`: the mode, its names (a run of `idents`), a run of `statements`.
    Mode(Ident, Run, Run),
    /// `limit 3;`
    Limit(u32),
    Goal(Goal),
    /// `accesses;`, `faults;` and `regions;`
    Accesses,
    Faults,
    Regions,
    /// `prelude;`
    Prelude,
}

/// A goal with its attributes, a run of `attrs`.
#[derive(Clone, Copy)]
pub struct Goal {
    pub attrs: Run,
    /// All but the `;`.
    pub text: Span,
    /// What stands before the `:`, `=` or `==`.
    pub subject: Span,
    pub kind: GoalKind,
}

#[derive(Clone, Copy)]
pub enum GoalKind {
    /// `T: Tr`, `T: const Tr`, `T: [const] Tr`
    Holds(TermId, Bound),
    /// `<T as Tr>::A = ?`
    Normalizes(TermId),
    /// `<T as Tr>::A == u8`
    Equal(TermId, TermId),
}

/// A text that was read: its names, its items in order, its statements, and the lists of parts.
pub struct Ast {
    pub names: IndexSet<String>,
    pub terms: Vec<Term>,
    pub operands: Vec<TermId>,
    pub args: Vec<Arg>,
    pub bounds: Vec<Bound>,
    pub idents: Vec<Ident>,
    pub params: Vec<Param>,
    pub where_clauses: Vec<WhereClause>,
    pub attrs: Vec<Attr>,
    pub attr_args: Vec<AttrArg>,
    pub assoc_items: Vec<AssocItem>,
    pub items: Vec<Item>,
    pub statements: Vec<Statement>,
    /// The statements that stand in no block: a run of `statements`.
    pub file: Run,
    /// Whether the text begins with `#![no_core]`.
    pub no_core: bool,
    /// What else the text begins with, as `#![expect_tables(CyclicBounds)]`: a run of `attrs`.
    pub inner_attrs: Run,
}

impl Drop for Ast {
    fn drop(self) {
        let Ast {
            names: _,
            terms: _,
            operands: _,
            args: _,
            bounds: _,
            idents: _,
            params: _,
            where_clauses: _,
            attrs: _,
            attr_args: _,
            assoc_items: _,
            items: _,
            statements: _,
            file: _,
            no_core: _,
            inner_attrs: _,
        } = self;
    }
}

impl Run {
    ghost use Rattle.vurloske_ast.specs.Lists.{part_of};

    /// No neighbours.
    pub const EMPTY: Run = Run { first: 0, len: 0 };

    /// What was added to a list since it had a length.
    pub fn since(first: usize, end: usize) -> Run {
        Run {
            first,
            len: end.saturating_sub(first),
        }
    }

    /// What it is of a list. Nothing where the list ends before it does.
    pub fn of<T>(self, list: &[T]) -> &[T]
        ensures { result.now ≡ part_of list.now self }
    {
        match list.get(self.first..) {
            Some(rest) => rest.get(..self.len).unwrap_or(&[]),
            None => &[],
        }
    }
}

/// The number of a name in a list.
fn symbol_of(names: &IndexSet<String>, name: &str) -> Option<Symbol>
    ensures { IfSome result (λ s. option_map string_bytes (slice_get names.now.keys s.0) ≡ Some name.now) }
{
    let index = names.get_index_of(name)?;
    Some(Symbol(u32::try_from(index).ok()?))
}

/// The number of a name in a list, to which it is added where it is new.
pub fn intern(names: &mut IndexSet<String>, alloc: Global, name: &str) -> Result<Symbol, AllocError>
    ensures { IfOk result (λ s. option_map string_bytes (slice_get names.new.keys s.0) ≡ Some name.now) }
{
    if let Some(symbol) = symbol_of(names, name) {
        return Ok(symbol);
    }
    let name = String::from_str(alloc, name)?;
    let (index, _) = names.insert_full(name)?;
    match u32::try_from(index) {
        Ok(number) => Ok(Symbol(number)),
        Err(_) => Err(AllocError),
    }
}

impl Ast {
    ghost use Rattle.vurloske_ast.specs.Lists.{part_of};
    ghost use Rattle.vurloske_ast.specs.Names.{path_in, plain_name_in};

    /// With no names and no parts.
    pub fn new(alloc: Global) -> Ast {
        Ast {
            names: IndexSet::new(alloc),
            terms: Vec::new(alloc),
            operands: Vec::new(alloc),
            args: Vec::new(alloc),
            bounds: Vec::new(alloc),
            idents: Vec::new(alloc),
            params: Vec::new(alloc),
            where_clauses: Vec::new(alloc),
            attrs: Vec::new(alloc),
            attr_args: Vec::new(alloc),
            assoc_items: Vec::new(alloc),
            items: Vec::new(alloc),
            statements: Vec::new(alloc),
            file: Run::EMPTY,
            no_core: false,
            inner_attrs: Run::EMPTY,
        }
    }

    /// The term of a number. `None` where it is of another `Ast`.
    pub fn term(&self, id: TermId) -> Option<Term>
        ensures { result ≡ slice_get self.now.terms.items id.0 }
    {
        self.terms.get(id.0).copied()
    }

    /// The name with arguments that a term is, if it is no more.
    pub fn path(&self, id: TermId) -> Option<Segment>
        ensures { result ≡ option_and_then path_in (slice_get self.now.terms.items id.0) }
    {
        match self.term(id)?.kind {
            TermKind::Path(segment) => Some(segment),
            _ => None,
        }
    }

    /// The name that a term is, if it is no more.
    pub fn plain_name(&self, id: TermId) -> Option<Ident>
        ensures { result ≡ option_and_then plain_name_in (slice_get self.now.terms.items id.0) }
    {
        let segment = self.path(id)?;
        match segment.args {
            Args::Absent => Some(segment.ident),
            _ => None,
        }
    }

    /// The text of a name. Empty where it is of another `Ast`.
    pub fn name(&self, symbol: Symbol) -> &str
        ensures known { IfSome (slice_get self.now.names.keys symbol.0) (λ name. result.now ≡ string_bytes name) }
        ensures foreign { length self.now.names.keys ≤ symbol.0 → result.now ≡ [] }
    {
        match self.names.get_index(symbol.0 as usize) {
            Some(name) => name.as_str(),
            None => "",
        }
    }

    /// The number of a name that stands somewhere in the text.
    pub fn symbol(&self, name: &str) -> Option<Symbol>
        ensures { IfSome result (λ s. option_map string_bytes (slice_get self.now.names.keys s.0) ≡ Some name.now) }
    {
        symbol_of(&self.names, name)
    }

    /// Adds a term, whose parts are there already.
    pub fn add_term(&mut self, kind: TermKind, at: Position) -> Result<TermId, AllocError>
        ensures { IfOk result (λ id. slice_get self.new.terms.items id.0 ≡ Some (record { kind = kind; at = at })) }
    {
        let id = TermId(self.terms.len());
        self.terms.push(Term { kind, at })?;
        Ok(id)
    }

    /// The terms of a run. None where it is of another `Ast`.
    pub fn operands(&self, run: Run) -> &[TermId]
        ensures { result.now ≡ part_of self.now.operands.items run }
    {
        run.of(&self.operands)
    }

    /// The arguments of a run. None where it is of another `Ast`.
    pub fn args(&self, run: Run) -> &[Arg]
        ensures { result.now ≡ part_of self.now.args.items run }
    {
        run.of(&self.args)
    }

    /// The bounds of a run. None where it is of another `Ast`.
    pub fn bounds(&self, run: Run) -> &[Bound]
        ensures { result.now ≡ part_of self.now.bounds.items run }
    {
        run.of(&self.bounds)
    }

    /// The names of a run. None where it is of another `Ast`.
    pub fn idents(&self, run: Run) -> &[Ident]
        ensures { result.now ≡ part_of self.now.idents.items run }
    {
        run.of(&self.idents)
    }

    /// The parameters of a run. None where it is of another `Ast`.
    pub fn params(&self, run: Run) -> &[Param]
        ensures { result.now ≡ part_of self.now.params.items run }
    {
        run.of(&self.params)
    }

    /// The where clauses of a run. None where it is of another `Ast`.
    pub fn where_clauses(&self, run: Run) -> &[WhereClause]
        ensures { result.now ≡ part_of self.now.where_clauses.items run }
    {
        run.of(&self.where_clauses)
    }

    /// The attributes of a run. None where it is of another `Ast`.
    pub fn attrs(&self, run: Run) -> &[Attr]
        ensures { result.now ≡ part_of self.now.attrs.items run }
    {
        run.of(&self.attrs)
    }

    /// The first attribute of a run that has a name.
    pub fn attr_named(&self, attrs: Run, name: &str) -> Option<Attr> {
        for attr in self.attrs(attrs) {
            if self.name(attr.ident.name) == name {
                return Some(*attr);
            }
        }
        None
    }

    /// Whether an attribute of a run has a name.
    pub fn has_attr(&self, attrs: Run, name: &str) -> bool {
        self.attr_named(attrs, name).is_some()
    }

    /// The arguments of an attribute of a run. None where it is of another `Ast`.
    pub fn attr_args(&self, run: Run) -> &[AttrArg]
        ensures { result.now ≡ part_of self.now.attr_args.items run }
    {
        run.of(&self.attr_args)
    }

    /// The items of a trait or an impl of a run. None where it is of another `Ast`.
    pub fn assoc_items(&self, run: Run) -> &[AssocItem]
        ensures { result.now ≡ part_of self.now.assoc_items.items run }
    {
        run.of(&self.assoc_items)
    }

    /// The statements of a run. None where it is of another `Ast`.
    pub fn statements(&self, run: Run) -> &[Statement]
        ensures { result.now ≡ part_of self.now.statements.items run }
    {
        run.of(&self.statements)
    }
}
