//! The parameters, lifetimes and variables that a term may name.
use goal_terms::answers::{ParamKind, VarKind};
use goal_terms::ids::TraitId;
use goal_terms::terms::{Const, GenericArg, Region, Ty};
use indexmap::IndexMap;
use std::alloc::{AllocError, Global};
use vurloske_ast::ast::{
    Ast, Bound, Ident, Lifetime, LifetimeKind, Position, Run, Segment, Symbol, TermId,
};
use vurloske_ast::phrase::Phrase;
use vurloske_names::definitions::Definitions;
use vurloske_names::faults::{FirstFault, ItemFault, wrong};

/// How a parameter is named.
#[derive(Clone, Copy, PartialEq, Eq, Hash)]
pub enum ParamName {
    /// The self type of a trait.
    SelfTy,
    /// A type or a constant.
    Named(Symbol),
    Lifetime(Symbol),
    /// The alias itself, in the bounds of an item or of an opaque type.
    Alias,
}

/// A bound of a parameter as it was written: `T: Tr<u8>`. `Self` may be a subject too.
#[derive(Clone, Copy)]
pub struct ParamBound {
    pub subject: Symbol,
    pub trait_: Segment,
}

/// A parameter by its number.
#[derive(Clone, Copy)]
pub struct Param {
    pub number: u32,
    pub kind: ParamKind,
}

impl Param {
    /// The parameter as an argument.
    pub fn argument(self) -> GenericArg {
        match self.kind {
            ParamKind::Ty => GenericArg::Ty(Ty::Param(self.number)),
            ParamKind::Const => GenericArg::Const(Const::Param(self.number)),
            ParamKind::Lifetime => GenericArg::Lifetime(Region::Param(self.number)),
        }
    }
}

/// Parameters in order of their numbers, and their bounds as they were written.
pub struct Params {
    kinds: IndexMap<ParamName, ParamKind>,
    bounds: Vec<ParamBound>,
}

impl Drop for Params {
    fn drop(self) {
        let Params {
            kinds: _,
            bounds: _,
        } = self;
    }
}

impl Params {
    /// No parameters.
    pub fn new(alloc: Global) -> Params {
        Params {
            kinds: IndexMap::new(alloc),
            bounds: Vec::new(alloc),
        }
    }

    /// How many they are.
    pub fn len(&self) -> usize {
        self.kinds.len()
    }

    /// Whether there are none.
    pub fn is_empty(&self) -> bool {
        self.kinds.is_empty()
    }

    /// The parameter of a name.
    pub fn param(&self, name: ParamName) -> Option<Param> {
        let (index, _, kind) = self.kinds.get_full(&name)?;
        let number = u32::try_from(index).ok()?;
        Some(Param {
            number,
            kind: *kind,
        })
    }

    /// The parameter of a number.
    pub fn numbered(&self, number: u32) -> Option<Param> {
        let (_, kind) = self.kinds.get_index(number as usize)?;
        Some(Param {
            number,
            kind: *kind,
        })
    }

    /// The kinds, in order of the numbers.
    pub fn kinds(&self, alloc: Global) -> Result<Vec<ParamKind>, AllocError> {
        let mut kinds = Vec::new(alloc);
        for kind in self.kinds.values() {
            kinds.push(*kind)?;
        }
        Ok(kinds)
    }

    /// The name that a text gives the parameter of a number.
    pub fn given_name(&self, number: u32) -> Option<Symbol> {
        match self.name(number)? {
            ParamName::Named(name) | ParamName::Lifetime(name) => Some(name),
            ParamName::SelfTy | ParamName::Alias => None,
        }
    }

    /// The name of the parameter of a number.
    fn name(&self, number: u32) -> Option<ParamName> {
        let (name, _) = self.kinds.get_index(number as usize)?;
        Some(*name)
    }

    /// Adds all that stands in others behind what is here.
    pub fn append(&mut self, others: &Params) -> Result<(), AllocError> {
        for (name, kind) in others.kinds.iter() {
            self.kinds.insert(*name, *kind)?;
        }
        self.bounds.extend_from_slice(others.bounds.as_slice())?;
        Ok(())
    }

    /// The first bound of a subject whose trait has an item of a name.
    fn bound_with(
        &self,
        definitions: &Definitions,
        subject: Symbol,
        item: Symbol,
    ) -> Option<Segment> {
        for bound in self.bounds.as_slice() {
            if bound.subject == subject && has_item(definitions, &bound.trait_, item) {
                return Some(bound.trait_);
            }
        }
        None
    }
}

/// Whether a trait has an item of a name, by itself or through a supertrait.
fn has_item(definitions: &Definitions, trait_: &Segment, item: Symbol) -> bool {
    match definitions.trait_id(trait_.ident.name) {
        Some(id) => definitions.item_through(id, item).is_some(),
        None => false,
    }
}

/// What `Self` is.
#[derive(Clone, Copy)]
pub enum SelfTerm {
    Absent,
    /// The self type of a trait: the parameter `ParamName::SelfTy`.
    Param(TraitId),
    /// What an impl is for. It is lowered where it is met.
    Term(TermId),
}

/// Whether `_` and `?x` make variables.
#[derive(Clone, Copy)]
pub enum Inference {
    /// As in goals: variables are numbered in order.
    Asked,
    /// As in items: each is variable 0, which the check of tables refuses.
    Refused,
}

/// What a plain name that nothing has is.
#[derive(Clone, Copy)]
pub enum UnknownNames {
    Mistakes,
    /// As in the head of a `where` block.
    TypeParams,
}

/// A variable that has a name. A region's stands apart.
#[derive(Clone, Copy, PartialEq, Eq, Hash)]
pub struct VarName {
    pub name: Symbol,
    pub kind: VarKind,
}

/// The variables of a goal, in order of their numbers.
pub struct Variables {
    kinds: Vec<VarKind>,
    numbers: IndexMap<VarName, u32>,
    inference: Inference,
}

impl Drop for Variables {
    fn drop(self) {
        let Variables {
            kinds: _,
            numbers: _,
            inference: _,
        } = self;
    }
}

impl Variables {
    /// None yet.
    pub fn new(alloc: Global, inference: Inference) -> Variables {
        Variables {
            kinds: Vec::new(alloc),
            numbers: IndexMap::new(alloc),
            inference,
        }
    }

    /// The kinds, in order of the numbers.
    pub fn kinds(&self, alloc: Global) -> Result<Vec<VarKind>, AllocError> {
        let mut kinds = Vec::new(alloc);
        kinds.extend_from_slice(self.kinds.as_slice())?;
        Ok(kinds)
    }

    /// The number of a fresh variable.
    pub fn fresh(&mut self, kind: VarKind) -> Result<u32, AllocError> {
        if self.inference == Inference::Refused {
            return Ok(0);
        }
        let Ok(number) = u32::try_from(self.kinds.len()) else {
            return Err(AllocError);
        };
        self.kinds.push(kind)?;
        Ok(number)
    }

    /// The number of a variable that has a name. It is fresh where the name is new for its kind.
    pub fn named(&mut self, name: Symbol, kind: VarKind) -> Result<u32, AllocError> {
        let key = VarName { name, kind };
        if let Some(number) = self.numbers.get(&key) {
            return Ok(*number);
        }
        let number = self.fresh(kind)?;
        self.numbers.insert(key, number)?;
        Ok(number)
    }
}

/// The lifetimes of one binder: runs of `Ast::idents`. The inner ones are numbered on.
#[derive(Clone, Copy)]
pub struct Binder {
    pub outer: Run,
    pub inner: Run,
}

impl Binder {
    /// A binder with the names of one `for<..>`.
    pub fn new(names: Run) -> Binder {
        Binder {
            outer: names,
            inner: Run::EMPTY,
        }
    }

    /// How many lifetimes it binds.
    pub fn len(self, ast: &Ast) -> u32 {
        let outer = ast.idents(self.outer).len();
        let inner = ast.idents(self.inner).len();
        u32::try_from(outer.saturating_add(inner)).unwrap_or(u32::MAX)
    }

    /// Which of its lifetimes has a name.
    fn number(self, ast: &Ast, name: Symbol) -> Option<u32> {
        let outer = ast.idents(self.outer);
        let place = match place_of(outer, name) {
            Some(place) => place,
            None => place_of(ast.idents(self.inner), name)?.saturating_add(outer.len()),
        };
        u32::try_from(place).ok()
    }
}

/// The place of the first lifetime that has a name.
fn place_of(lifetimes: &[Ident], name: Symbol) -> Option<usize> {
    for (place, ident) in lifetimes.iter().enumerate() {
        if ident.name == name {
            return Some(place);
        }
    }
    None
}

/// The parameters, lifetimes and variables that a term may name. An environment's own parameters
/// stand before those that are declared here. The first fault of those who name them is kept.
pub struct Scope<'a> {
    outer: Option<&'a Params>,
    pub params: Params,
    pub self_term: SelfTerm,
    /// Those that were entered, the outermost first.
    binders: Vec<Binder>,
    pub variables: Variables,
    pub unknown_names: UnknownNames,
    pub(crate) fault: FirstFault,
}

impl Drop for Scope<'_> {
    fn drop(self) {
        let Scope {
            outer: _,
            params: _,
            self_term: _,
            binders: _,
            variables: _,
            unknown_names: _,
            fault: _,
        } = self;
    }
}

impl<'a> Scope<'a> {
    /// Of no parameters, as items begin.
    pub fn of_item(alloc: Global, self_term: SelfTerm) -> Scope<'a> {
        Scope {
            outer: None,
            params: Params::new(alloc),
            self_term,
            binders: Vec::new(alloc),
            variables: Variables::new(alloc, Inference::Refused),
            unknown_names: UnknownNames::Mistakes,
            fault: FirstFault::NONE,
        }
    }

    /// Of the head of a block in an environment.
    pub fn of_head(alloc: Global, outer: &'a Params) -> Scope<'a> {
        Scope {
            outer: Some(outer),
            params: Params::new(alloc),
            self_term: SelfTerm::Absent,
            binders: Vec::new(alloc),
            variables: Variables::new(alloc, Inference::Refused),
            unknown_names: UnknownNames::TypeParams,
            fault: FirstFault::NONE,
        }
    }

    /// Of a goal in an environment.
    pub fn of_goal(alloc: Global, outer: &'a Params) -> Scope<'a> {
        Scope {
            outer: Some(outer),
            params: Params::new(alloc),
            self_term: SelfTerm::Absent,
            binders: Vec::new(alloc),
            variables: Variables::new(alloc, Inference::Asked),
            unknown_names: UnknownNames::Mistakes,
            fault: FirstFault::NONE,
        }
    }

    /// The parameter of a name.
    pub fn param(&self, name: ParamName) -> Option<Param> {
        let Some(outer) = self.outer else {
            return self.params.param(name);
        };
        if let Some(param) = outer.param(name) {
            return Some(param);
        }
        let own = self.params.param(name)?;
        let before = u32::try_from(outer.len()).ok()?;
        Some(Param {
            number: own.number.checked_add(before)?,
            kind: own.kind,
        })
    }

    /// Declares a parameter. A mistake where its name is taken.
    pub fn declare(&mut self, name: ParamName, kind: ParamKind, at: Position) {
        if self.param(name).is_some() {
            self.fault
                .fail(wrong(at, Phrase::NEW_NAME, Phrase::DECLARED_ALREADY));
        } else if self.params.kinds.insert(name, kind).is_err() {
            self.fault.fail(ItemFault::OutOfMemory);
        }
    }

    /// The kinds of the parameters that are declared here, in order of their numbers.
    pub fn param_kinds(&mut self, alloc: Global) -> Vec<ParamKind> {
        match self.params.kinds(alloc) {
            Ok(kinds) => kinds,
            Err(_) => {
                self.fault.fail(ItemFault::OutOfMemory);
                Vec::new(alloc)
            }
        }
    }

    /// Keeps a bound of a parameter.
    pub fn note_bound(&mut self, subject: Symbol, trait_: Segment) {
        let noted = self.params.bounds.push(ParamBound { subject, trait_ });
        self.fault.keep(noted);
    }

    /// Keeps bounds of a name, but for those that bind lifetimes.
    pub fn note_bounds(&mut self, subject: Symbol, bounds: &[Bound]) {
        for bound in bounds {
            if bound.binder.len == 0 && !bound.is_relaxed {
                self.note_bound(subject, bound.trait_);
            }
        }
    }

    /// The number of a variable, which is fresh unless it has a name that was met.
    pub fn variable(&mut self, name: Option<Symbol>, kind: VarKind) -> u32 {
        let number = match name {
            Some(name) => self.variables.named(name, kind),
            None => self.variables.fresh(kind),
        };
        match number {
            Ok(number) => number,
            Err(_) => {
                self.fault.fail(ItemFault::OutOfMemory);
                0
            }
        }
    }

    /// The first bound of a subject whose trait has an item of a name, by itself or through a supertrait.
    pub fn bound_with(
        &self,
        definitions: &Definitions,
        subject: Symbol,
        item: Symbol,
    ) -> Option<Segment> {
        if let Some(outer) = self.outer {
            if let Some(trait_) = outer.bound_with(definitions, subject, item) {
                return Some(trait_);
            }
        }
        self.params.bound_with(definitions, subject, item)
    }

    /// The kinds of the variables, in order of their numbers.
    pub fn variable_kinds(&mut self, alloc: Global) -> Vec<VarKind> {
        match self.variables.kinds(alloc) {
            Ok(kinds) => kinds,
            Err(_) => {
                self.fault.fail(ItemFault::OutOfMemory);
                Vec::new(alloc)
            }
        }
    }

    /// Enters a binder.
    pub fn enter(&mut self, binder: Binder) {
        let entered = self.binders.push(binder);
        self.fault.keep(entered);
    }

    /// Leaves the innermost binder.
    pub fn leave(&mut self) {
        let _ = self.binders.pop();
    }

    /// How many lifetimes the innermost binder binds.
    pub fn bound_regions(&self, ast: &Ast) -> u32 {
        match self.binders.last() {
            Some(binder) => binder.len(ast),
            None => 0,
        }
    }

    /// A lifetime. A mistake where nothing has its name.
    pub fn region(&mut self, ast: &Ast, lifetime: Lifetime) -> Region {
        match lifetime.kind {
            LifetimeKind::Static => Region::Static,
            LifetimeKind::Erased => Region::Erased,
            LifetimeKind::InferNamed(name) => {
                Region::Var(self.variable(Some(name), VarKind::Region))
            }
            LifetimeKind::Named(name) => match self.named_region(ast, name) {
                Some(region) => region,
                None => {
                    let found = Phrase::ANOTHER_ONE;
                    self.fault
                        .fail(wrong(lifetime.at, Phrase::LIFETIME_IN_SCOPE, found));
                    Region::Erased
                }
            },
        }
    }

    fn named_region(&self, ast: &Ast, name: Symbol) -> Option<Region> {
        for (level, binder) in self.binders.iter().rev().enumerate() {
            if let Some(number) = binder.number(ast, name) {
                let level = u32::try_from(level).unwrap_or(u32::MAX);
                return Some(Region::Bound(level, number));
            }
        }
        let param = self.param(ParamName::Lifetime(name))?;
        Some(Region::Param(param.number))
    }
}
