//! What an evaluation lists of lifetimes, as far as it has come.
ghost use Rattle.std.specs.Prelude.{◌≡◌, ◌<◌, IfOk, length};
ghost use Rattle.goal_terms.specs.Erased.{erased};
ghost use Rattle.goal_interner.specs.TableMeaning.{tree_at, Keeps};

use crate::eval::region_constraints::RegionConstraints;
use goal_infer::fresh_lifetimes::with_fresh_lifetimes;
use goal_interner::term_nodes::{OutOfMemory, TermId};
use goal_interner::term_table::TermTable;
use goal_terms::answers::VarKind;
use goal_terms::predicates::BoundConstness;
use goal_terms::terms::Region;
use indexmap::IndexMap;
use std::alloc::Global;

/// A goal whose answer is kept, by the number of its term: as it is, or as a const trait goal.
#[derive(Clone, Copy, PartialEq, Eq, Hash)]
pub enum KeptGoal {
    Plain(TermId),
    Const(BoundConstness, TermId),
}

/// What is listed at a place: that two lifetimes are equal, or all that a kept answer lists.
#[derive(Clone, Copy)]
pub enum Listed {
    Equation(Region, Region),
    Answer(usize),
}

/// How much was listed when a goal or a candidate began.
#[derive(Clone, Copy)]
pub struct RegionMark {
    listed: usize,
    answers: usize,
    next: u32,
    left_out: bool,
}

/// The equations of lifetimes that an evaluation lists, and the region variables that it makes for them. What a
/// kept answer lists stands once, and is named wherever the answer is used.
pub struct ListedRegions {
    /// Whether equations are listed, and the lifetimes of impls are variables.
    lists: bool,
    /// Whether an equation or a variable was left out since the goal at hand began.
    left_out: bool,
    base: u32,
    next: u32,
    listed: Vec<Listed>,
    answers: Vec<Vec<Listed>>,
    /// Which answer lists what belongs to a goal; none where that was left out.
    goals: IndexMap<KeptGoal, Option<usize>>,
}

impl Drop for ListedRegions {
    fn drop(self) {
        let ListedRegions {
            lists: _,
            left_out: _,
            base: _,
            next: _,
            listed: _,
            answers: _,
            goals: _,
        } = self;
    }
}

impl ListedRegions {
    /// Nothing is listed yet. Where something is to be, the region variables have the numbers from `base` on. It
    /// takes no memory.
    pub fn new(alloc: Global, lists: bool, base: u32) -> Self {
        ListedRegions {
            lists,
            left_out: false,
            base,
            next: base,
            listed: Vec::new(alloc),
            answers: Vec::new(alloc),
            goals: IndexMap::new(alloc),
        }
    }

    /// Whether equations are listed now.
    pub(crate) fn is_listing(&self) -> bool {
        self.lists
    }

    /// Notes that something would be listed, where nothing is.
    pub(crate) fn pass_over(&mut self) {
        self.left_out = true;
    }

    /// A fresh region variable. At 2^32 - 1 variables it is refused as for want of memory.
    pub fn variable(&mut self) -> Result<u32, OutOfMemory> {
        let number = self.next;
        let Some(next) = number.checked_add(1) else {
            return Err(OutOfMemory);
        };
        self.next = next;
        Ok(number)
    }

    /// The lifetime that an impl has for a parameter of its own: a fresh variable, or the erased one where none is
    /// listed.
    pub(crate) fn own_lifetime(&mut self) -> Result<Region, OutOfMemory> {
        if self.lists {
            return Ok(Region::Var(self.variable()?));
        }
        self.pass_over();
        Ok(Region::Erased)
    }

    /// The number of a term with a fresh region variable for each erased lifetime in it, or its own where none is
    /// listed.
    pub(crate) fn with_fresh_lifetimes(
        &mut self,
        terms: &mut TermTable,
        id: TermId,
    ) -> Result<TermId, OutOfMemory>
        requires { id.0 < length terms.old }
        ensures kept { Keeps terms.old terms.new }
        ensures within { IfOk result (λ r. r.0 < length terms.new) }
        ensures same { IfOk result (λ r. erased (tree_at terms.new r) ≡ erased (tree_at terms.old id)) }
    {
        let mut next = self.next;
        let fresh = with_fresh_lifetimes(terms, &mut next, id)?;
        if next == self.next {
            return Ok(id);
        }
        if !self.lists {
            self.pass_over();
            return Ok(id);
        }
        self.next = next;
        Ok(fresh)
    }

    /// Lists that two lifetimes are equal. One isn't equated with itself.
    pub fn equate(&mut self, left: Region, right: Region) -> Result<(), OutOfMemory> {
        if left != right {
            self.listed.push(Listed::Equation(left, right))?;
        }
        Ok(())
    }

    /// How much is listed now.
    pub(crate) fn mark(&self) -> RegionMark {
        RegionMark {
            listed: self.listed.len(),
            answers: self.answers.len(),
            next: self.next,
            left_out: self.left_out,
        }
    }

    /// Takes back what was listed since. Its variables are free again, if no kept answer can name one of them.
    pub(crate) fn cut(&mut self, mark: RegionMark) {
        self.listed.truncate(mark.listed);
        if self.answers.len() == mark.answers {
            self.next = mark.next;
        }
    }

    /// Lists nothing from here on, and tells whether something was.
    pub(crate) fn leave_out(&mut self) -> bool {
        let lists = self.lists;
        self.lists = false;
        lists
    }

    /// Lists again, if something was listed before.
    pub(crate) fn list_again(&mut self, lists: bool) {
        self.lists = lists;
    }

    /// Begins a goal.
    pub fn begin(&mut self) -> RegionMark {
        let mark = self.mark();
        self.left_out = false;
        mark
    }

    /// Ends a goal that began at a mark. What it lists is kept where it holds, and else taken back.
    pub fn end(
        &mut self,
        goal: KeptGoal,
        mark: RegionMark,
        holds: bool,
    ) -> Result<(), OutOfMemory> {
        let left_out = self.left_out;
        self.left_out = left_out || mark.left_out;
        if !holds {
            self.cut(mark);
            return Ok(());
        }
        if self.lists {
            return self.keep(goal, mark);
        }
        if left_out {
            self.goals.insert(goal, None)?;
        }
        Ok(())
    }

    /// Keeps what was listed since a mark as that of a goal's answer, which is named in its place.
    fn keep(&mut self, goal: KeptGoal, mark: RegionMark) -> Result<(), OutOfMemory> {
        let listed = self.listed.len() > mark.listed || self.next > mark.next;
        if !listed && !self.goals.contains_key(&goal) {
            return Ok(());
        }
        let mut kept = Vec::new(*self.listed.allocator());
        for i in mark.listed..self.listed.len() {
            kept.push(self.listed[i])?;
        }
        self.listed.truncate(mark.listed);
        let answer = self.answers.len();
        self.answers.push(kept)?;
        self.goals.insert(goal, Some(answer))?;
        self.listed.push(Listed::Answer(answer))?;
        Ok(())
    }

    /// Lists what belongs to the kept answer of a goal that holds. Where it was left out when the goal was
    /// answered, the answer is no: then the goal is to be answered anew.
    pub(crate) fn list_kept(&mut self, goal: KeptGoal) -> Result<bool, OutOfMemory> {
        let Some(answer) = self.goals.get(&goal) else {
            return Ok(true);
        };
        let answer = *answer;
        if !self.lists {
            self.pass_over();
            return Ok(true);
        }
        let Some(answer) = answer else {
            return Ok(false);
        };
        self.listed.push(Listed::Answer(answer))?;
        Ok(true)
    }

    /// What was listed, each kept answer's once, as an answer lists it.
    pub(crate) fn constraints(&self) -> Result<RegionConstraints, OutOfMemory> {
        let alloc = *self.listed.allocator();
        let mut constraints = RegionConstraints::new(alloc);
        let mut seen = Vec::new(alloc);
        seen.resize(self.answers.len(), false)?;
        let listed = self.listed.as_slice();
        self.add_listed(listed, self.answers.len(), &mut seen, &mut constraints)?;
        constraints.add_variables(self.next.saturating_sub(self.base))?;
        Ok(constraints)
    }

    /// What a kept answer lists.
    fn kept_at(&self, answer: usize) -> &[Listed] {
        match self.answers.get(answer) {
            Some(kept) => kept.as_slice(),
            None => &[],
        }
    }

    /// Adds what stands in a list, which names answers before a place alone, and what these list.
    fn add_listed(
        &self,
        listed: &[Listed],
        before: usize,
        seen: &mut Vec<bool>,
        constraints: &mut RegionConstraints,
    ) -> Result<(), OutOfMemory> {
        for item in listed {
            match *item {
                Listed::Equation(left, right) => constraints.add_equation(left, right)?,
                Listed::Answer(answer) => {
                    if answer < before && is_first(seen, answer) {
                        let kept = self.kept_at(answer);
                        self.add_listed(kept, answer, seen, constraints)?;
                    }
                }
            }
        }
        Ok(())
    }
}

/// Whether a place is seen for the first time, which is noted.
fn is_first(seen: &mut [bool], place: usize) -> bool {
    match seen.get_mut(place) {
        Some(known) if !*known => {
            *known = true;
            true
        }
        _ => false,
    }
}
