//! What questions come to, and how the outcomes of several are joined.
ghost use Rattle.std.specs.Prelude.{◌≡◌, ◌↔◌, IsTrue};
ghost use Rattle.goal_lists.specs.Joined.{both, one_of, beside, held, through};

use goal_terms::answers::TraitGoalProvenVia;

/// What a question comes to.
#[derive(Clone, Copy)]
pub enum Outcome {
    Holds,
    Refuted,
    Undecided,
}

/// What a trait goal comes to.
#[derive(Clone, Copy)]
pub enum TraitOutcome {
    Holds(TraitGoalProvenVia),
    Refuted,
    Undecided,
}

impl Outcome {
    /// Whether it is refuted.
    pub fn is_refuted(self) -> bool
        ensures { IsTrue result ↔ (self ≡ Outcome.Refuted) }
    {
        matches!(self, Outcome::Refuted)
    }

    /// What two questions come to together: refuted where one is refuted, else undecided where one is.
    pub fn and(self, other: Outcome) -> Outcome
        ensures { result ≡ both self other }
    {
        match self {
            Outcome::Refuted => Outcome::Refuted,
            Outcome::Holds => other,
            Outcome::Undecided => match other {
                Outcome::Refuted => Outcome::Refuted,
                _ => Outcome::Undecided,
            },
        }
    }

    /// What one of two questions comes to: it holds where one holds, else it is undecided where one is.
    pub fn or(self, other: Outcome) -> Outcome
        ensures { result ≡ one_of self other }
    {
        match self {
            Outcome::Holds => Outcome::Holds,
            Outcome::Refuted => other,
            Outcome::Undecided => match other {
                Outcome::Holds => Outcome::Holds,
                _ => Outcome::Undecided,
            },
        }
    }

    /// What a candidate comes to beside the impls that are more special than it, by what these come to: it is ruled out
    /// where one of them holds, and undecided until each of them is refuted.
    pub fn beside(self, more_special: Outcome) -> Outcome
        ensures { result ≡ beside self more_special }
    {
        match self {
            Outcome::Refuted => Outcome::Refuted,
            Outcome::Holds => match more_special {
                Outcome::Holds => Outcome::Refuted,
                Outcome::Refuted => Outcome::Holds,
                Outcome::Undecided => Outcome::Undecided,
            },
            Outcome::Undecided => match more_special {
                Outcome::Holds => Outcome::Refuted,
                _ => Outcome::Undecided,
            },
        }
    }

    /// What a trait goal comes to, where the candidates of a class come to this and those of the classes
    /// before are refuted; nothing where these are refuted, too.
    pub fn through(self, class: TraitGoalProvenVia) -> Option<TraitOutcome>
        ensures { result ≡ through self class }
    {
        match self {
            Outcome::Holds => Some(TraitOutcome::Holds(class)),
            Outcome::Refuted => None,
            Outcome::Undecided => Some(TraitOutcome::Undecided),
        }
    }
}

impl TraitOutcome {
    /// What a trait goal comes to, by whichever class.
    pub fn held(self) -> Outcome
        ensures { result ≡ held self }
    {
        match self {
            TraitOutcome::Holds(_) => Outcome::Holds,
            TraitOutcome::Refuted => Outcome::Refuted,
            TraitOutcome::Undecided => Outcome::Undecided,
        }
    }
}
