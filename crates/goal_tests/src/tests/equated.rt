//! Equating two terms in an empty environment.
ghost use Rattle.goal_solver.specs.GoingBack.{GoesBack};

use goal_solver::context::EvalCtxt;
use goal_solver::faults::Fault;
use goal_terms::answers::Certainty;
use goal_terms::terms::Term;

/// What equating two terms in a context answers.
pub fn equate(context: &mut EvalCtxt<'_>, left: &Term, right: &Term) -> Result<Certainty, Fault>
    ensures goes_back { GoesBack context.old context.new }
{
    context.eq(&[], left, right)
}
