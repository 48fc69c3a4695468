// What a plan is worth. A law is the contract of a function that does nothing.
ghost use Rattle.carve_plan.specs.Law.{PlanLaw};

/// The program of a plan is called clear, no moment of it removes a point outside the drawing, and at each contact some move goes as
/// deep as fits at the centre of the greatest disc.
pub fn plan_law()
    ensures { PlanLaw }
{}
