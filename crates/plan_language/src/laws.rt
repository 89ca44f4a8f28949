//! What the definitions of this crate amount to, in other words.

ghost use Rattle.plan_language.specs.Texts.{AnyPlansHaveOneText, PlansHaveOneText};

/// PlanTextExact: a text is read as a plan of a version 1 to 3 exactly where it is what that plan is written as.
pub fn plans_have_one_text()
    ensures { PlansHaveOneText }
{}

/// PlanTextExact: a text is read as a plan of any version exactly where it is what that plan is written as.
pub fn any_plans_have_one_text()
    ensures { AnyPlansHaveOneText }
{}
