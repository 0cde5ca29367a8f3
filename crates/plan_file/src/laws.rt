//! Laws of the texts of plans.
ghost use Rattle.std.specs.Prelude.{◌≡◌, ℕ, List, Result};
ghost use Rattle.undo_plans.specs.declared.plan.Plan.{Plan as AnyPlan};
ghost use Rattle.plan_file.specs.declared.plan_fault.PlanFault.{PlanFault as AnyFault};
ghost use Rattle.plan_file.specs.PlanHolds.{ReadsPlan};

/// A text is read in one way: as one plan, or with one fault.
pub fn one_plan()
    ensures { (text : List ℕ) (a b : Result AnyPlan AnyFault)
        → ReadsPlan text a → ReadsPlan text b → a ≡ b }
{}
