ghost use Rattle.std.specs.Prelude.{◌≡◌, ◌++◌, List, ℕ, length, take, OnOk, OnErr};
ghost use Rattle.vk_plan.specs.Plans.{PlanValue, NamesOwnWires, IsPlan, Holds, extended};
ghost use Rattle.vk_plan.specs.declared.wire.WireKind.{WireKind as Kind};
ghost use Rattle.vk_plan.specs.declared.form.Form.{Form as Row};

use crate::plan::Plan;
use std::alloc::Global;
use vk_residue::{NoMemory, Residue};

/// What may be appended to a plan: wires and rows that are 0 exactly where something is true of the
/// values of the wires before.
pub trait Relation {
    /// The plans that it may be appended to.
    ghost fits: { Self → PlanValue → Type 0 };

    /// The wires that it appends, where there are that many before.
    ghost wires: { Self → ℕ → List Kind };

    /// The rows that it appends, where there are that many wires before.
    ghost rows: { Self → ℕ → List Row };

    /// What it says of the values of the wires before.
    ghost true_of: { Self → List ℕ → Type 0 };

    /// The values of the wires that it appends.
    ghost filled: { Self → List ℕ → List ℕ };

    /// Appends the wires and rows. After a refusal the plan is as before.
    fn add(&self, alloc: Global, plan: &mut Plan) -> Result<(), NoMemory>
        requires fits { fits self.now plan.old }
        requires room { IsPlan
            (extended plan.old (wires self.now (length plan.old.kinds))
            (rows self.now (length plan.old.kinds))) }
        ensures added { OnOk result
            (plan.new ≡ extended plan.old (wires self.now (length plan.old.kinds))
            (rows self.now (length plan.old.kinds))) }
        ensures as_before { OnErr result (plan.new ≡ plan.old) };

    /// Appends the values of its wires. After a refusal the values are as before.
    fn fill(&self, values: &mut Vec<Residue>) -> Result<(), NoMemory>
        requires fits { (plan : PlanValue)
            × (fits self.now plan × (length plan.kinds ≡ length values.old.items)) }
        requires true_of { true_of self.now values.old.items }
        ensures filled { OnOk result
            (values.new.items ≡ values.old.items ++ filled self.now values.old.items) }
        ensures as_before { OnErr result (values.new.items ≡ values.old.items) };

    /// Where values hold for the longer plan, it is true of those before.
    ghost sound: { (relation : Self) (plan : PlanValue) (values : List ℕ) → NamesOwnWires plan
        → fits relation plan
        → Holds (extended plan (wires relation (length plan.kinds))
        (rows relation (length plan.kinds))) values
        → true_of relation (take (length plan.kinds) values) };

    /// Where values hold for a plan and it is true of them, its own values make them hold for the
    /// longer plan.
    ghost complete: { (relation : Self) (plan : PlanValue) (values : List ℕ) → NamesOwnWires plan
        → fits relation plan
        → Holds plan values → true_of relation values
        → Holds (extended plan (wires relation (length plan.kinds))
        (rows relation (length plan.kinds)))
        (values ++ filled relation values) };
}

/// Appends a relation that is true of the values to a plan, and its own values to them: what held
/// before holds again. After a refusal both are as before.
pub fn add_and_fill<R: Relation>(
    alloc: Global,
    relation: &R,
    plan: &mut Plan,
    values: &mut Vec<Residue>,
) -> Result<(), NoMemory>
    requires fits { R.fits relation.now plan.old }
    requires room { IsPlan (extended plan.old (R.wires relation.now (length plan.old.kinds))
        (R.rows relation.now (length plan.old.kinds))) }
    requires holds { Holds plan.old values.old.items }
    requires true_of { R.true_of relation.now values.old.items }
    ensures holds { OnOk result (Holds plan.new values.new.items) }
    ensures added { OnOk result
        (plan.new ≡ extended plan.old (R.wires relation.now (length plan.old.kinds))
        (R.rows relation.now (length plan.old.kinds))) }
    ensures filled { OnOk result
        (values.new.items ≡ values.old.items ++ R.filled relation.now values.old.items) }
    ensures plan_as_before { OnErr result (plan.new ≡ plan.old) }
    ensures values_as_before { OnErr result (values.new.items ≡ values.old.items) }
{
    let wires = plan.wires();
    let rows = plan.rows();
    relation.add(alloc, plan)?;
    if let Err(refused) = relation.fill(values) {
        plan.cut(wires, rows);
        return Err(refused);
    }
    Ok(())
}
