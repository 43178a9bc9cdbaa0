ghost use Rattle.std.specs.Prelude.{IfOk};
ghost use Rattle.vk_plan.specs.Forms.{NamesBelow};

use super::numbers::residue_or_zero;
use std::alloc::Global;
use std::test::Fail;
use vk_plan::{Circuit, Form, Plan, Relation, RowTable, Term, WireKind};
use vk_residue::{NoMemory, Residue};
use vk_seq::Seq;

/// Twice the first wire, less the second, plus 5.
fn sample_form(alloc: Global) -> Result<Form, NoMemory>
    ensures { IfOk result (λ form. NamesBelow 2 form.terms) }
{
    let terms = vec![in alloc;
        Term {
            wire: 0,
            factor: residue_or_zero(2)
        },
        Term {
            wire: 1,
            factor: Residue::ONE.neg()
        },
    ]?;
    Ok(Form {
        terms: Seq::from_vec(terms),
        constant: residue_or_zero(5),
    })
}

#[test]
fn a_form_is_factor_times_value_and_the_constant(rt: HostRuntime) -> Result<(), Fail> {
    let form = sample_form(rt.alloc())?.copy(rt.alloc())?;
    let values = [residue_or_zero(10), residue_or_zero(3)];
    assert!(rt; form.linear(&values).get() == 17);
    assert!(rt; form.value(&values).get() == 22);
    Ok(())
}

#[test]
fn wires_and_rows_come_and_go(rt: HostRuntime) -> Result<(), Fail> {
    let mut plan = Plan::new(rt.alloc(), 1)?;
    plan.append(&[WireKind::Pair(3)], Some(sample_form(rt.alloc())?))?;
    plan.append(&[WireKind::Split, WireKind::Pair(60)], None)?;
    assert!(rt; (plan.inputs(), plan.wires(), plan.rows()) == (1, 4, 1));
    assert!(rt; plan.kind(1) == WireKind::Pair(3));
    assert!(rt; plan.row(0).constant.get() == 5);
    let table = RowTable::of(rt.alloc(), &plan)?;
    let values = [
        residue_or_zero(10),
        residue_or_zero(3),
        residue_or_zero(0),
        residue_or_zero(0),
    ];
    assert!(rt; (table.sum(0, &values).get(), table.constant(0).get()) == (17, 5));
    plan.cut(2, 0);
    assert!(rt; (plan.inputs(), plan.wires(), plan.rows()) == (1, 2, 0));
    Ok(())
}
