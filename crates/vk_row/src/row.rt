// The posted number of a row, and the check of one.
ghost use Rattle.std.specs.Prelude.{◌≡◌, ◌↔◌, length, IsTrue};
ghost use Rattle.vk_plan.specs.Forms.{linear_part, NamesBelow};
ghost use Rattle.vk_row.specs.Rows.{HasSide, has_side};

use vk_plan::Form;
use vk_residue::Residue;

/// What is posted for a row: the form without its constant on the first halves. Takes no memory.
pub fn posted(form: &Form, firsts: &[Residue]) -> Residue
    requires { NamesBelow (length firsts.now) form.now.terms }
    ensures { result ≡ linear_part form.now.terms firsts.now }
{
    form.linear(firsts)
}

/// Whether the halves meet the posted number of a row. Takes no memory.
///
/// For bit 0 the form without its constant on the halves is the posted number. For bit 1 the form
/// with its constant on the halves is the negative of the posted number.
pub fn check(form: &Form, bit: bool, halves: &[Residue], posted: Residue) -> bool
    requires { NamesBelow (length halves.now) form.now.terms }
    ensures exactly { IsTrue result ↔ HasSide form.now bit halves.now posted }
    ensures test { result ≡ has_side form.now bit halves.now posted }
{
    if bit {
        form.value(halves) == posted.neg()
    } else {
        form.linear(halves) == posted
    }
}
