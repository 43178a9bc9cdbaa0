//! What holds of the table of the commands.

ghost use Rattle.std.specs.Prelude.{◌≡◌, Some};
ghost use Rattle.std.specs.List.{All};
ghost use Rattle.vk_words.specs.Table.{commands, row_of};

/// A law: the names of the commands are all different, so each is found by its name.
#[tactic(auto, using(crate::proofs::Rows::each_is_found))]
pub fn every_command_is_found_by_its_name()
    ensures { All (λ row. row_of row.name ≡ Some row) commands }
{}
