//! What commands one after another come to.

ghost use Rattle.vk_effect.specs.Sequences.{AreOne, StopsAfterSome};

/// A law: commands that are done one after another, with a line at the end, leave what one command
/// does whose text is their texts and that line, and which writes their files one after another.
pub fn commands_one_after_another_are_one()
    ensures { AreOne }
{}

/// A law: commands that come one after another are stopped exactly where some of them were done,
/// and the next one was stopped, or after all of them the line at the end.
pub fn a_stop_is_after_some_of_the_commands()
    ensures { StopsAfterSome }
{}
