// Many more draws, and the words of streams, are replayed by the program `vectors`.
use std::test::Fail;
use vk_dice::{ListWords, Words, draw_residue};
use vk_residue::Residue;

#[test]
fn the_words_behind_a_list_are_0(rt: HostRuntime) -> Result<(), Fail> {
    let mut words = ListWords::of(rt.alloc(), &[2305843009213693951])?;
    assert_eq!(rt; draw_residue(&mut words).map(Residue::get), Ok(0));
    assert_eq!(rt; words.next(), 0);
    Ok(())
}
