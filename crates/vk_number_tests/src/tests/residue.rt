use std::test::Fail;
use vk_residue::{Acc, Residue};

#[test]
fn arithmetic_at_the_edges(rt: HostRuntime) -> Result<(), Fail> {
    let greatest = Residue::new(2305843009213693950).ok_or("below the modulus")?;
    assert_eq!(rt; Residue::new(2305843009213693951), None);
    assert_eq!(rt; greatest.add(Residue::ONE).get(), 0);
    assert_eq!(rt; Residue::ZERO.sub(Residue::ONE), greatest);
    assert_eq!(rt; Residue::ONE.neg(), greatest);
    let two = Residue::new(2).ok_or("below the modulus")?;
    assert_eq!(rt; Residue::pow2(60).times(two).get(), 1);
    assert_eq!(rt; greatest.times(greatest).get(), 1);
    Ok(())
}

#[test]
fn products_are_summed(rt: HostRuntime) -> Result<(), Fail> {
    let greatest = Residue::new(2305843009213693950).ok_or("below the modulus")?;
    let mut sum = Acc::new();
    for _product in 0..64 {
        sum.take(greatest, greatest);
    }
    assert_eq!(rt; sum.give().get(), 64);
    Ok(())
}
