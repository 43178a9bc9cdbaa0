use std::test::Fail;
use vk_seq::Seq;

#[test]
fn what_goes_in_is_there(rt: HostRuntime) -> Result<(), Fail> {
    let mut numbers = Seq::new(rt.alloc());
    assert!(rt; numbers.is_empty());
    numbers.push(7u8)?;
    numbers.push(9)?;
    assert_eq!(rt; numbers.as_slice(), [7, 9].as_slice());
    numbers.truncate(1);
    assert_eq!(rt; numbers.len(), 1);
    let kept = Seq::from_vec(numbers.into_vec());
    assert_eq!(rt; kept.as_slice(), [7].as_slice());
    Ok(())
}
