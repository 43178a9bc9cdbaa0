// What several of these tests make.
use std::test::Fail;
use vk_commit::Opening;
use vk_residue::Residue;

/// The residue of a number. An error where it is not below the modulus.
pub fn residue(number: u64) -> Result<Residue, Fail> {
    Ok(Residue::new(number).ok_or("not below the modulus")?)
}

pub fn opening(key: [u8; 32], number: u64) -> Result<Opening, Fail> {
    let value = residue(number)?;
    Ok(Opening { key, value })
}
