ghost use Rattle.std.specs.Prelude.{◌≡◌, ◌<◌, ◌^◌, IfOk, Some};
ghost use Rattle.vk_residue.specs.Limits.{IsSize};
ghost use Rattle.vk_lines.specs.Common.{Causes, Modelled};
ghost use Rattle.vk_reply.specs.Values.{IsChallenge};
ghost use Rattle.vk_seal.specs.Values.{IsSeal, IsSecret};
ghost use Rattle.vk_keeper.specs.Auctions.{seed_of, challenge_of};
ghost use Rattle.vk_house.specs.Answers.{work_of};
ghost use Rattle.vk_house.specs.Calls.{CallsHouse};
ghost use Rattle.vk_house.specs.Commands.{Announce, AnnounceReserve, Submit, Prove, Answer, Show};
ghost use Rattle.vk_house.specs.Deciding.{IsDecisionOn, KeepsAnew, MayPut};
ghost use Rattle.vk_house.specs.Replies.{Done, Position, Stands};

use crate::errors::HouseErr;
use crate::found::Found;
use crate::opening::{decide_announce, decide_submit};
use crate::standing::{Standing, decide_show};
use crate::working::{Decision, decide_answer, decide_prove};
use std::alloc::Global;
use vk_io::OutsideErr;
use vk_job::Job;
use vk_keeper::Keeper;
use vk_reply::Challenge;
use vk_seal::{Seal, Secret};

/// An auctioneer's house over a keeper of auctions.
#[derive(Drop)]
pub struct House<'a, K: Keeper + Drop> {
    keeper: &'a mut K,
}

impl<'a, K: Keeper + Drop> House<'a, K> {
    /// A house over that keeper.
    pub fn over(keeper: &'a mut K) -> House<'a, K>
        ensures { result.keeper ≡ keeper.entry }
    {
        House { keeper }
    }

    /// Keeps an auction of version 1 in phase Taking without seals. Refused where the id is known.
    pub fn announce(
        &mut self,
        alloc: Global,
        id: &[u8; 16],
        width: u32,
        lanes: u32,
    ) -> Result<(), HouseErr>
        requires { IsSize width lanes }
        ensures call { CallsHouse K.ledger K.turns K.faults K.get_gives
            (Announce id.now width lanes) (λ _. Done) result
            self.old.keeper.now self.new.keeper.now }
        ensures keeper { self.new.keeper.ghost_name ≡ self.old.keeper.ghost_name }
    {
        let found = Found::under(id, self.keeper.get(id)?);
        let auction = decide_announce(alloc, found, width, lanes, None)?;
        self.keeper.put(auction)?;
        Ok(())
    }

    /// Keeps an auction of version 2 with that reserve, in phase Taking without seals. Refused
    /// where the id is known.
    pub fn announce_reserve(
        &mut self,
        alloc: Global,
        id: &[u8; 16],
        width: u32,
        lanes: u32,
        reserve: u64,
    ) -> Result<(), HouseErr>
        requires size { IsSize width lanes }
        requires small { reserve < 2 ^ width }
        ensures call { CallsHouse K.ledger K.turns K.faults K.get_gives
            (AnnounceReserve id.now width lanes reserve) (λ _. Done) result
            self.old.keeper.now self.new.keeper.now }
        ensures keeper { self.new.keeper.ghost_name ≡ self.old.keeper.ghost_name }
    {
        let found = Found::under(id, self.keeper.get(id)?);
        let reserve = Some(reserve);
        let auction = decide_announce(alloc, found, width, lanes, reserve)?;
        self.keeper.put(auction)?;
        Ok(())
    }

    /// Keeps the seal and its secret last, and answers its position, from 1. Refused where the id
    /// is unknown, where seals are no longer taken, and where the seal may not join.
    pub fn submit(&mut self, id: &[u8; 16], seal: Seal, secret: Secret) -> Result<u32, HouseErr>
        requires seal { IsSeal seal }
        requires secret { IsSecret secret }
        ensures call { CallsHouse K.ledger K.turns K.faults K.get_gives
            (Submit id.now seal secret) Position result
            self.old.keeper.now self.new.keeper.now }
        ensures keeper { self.new.keeper.ghost_name ≡ self.old.keeper.ghost_name }
    {
        let found = Found::under(id, self.keeper.get(id)?);
        let joined = decide_submit(found, seal, secret)?;
        self.keeper.put(joined.auction)?;
        Ok(joined.position)
    }

    /// The job of the auction with that seed. In phase Taking the seed is kept, and no more seals
    /// are taken; in the later phases nothing new is kept. Refused where the id is unknown, where
    /// no seal or another seed is held, and where the seed is dry.
    pub fn prove(&mut self, alloc: Global, id: &[u8; 16], seed: &[u8; 32]) -> Result<Job, HouseErr>
        ensures call { CallsHouse K.ledger K.turns K.faults K.get_gives
            (Prove id.now seed.now) work_of result
            self.old.keeper.now self.new.keeper.now }
        ensures keeper { self.new.keeper.ghost_name ≡ self.old.keeper.ghost_name }
        ensures id { IfOk result (λ job. job.auction.id ≡ id.now) }
        ensures seed { IfOk result (λ job. seed_of job.auction.phase ≡ Some seed.now) }
    {
        let found = Found::under(id, self.keeper.get(id)?);
        let proving = decide_prove(alloc, found, seed)?;
        let job = keep(self.keeper, proving)?;
        Ok(job)
    }

    /// The job of the auction with that challenge. In phase Proved the challenge is kept, and no
    /// other is answered from then on; in phase Answered nothing new is kept. Refused where the id
    /// is unknown, where seals are still taken, where the challenge doesn't have a bit for each
    /// lane, where another one is kept, and where the seed is dry.
    pub fn answer(
        &mut self,
        alloc: Global,
        id: &[u8; 16],
        challenge: &Challenge,
    ) -> Result<Job, HouseErr>
        requires { IsChallenge challenge.now }
        ensures call { CallsHouse K.ledger K.turns K.faults K.get_gives
            (Answer id.now challenge.now) work_of result
            self.old.keeper.now self.new.keeper.now }
        ensures keeper { self.new.keeper.ghost_name ≡ self.old.keeper.ghost_name }
        ensures id { IfOk result (λ job. job.auction.id ≡ id.now) }
        ensures answered { IfOk result
            (λ job. challenge_of job.auction.phase ≡ Some challenge.now) }
    {
        let found = Found::under(id, self.keeper.get(id)?);
        let answering = decide_answer(alloc, found, challenge)?;
        let job = keep(self.keeper, answering)?;
        Ok(job)
    }

    /// How the auction stands. Refused where the id is unknown.
    pub fn show(&mut self, id: &[u8; 16]) -> Result<Standing, HouseErr>
        ensures call { CallsHouse K.ledger K.turns K.faults K.get_gives
            (Show id.now) Stands result
            self.old.keeper.now self.new.keeper.now }
        ensures keeper { self.new.keeper.ghost_name ≡ self.old.keeper.ghost_name }
    {
        let found = Found::under(id, self.keeper.get(id)?);
        let standing = decide_show(found)?;
        Ok(standing)
    }
}

/// Keeps the auction that is to be kept anew, if one is, and answers the job.
fn keep<K: Keeper>(keeper: &mut K, decision: Decision) -> Result<Job, OutsideErr>
    requires { IsDecisionOn decision.job.auction.id decision }
    ensures job { IfOk result (λ job. job ≡ decision.job) }
    ensures put { Modelled (KeepsAnew decision result) (K.ledger keeper.old)
        (K.ledger keeper.new) }
    ensures turn { MayPut (K.turns keeper.old) (K.turns keeper.new) }
    ensures causes { Causes OutsideErr.Failed result (K.faults keeper.old) (K.faults keeper.new) }
{
    let Decision { job, kept } = decision;
    if let Some(auction) = kept {
        keeper.put(auction)?;
    }
    Ok(job)
}
