// What is to be shown lane by lane.
ghost use Rattle.std.specs.Prelude.{◌≡◌, IfOk};
ghost use Rattle.vk_judge.specs.Statement.{IsStatement, StatementValue, stated};

use std::alloc::Global;
use std::marker::Model;
use vk_board::SealLines;
use vk_plan::{Plan, RowTable};
use vk_residue::NoMemory;
use vk_seq::Seq;

/// What is to be shown lane by lane: of which auction, in how many lanes, of which seals, by which
/// circuit. Its rows are also a table, which is made once for all lanes.
#[derive(Debug, Drop)]
pub struct Statement {
    auction: [u8; 16],
    lanes: u32,
    seals: Seq<SealLines>,
    plan: Plan,
    table: RowTable,
}

impl Model for Statement {
    ghost use Rattle.std.specs.Prelude.{◌≡◌};
    ghost use Rattle.vk_judge.specs.Statement.{StatementValue, IsStatement, stated};

    ghost Value = { StatementValue };

    ghost view = { λ s. stated s.auction s.lanes s.seals s.plan };

    ghost invariant = { λ s. IsStatement (stated s.auction s.lanes s.seals s.plan)
        × (s.table ≡ s.plan.rows) };
}

impl Statement {
    /// Of the auction with this id, in 1 to 64 lanes: these seals are the inputs of this circuit.
    pub fn of(
        alloc: Global,
        auction: [u8; 16],
        lanes: u32,
        seals: Seq<SealLines>,
        plan: Plan,
    ) -> Result<Statement, NoMemory>
        requires { IsStatement (stated auction lanes seals plan) }
        ensures { IfOk result (λ statement. statement ≡ stated auction lanes seals plan) }
    {
        let table = RowTable::of(alloc, &plan)?;
        Ok(Statement {
            auction,
            lanes,
            seals,
            plan,
            table,
        })
    }

    /// The auction's id.
    pub fn auction(&self) -> [u8; 16]
        ensures { result ≡ self.now.auction }
    {
        self.auction
    }

    /// How many lanes there are, 1 to 64.
    pub fn lanes(&self) -> u32
        ensures value { result ≡ self.now.lanes }
        ensures right { IsStatement self.now }
    {
        self.lanes
    }

    /// The seals, in order.
    pub fn seals(&self) -> &[SealLines]
        ensures value { result.now ≡ self.now.seals }
        ensures right { IsStatement self.now }
    {
        self.seals.as_slice()
    }

    /// The seals, without the rest.
    pub fn into_seals(self) -> Seq<SealLines>
        ensures { result ≡ self.seals }
    {
        let Statement { seals, .. } = self;
        seals
    }

    /// The circuit of the lanes.
    pub fn plan(&self) -> &Plan
        ensures value { result.now ≡ self.now.plan }
        ensures right { IsStatement self.now }
    {
        &self.plan
    }

    /// The rows of the circuit as a table.
    pub fn table(&self) -> &RowTable
        ensures { result.now ≡ self.now.plan.rows }
    {
        &self.table
    }
}
