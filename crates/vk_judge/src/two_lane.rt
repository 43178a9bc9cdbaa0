// What two replies show of a lane, side by side.
ghost use Rattle.std.specs.Prelude.{◌≡◌, ◌⊎◌, ◌≤◌, ◌<◌, ◌+◌, length, drop, Err, IsTrue, IsFalse, IsOk, OnOk, IfSome, IfOk, IfErr};
ghost use Rattle.vk_lines.specs.Lines.{OnlyReads, rest_of, end_at};
ghost use Rattle.vk_row.specs.Lanes.{IsAccepted};
ghost use Rattle.vk_judge.specs.Statement.{IsStatement};
ghost use Rattle.vk_judge.specs.Behind.{Judges, JudgesOn, in_part};
ghost use Rattle.vk_judge.specs.Parts.{reply_judged, attempt_at, rest_judged, rest_left, AreLeft, Fits};
ghost use Rattle.vk_judge.specs.Two.{IsFound, GivesLane, Refuses, of_second, two_lane_at, base_behind, second_begun, ends_found, accepted_of, ahead_on, rests_of, IsBase, IsTwoLane};

use crate::answers::{Fault, Part};
use crate::halt::{Halt, in_part};
use crate::judging::{judge_rest, read_attempt, read_ends};
use crate::lane::{read_case, read_checked};
use crate::stage::{Base, FileAndReply, LanesLeft, TwoLane, TwoReaders};
use crate::statement::Statement;
use crate::two_halt::{TwoHalt, accepted_of, found_by, is_refused, of_first, of_second};
use std::alloc::Global;
use vk_io::Shelf;
use vk_lines::Lines;
use vk_row::LaneCase;
use vk_seq::Seq;
use vk_wire::Shown;

/// Judges the lanes of the first reply that are left, to its end, where that is asked for.
pub fn judge_on<S: Shelf>(
    alloc: Global,
    shelf: &mut S,
    asked: bool,
    left: LanesLeft<'_>,
    pair: &mut FileAndReply,
) -> Result<(), Halt<Fault>>
    requires { AreLeft left }
    ensures modelled { IfSome (S.held shelf.old)
        (λ files. IsTrue asked → Judges (λ done. done) result
        (rest_left left.entry (rest_of pair.old.file files) (rest_of pair.old.reply files))) }
    ensures kept { IsFalse asked → pair.new ≡ pair.old }
    ensures idle { IsFalse asked → IsOk result }
    ensures shelf { OnlyReads S.held S.Shelf.faults Halt.Failed result shelf.old shelf.new }
{
    if !asked {
        return Ok(());
    }
    judge_rest(alloc, shelf, left, pair)?;
    Ok(())
}

/// Reads what the second reply shows of the lane for its bit, and checks it. Where there is a fault
/// of it, the first reply is judged on.
fn read_second<S: Shelf>(
    alloc: Global,
    shelf: &mut S,
    base: &Base,
    case: &LaneCase,
    lane: u32,
    bit: bool,
    readers: &mut TwoReaders,
) -> Result<Seq<Shown>, TwoHalt>
    requires base { IsBase base.now }
    requires fits { Fits base.now.statement.plan case.now }
    requires within { lane ≤ base.now.statement.lanes }
    ensures modelled { JudgesOn (S.held shelf.old) (rest_of readers.new.second) result
        (λ files. of_second (rest_judged base.now.statement (lane + 1)
        (drop lane base.now.first_bits)
        (rest_of readers.old.pair.file files) (rest_of readers.old.pair.reply files))
        (reply_judged base.now.statement.plan case.now lane bit
        (rest_of readers.old.second files))) }
    ensures pair { OnOk result (readers.new.pair ≡ readers.old.pair) }
    ensures accepted { IfOk result (IsAccepted base.now.statement.plan case.now bit) }
    ensures refuses { IfErr result Refuses }
    ensures shelf { OnlyReads S.held S.Shelf.faults Halt.Failed result shelf.old shelf.new }
{
    let judged = read_checked(
        alloc,
        shelf,
        &base.statement,
        case,
        lane,
        bit,
        &mut readers.second,
    );
    let asked = is_refused(&judged);
    let left = LanesLeft {
        statement: &base.statement,
        judged: lane,
        bits: base.first_bits.as_slice(),
    };
    let first = judge_on(alloc, shelf, asked, left, &mut readers.pair);
    let second = of_second(first, judged);
    second
}

/// Reads the lane on the file and in both replies, and checks it once for each bit.
#[tactic(auto, unfolding(crate::specs::Two::two_lane_at))]
fn read_two<S: Shelf>(
    alloc: Global,
    shelf: &mut S,
    base: &Base,
    lane: u32,
    first_bit: bool,
    second_bit: bool,
    readers: &mut TwoReaders,
) -> Result<TwoLane, TwoHalt>
    requires base { IsBase base.now }
    requires first { 1 ≤ lane }
    requires last { lane ≤ base.now.statement.lanes }
    ensures modelled { JudgesOn (S.held shelf.old) (rests_of readers.new) result
        (λ files. two_lane_at base.now.statement lane first_bit second_bit
        (drop lane base.now.first_bits) (rests_of readers.old files)) }
    ensures right { IfOk result (IsTwoLane base.now.statement lane) }
    ensures refuses { IfErr result Refuses }
    ensures shelf { OnlyReads S.held S.Shelf.faults Halt.Failed result shelf.old shelf.new }
{
    let statement = &base.statement;
    let case = of_first(read_case(alloc, shelf, statement, lane, &mut readers.pair.file))?;
    let first = of_first(read_checked(
        alloc,
        shelf,
        statement,
        &case,
        lane,
        first_bit,
        &mut readers.pair.reply,
    ))?;
    let second = read_second(alloc, shelf, base, &case, lane, second_bit, readers)?;
    Ok(TwoLane {
        case,
        first_bit,
        first,
        second_bit,
        second,
    })
}

/// Reads the end of the second reply, where the ends of the file and the first reply stand.
fn read_second_end<S: Shelf>(
    shelf: &mut S,
    standing: bool,
    second: &mut Lines,
) -> Result<(), Halt<Fault>>
    ensures modelled { IfSome (S.held shelf.old) (λ files. IsTrue standing
        → Judges (λ done. (done, rest_of second.new files)) result
        (in_part Part.Reply (end_at (rest_of second.old files)))) }
    ensures idle { IsFalse standing → IsOk result }
    ensures shelf { OnlyReads S.held S.Shelf.faults Halt.Failed result shelf.old shelf.new }
{
    if !standing {
        return Ok(());
    }
    in_part(Part::Reply, second.read_end(shelf))?;
    Ok(())
}

/// Reads the ends of the file, of the first reply and of the second: what is found.
#[tactic(auto, unfolding(crate::specs::Two::ends_found))]
fn read_finding<S: Shelf>(shelf: &mut S, base: &Base, readers: &mut TwoReaders) -> TwoHalt
    ensures modelled { IfSome (S.held shelf.old) (λ files.
        IsFound result (ends_found (accepted_of base.now.first_bits base.now.second_bits) (rests_of readers.old files))) }
    ensures shelf { OnlyReads {T = Unit {0}} S.held S.Shelf.faults Halt.Failed (Err result)
        shelf.old shelf.new }
{
    let accepted = accepted_of(base.first_bits.as_slice(), base.second_bits.as_slice());
    let first = read_ends(shelf, &mut readers.pair);
    let second = read_second_end(shelf, first.is_ok(), &mut readers.second);
    let found = found_by(accepted, first, second);
    found
}

/// The next lane after so many, or what is found.
pub fn next_step<S: Shelf>(
    alloc: Global,
    shelf: &mut S,
    base: &Base,
    given: u32,
    readers: &mut TwoReaders,
) -> Result<TwoLane, TwoHalt>
    requires base { IsBase base.now }
    requires within { given ≤ base.now.statement.lanes }
    ensures modelled { IfSome (S.held shelf.old) (λ files.
        GivesLane (ahead_on base.now given (rests_of readers.old files)) result (ahead_on base.now (given + 1) (rests_of readers.new files))) }
    ensures right { IfOk result (IsTwoLane base.now.statement (given + 1)) }
    ensures more { OnOk result (given < base.now.statement.lanes) }
    ensures all { IfErr result (λ halt. Refuses halt ⊎ (given ≡ base.now.statement.lanes)) }
    ensures shelf { OnlyReads S.held S.Shelf.faults Halt.Failed result shelf.old shelf.new }
{
    if given == base.statement.lanes() {
        let found = read_finding(shelf, base, readers);
        return Err(found);
    }
    let first_bit = base.first_bits.as_slice()[given as usize];
    let second_bit = base.second_bits.as_slice()[given as usize];
    let lane = read_two(
        alloc,
        shelf,
        base,
        given + 1,
        first_bit,
        second_bit,
        readers,
    );
    lane
}

/// Reads the second challenge and the head of the second reply. Where there is a fault of them, the
/// first reply is judged to its end.
fn begin_second<S: Shelf>(
    alloc: Global,
    shelf: &mut S,
    statement: &Statement,
    first_bits: &[bool],
    challenge: &mut Lines,
    readers: &mut TwoReaders,
) -> Result<Seq<bool>, TwoHalt>
    requires { length first_bits.now ≡ statement.now.lanes }
    ensures modelled { JudgesOn (S.held shelf.old) (rest_of readers.new.second) result
        (λ files. of_second (rest_judged statement.now 1 first_bits.now
        (rest_of readers.old.pair.file files) (rest_of readers.old.pair.reply files))
        (attempt_at statement.now.lanes (rest_of challenge.old files)
        (rest_of readers.old.second files))) }
    ensures pair { OnOk result (readers.new.pair ≡ readers.old.pair) }
    ensures bits { IfOk result (λ bits. length bits ≡ statement.now.lanes) }
    ensures refuses { IfErr result Refuses }
    ensures shelf { OnlyReads S.held S.Shelf.faults Halt.Failed result shelf.old shelf.new }
{
    let lanes = statement.lanes();
    let attempt = read_attempt(alloc, shelf, lanes, challenge, &mut readers.second);
    let asked = is_refused(&attempt);
    let left = LanesLeft {
        statement,
        judged: 0,
        bits: first_bits,
    };
    let first = judge_on(alloc, shelf, asked, left, &mut readers.pair);
    let second = of_second(first, attempt);
    second
}

/// Reads both challenges and the heads of both replies, behind a front of which this is the
/// statement.
#[tactic(auto, unfolding(crate::specs::Two::base_behind))]
pub fn begin_lanes<S: Shelf>(
    alloc: Global,
    shelf: &mut S,
    statement: Statement,
    first: &mut Lines,
    second: &mut Lines,
    readers: &mut TwoReaders,
) -> Result<Base, TwoHalt>
    ensures modelled { JudgesOn (S.held shelf.old) (rests_of readers.new) result
        (λ files. base_behind statement (rest_of readers.old.pair.file files)
        (rest_of first.old files) (rest_of readers.old.pair.reply files) (rest_of second.old files)
        (rest_of readers.old.second files)) }
    ensures right { IfOk result IsBase }
    ensures statement { IfOk result (λ base. base.statement ≡ statement) }
    ensures refuses { IfErr result Refuses }
    ensures shelf { OnlyReads S.held S.Shelf.faults Halt.Failed result shelf.old shelf.new }
{
    let lanes = statement.lanes();
    let reply = &mut readers.pair.reply;
    let first_bits = of_first(read_attempt(alloc, shelf, lanes, first, reply))?;
    let bits = first_bits.as_slice();
    let second_bits = begin_second(alloc, shelf, &statement, bits, second, readers)?;
    Ok(Base {
        statement,
        first_bits,
        second_bits,
    })
}
