//! What holds of all scripts and ceremonies.

ghost use Rattle.std.specs.Prelude.{◌≡◌, ◌≢◌, ◌⊎◌, ℕ, List, [], ◌∷◌, map, Contains, Option, Some, None, Result, Ok, IfSome, IsSomeAnd};
ghost use Rattle.std.specs.List.{AllByRecursion};
ghost use Rattle.vk_io.specs.declared.errors.OutsideErr.{OutsideErr};
ghost use Rattle.vk_lines.specs.Common.{FaultsAllButTexts, Rest, fault_line};
ghost use Rattle.vk_keeper.specs.Ledgers.{Ledger, IsLedger};
ghost use Rattle.vk_house.specs.Commands.{HouseCommand};
ghost use Rattle.vk_words.specs.Common.{House, HouseWords, command_words};
ghost use Rattle.vk_effect.specs.Effects.{Outside, outside, stores};
ghost use Rattle.vk_effect.specs.Ends.{Done, Ends};
ghost use Rattle.vk_auctioneer.specs.Common.{Files, KeepsAnswers};
ghost use Rattle.vk_auctioneer.specs.Effects.{house_effect};
ghost use Rattle.vk_auctioneer.specs.Laws.{AreHouseWords};
ghost use Rattle.vk_ceremony.specs.Acts.{AreActs, HouseAct, IsAct, IsStepOf, Performs, PerformsAll, PerformsSome};
ghost use Rattle.vk_ceremony.specs.Ceremonies.{EndsAll, ceremony_effect, ceremony_on};
ghost use Rattle.vk_ceremony.specs.Forms.{AreOrders, SaysOrders, fault_by, script_table, script_text};
ghost use Rattle.vk_ceremony.specs.Runs.{IsRun, asked_in, orders_in};
ghost use Rattle.vk_ceremony.specs.Scripts.{heading_at};

/// A law: where a file is no script of that name, reading stops at its fault line.
pub fn reading_a_script_stops_at_the_fault_line()
    ensures { (script bytes : List ℕ)
        → fault_line (script_table script) bytes
        ≡ fault_by script (heading_at (record { taken = 0; left = bytes })) }
{}

/// A law: a file has no fault line exactly where it is the text of commands that may stand in a
/// script of that name.
pub fn all_but_scripts_have_a_fault_line()
    ensures { (script : List ℕ)
        → FaultsAllButTexts (AreOrders script) script_text (script_table script) }
{}

/// A law: the text of such commands says just these, in their order.
pub fn a_script_says_the_commands_of_its_text()
    ensures { (script : List ℕ) (orders : List (List (List ℕ))) (start : Rest)
        → AreOrders script orders → start.left ≡ script_text orders
        → SaysOrders script orders start }
{}

/// A law: over modelled files and a modelled ledger the whole ceremony is known. What its commands
/// ask the house, in their order in the script and as far as they are reached, and what the house
/// replies are calls of it one after another.
pub fn a_ceremony_is_a_run_of_the_house()
    ensures { (files : Files) (ledger : Ledger) (script : List ℕ)
        → IsSomeAnd (ceremony_on (Some files) (Some ledger) script)
        (λ whole. IsRun (orders_in files script) files ledger whole.commands) }
{}

/// A law: a ceremony that came to its end left what one command leaves whose text and files are
/// those of its commands, one after another, and its own line.
pub fn a_ceremony_that_was_held_is_one_command()
    ensures { (files : Option Files) (ledger : Option Ledger) (script : List ℕ)
        (taken : Option (List ℕ)) (status : ℕ) (new : Outside)
        → IfSome (ceremony_on files ledger script)
        (λ whole. EndsAll (Ok status) whole (outside (stores files ledger) taken) new)
        → IfSome (ceremony_effect files ledger script)
        (λ effect. Done status effect (outside (stores files ledger) taken) new) }
{}

/// A law: whether a ceremony came to its end or was stopped, the first commands of its script were
/// done one after another, each by its effect on what the one before left. After them nothing more
/// was left, or the next one was stopped. At its end nothing was stopped, and what the commands
/// said was printed and then the ceremony's own line. A single command is done likewise.
pub fn a_ceremony_is_done_command_by_command()
    ensures some { (files : Files) (ledger : Ledger) (script : List ℕ) (taken : Option (List ℕ))
        (result : Result ℕ OutsideErr) (new : Outside)
        → IfSome (ceremony_on (Some files) (Some ledger) script)
        (λ whole. EndsAll result whole (outside (stores (Some files) (Some ledger)) taken) new)
        → PerformsSome (orders_in files script) files ledger new.files new.ledger }
    ensures all { (files : Files) (ledger : Ledger) (script : List ℕ) (taken : Option (List ℕ))
        (status : ℕ) (new : Outside)
        → IsSomeAnd (ceremony_on (Some files) (Some ledger) script)
        (λ whole. EndsAll (Ok status) whole (outside (stores (Some files) (Some ledger)) taken) new
        → PerformsAll (orders_in files script) files ledger whole.closing.text taken new) }
    ensures single { (files : Files) (ledger : Ledger) (order : HouseWords)
        (taken : Option (List ℕ)) (result : Result ℕ OutsideErr) (new : Outside)
        → IfSome (house_effect (Some files) (Some ledger) order)
        (λ effect. Ends result effect (outside (stores (Some files) (Some ledger)) taken) new)
        → PerformsSome (order ∷ []) files ledger new.files new.ledger }
{}

/// A law: a command that was done is the house's step of what it asked, and says its reply, with
/// status 0, or 8 where the house refused. Where it asked nothing, or its status isn't 0, nothing
/// changed.
pub fn an_act_is_a_step_of_the_house()
    ensures step { (act : HouseAct) (command : HouseCommand) → IsAct act
        → asked_in act.files act.order ≡ Some command → IsStepOf command act }
    ensures status { (act : HouseAct) (command : HouseCommand) → IsAct act
        → asked_in act.files act.order ≡ Some command
        → (act.said.status ≡ 0) ⊎ (act.said.status ≡ 8) }
    ensures same { (act : HouseAct) → IsAct act → (asked_in act.files act.order ≡ None)
        ⊎ (act.said.status ≢ 0)
        → (act.left ≡ act.files) × (act.kept ≡ act.ledger) }
{}

/// A law of commands one after another, also where the last was stopped: a ledger stays one, where
/// the house may be asked by their words, and each of them finds one. By the words of every script
/// and every command line it may.
pub fn a_ledger_stays_one_through_commands()
    ensures ledger { (orders : List HouseWords) (files : Files) (ledger : Ledger)
        (acts : List HouseAct) (stop : Option HouseAct) (left : Files) (kept : Ledger)
        → AllByRecursion AreHouseWords orders → Performs orders files ledger acts stop left kept
        → IsLedger ledger → IsLedger kept }
    ensures each { (acts : List HouseAct) (files : Files) (ledger : Ledger) (left : Files)
        (kept : Ledger) (act : HouseAct)
        → AllByRecursion AreHouseWords (map (λ (one : HouseAct). one.order) acts)
        → AreActs acts files ledger left kept → Contains acts act
        → IsLedger ledger → IsLedger act.ledger }
    ensures script { (files : Files) (script : List ℕ)
        → AllByRecursion AreHouseWords (orders_in files script) }
    ensures words { (words : List (List ℕ)) (order : HouseWords)
        → command_words words ≡ Some (House order) → AreHouseWords order }
{}

/// A law of the same: an auction that was answered is the same after, and one that was proved has
/// its seed and its seals. So it is from the first ledger to the one that a command finds, and from
/// the one that it leaves to the last.
pub fn answers_stay_through_commands()
    ensures all { (orders : List HouseWords) (files : Files) (ledger : Ledger)
        (acts : List HouseAct) (stop : Option HouseAct) (left : Files) (kept : Ledger)
        → Performs orders files ledger acts stop left kept → KeepsAnswers ledger kept }
    ensures each { (acts : List HouseAct) (files : Files) (ledger : Ledger) (left : Files)
        (kept : Ledger) (act : HouseAct)
        → AreActs acts files ledger left kept → Contains acts act → KeepsAnswers ledger act.ledger
        × KeepsAnswers act.kept kept }
{}
