//! A core: a script with its machines.
ghost use Rattle.std.specs.Prelude.{◌≡◌, ℕ, ◌+◌, ◌<◌, ◌≤◌, [], None, Some, false, is_some, length, OnErr, IfOk, IsTrue};
ghost use Rattle.weave_data.specs.Facts.{AllHold};
ghost use Rattle.program_defs.specs.Limits.{IsWithinLimits};
ghost use Rattle.program_defs.specs.declared.script.Request.{Request};
ghost use Rattle.report_rules.specs.Lookups.{request_at};
ghost use Rattle.report_rules.specs.PrintedOrder.{IsPrintedOrder};
ghost use Rattle.report_rules.specs.RightReport.{replies_clause};
ghost use Rattle.order_witness.specs.Begun.{NonePrecedesItself};
ghost use Rattle.weave_entries.specs.ShardReplay.{arrived_at, kept_of, processed_count};
ghost use Rattle.weave_account.specs.Account.{shard_log, NoneInFlight};
ghost use Rattle.weave_account.specs.Report.{IsReportOfAccount};
ghost use Rattle.step_rules.specs.CoreState.{start_state};
ghost use Rattle.step_rules.specs.IsCore.{IsCore, IsStepOf};
ghost use Rattle.step_rules.specs.Requests.{has_reply};
ghost use Rattle.weaver_core.specs.Cores.{DoesStep};
ghost use Rattle.weaver_core.specs.Splitting.{CanBeJoined, state_of};

use crate::gates::Gates;
use crate::machines::Machines;
use crate::sessions::Clients;
use crate::shards::Shards;
use crate::split::Split;
use crate::stepping::step_in;
use order_witness::order_of;
use program_defs::{Script, Step};
use report_rules::laws::orders_are_of_replies_and_pairs;
use report_rules::{Report, StepAnswer};
use std::alloc::{AllocError, Global};
use std::marker::Model;
use step_rules::laws::steps_keep_the_core;
use weave_account::laws::{account_may_be_ordered, requests_of_a_session_rise};
use weave_data::{Items, Name};

/// The machines of a script, run step by step (Weaver, PVLDB 9(11) 2016).
///
/// Contracts see the script, the logs and the notices. The logs are an account of a run of the script.
#[derive(Drop)]
pub struct Core {
    script: Script,
    machines: Machines,
}

impl Model for Core {
    ghost use Rattle.weaver_core.specs.Cores.{CoreView, AreOf};
    ghost use Rattle.weaver_core.specs.Splitting.{AreAllByLog};

    ghost Value = { CoreView };

    ghost view = { λ c. record { script = c.script; state = c.machines.state } };

    ghost invariant = { λ c. AreOf c.script c.machines
        × AreAllByLog c.script c.machines.state.account c.machines.values };
}

impl Core {
    /// The core of a script, before its first step. The one error is out of memory.
    pub fn start(alloc: Global, script: Script) -> Result<Core, AllocError>
        requires { IsWithinLimits script }
        ensures script { IfOk result (λ core. core.script ≡ script) }
        ensures state { IfOk result (λ core. core.state ≡ start_state script) }
    {
        let machines = Machines::new(alloc, &script)?;
        Ok(Core { script, machines })
    }

    /// Does a step: its answer, and the logs and notices that it leaves, are those of the definition of steps.
    ///
    /// It costs what the call of its machine costs, and look-ups. The one error is out of memory, and then the core is
    /// as before.
    pub fn step(&mut self, alloc: Global, step: &Step) -> Result<StepAnswer, AllocError>
        requires there { IsStepOf self.old.script step.now }
        ensures done { IfOk result (λ answer. DoesStep step.now self.old self.new answer) }
        ensures refused { OnErr result (self.new ≡ self.old) }
    {
        steps_keep_the_core();
        step_in(alloc, &self.script, &mut self.machines, step)
    }

    /// The script that it was started with.
    pub fn script(&self) -> &Script
        ensures script { result.now ≡ self.now.script }
        ensures limits { IsWithinLimits self.now.script }
        ensures core { IsCore self.now.script self.now.state }
    {
        &self.script
    }

    /// Whether no transaction is in flight. It costs a look at each gatekeeper.
    pub fn none_in_flight(&self) -> bool
        ensures landed { IsTrue result → NoneInFlight self.now.state.account }
        ensures flies { NoneInFlight self.now.state.account → IsTrue result }
    {
        self.machines.none_in_flight()
    }

    /// Takes the core apart: its script, its machines, its sessions and its notices. It takes no memory.
    pub fn split(self) -> Split
        requires landed { NoneInFlight self.state.account }
        ensures script { result.script ≡ self.script }
        ensures state { state_of result ≡ self.state }
        ensures joined { CanBeJoined result }
    {
        let Core { script, machines } = self;
        machines.split(script)
    }

    /// Joins parts to a core. It takes no memory.
    pub fn join(split: Split) -> Core
        requires { CanBeJoined split }
        ensures script { result.script ≡ split.script }
        ensures state { result.state ≡ state_of split }
    {
        requests_of_a_session_rise();
        let Split {
            script,
            gates,
            store,
            oracle,
            shards,
            clients,
            notices,
        } = split;
        let gates = Gates::of(script.shards, gates);
        let shards = Shards::of(script.gates, shards);
        let clients = Clients::of(clients);
        let machines = Machines::of(gates, store, oracle, shards, clients, notices);
        Core { script, machines }
    }

    /// How many notices there are. The last one has this number.
    pub fn notices(&self) -> u64
        ensures { result ≡ length self.now.state.notices }
    {
        self.machines.notices()
    }

    /// The first request without a reply, in the script's order; the number of requests if each has one.
    ///
    /// It costs a look at each of the 64 sessions.
    pub fn first_unanswered(&self) -> u32
        ensures replied { (r : ℕ) (request : Request) → r < result → request_at self.now.script r ≡ Some request
            → IsTrue (has_reply self.now.state.account r request) }
        ensures unanswered { (request : Request) → request_at self.now.script result ≡ Some request
            → has_reply self.now.state.account result request ≡ false }
        ensures within { result ≤ length self.now.script.requests }
    {
        self.machines.first_unanswered(&self.script)
    }

    /// The number of the message that the shard processes next on the gatekeeper's channel. Those before it have
    /// arrived there.
    pub fn next_message(&self, shard: u32, gate: u32) -> u64
        requires shard { shard < self.now.script.shards }
        requires gate { gate < self.now.script.gates }
        ensures number { result ≡ processed_count gate (shard_log self.now.state.account shard) + 1 }
        ensures arrived { (n : ℕ) → 1 ≤ n → n < result
            → IsTrue (is_some (arrived_at gate n (shard_log self.now.state.account shard))) }
    {
        self.machines.next_message(&self.script, shard, gate)
    }

    /// How many versions of a vertex the shard keeps: those that no collection has dropped.
    pub fn kept(&self, shard: u32, v: Name) -> usize
        requires { shard < self.now.script.shards }
        ensures { result ≡ kept_of v (shard_log self.now.state.account shard) }
    {
        self.machines.kept(&self.script, shard, v)
    }

    /// The report of the account, without answers of steps. It costs a look at each entry of the logs of sessions,
    /// oracle and shards, its own size, and the printed order. The one error is out of memory.
    pub fn report(&self, alloc: Global) -> Result<Report, AllocError>
        ensures report { IfOk result (IsReportOfAccount self.now.script self.now.state.account) }
        ensures answers { IfOk result (λ report. report.answers ≡ []) }
    {
        account_may_be_ordered();
        orders_are_of_replies_and_pairs();
        let unordered = self.machines.unordered(alloc, &self.script)?;
        with_order(alloc, &self.script, unordered)
    }
}

// The report with its printed order.
fn with_order(alloc: Global, script: &Script, report: Report) -> Result<Report, AllocError>
    requires replies { AllHold (replies_clause script.now report) }
    requires acyclic { NonePrecedesItself report }
    ensures order { IfOk result (λ ordered. IsPrintedOrder report ordered.order) }
    ensures replies { IfOk result (λ ordered. ordered.replies ≡ report.replies) }
    ensures pairs { IfOk result (λ ordered. ordered.pairs ≡ report.pairs) }
    ensures answers { IfOk result (λ ordered. ordered.answers ≡ report.answers) }
{
    let mut ordered = report;
    let order = order_of(alloc, script, &ordered)?;
    ordered.order = Items::from_vec(order);
    Ok(ordered)
}
