//! The machines of a core, and what each atomic step does with them.
ghost use Rattle.std.specs.Prelude.{◌≡◌, ◌↔◌, ℕ, ◌+◌, ◌<◌, ◌≤◌, ◌^◌, [], Contains, None, Some, false, is_some, length, map, replicate, slice_get, OnErr, IfOk, IsTrue};
ghost use Rattle.weave_data.specs.Limits.{most_gates, most_sessions};
ghost use Rattle.vector_stamp.specs.declared.clock.Stamp.{Stamp};
ghost use Rattle.program_defs.specs.Limits.{IsWithinLimits};
ghost use Rattle.program_defs.specs.declared.script.Request.{Request};
ghost use Rattle.program_defs.specs.declared.script.Step.TheVariants as step;
ghost use Rattle.report_rules.specs.Lookups.{request_at};
ghost use Rattle.weave_entries.specs.OracleReplay.{settled_entry};
ghost use Rattle.weave_entries.specs.ShardReplay.{arrived_at, kept_of, processed_count};
ghost use Rattle.weave_entries.specs.declared.oracle_log.OracleEntry.{OracleEntry};
ghost use Rattle.weave_account.specs.Account.{session_log, shard_log, NoneInFlight};
ghost use Rattle.weave_account.specs.Report.{MatchesAccount};
ghost use Rattle.step_rules.specs.CoreState.{start_state};
ghost use Rattle.weaver_core.specs.Cores.{AreOf, CanBeGiven, MachinesDo, RepliesToChange, machines_of};
ghost use Rattle.weaver_core.specs.Sessions.{AreNumbered, HaveRisingReplies, is_open_in, no_values, values_at, values_of, with_running};
ghost use Rattle.step_rules.specs.Requests.{has_reply, last_begun};
ghost use Rattle.weaver_core.specs.Reporting.{AreOfHomes, AreRequestsReplies, all_pairs_found, request_with};
ghost use Rattle.weaver_core.specs.Marks.{all_visits, mark_of, was_asked};
ghost use Rattle.weaver_core.specs.Splitting.{AreAllByLog, ArePartsFor, RepliesToProgram, state_of};
ghost use Rattle.weaver_core.specs.Walks.{IsLook, IsOtherStep, IsRunningIn};

use crate::beginning::begin_in;
use crate::clocks::{hear_in, raise_in};
use crate::finishing::finish_in;
use crate::gates::Gates;
use crate::giving_replies::reply_in;
use crate::judging::judge_in;
use crate::messages::{apply_in, deliver_in, nop_in};
use crate::pairs::pairs_of;
use crate::replies::replies_of;
use crate::restarting::restart_in;
use crate::sending::send_in;
use crate::sessions::Clients;
use crate::shards::Shards;
use crate::split::Split;
use crate::staying::what_stays;
use crate::visiting::visit_next;
use crate::walks::Running;
use backing_store::Store;
use backing_store::laws::what_is_asked_is_kept;
use order_graph::laws::ends_are_of_pairs;
use program_defs::laws::order_of_reads_is_free;
use program_defs::{Request, Script, Step};
use report_rules::{Report, StepAnswer};
use std::alloc::{AllocError, Global};
use std::marker::Model;
use step_rules::laws::start_is_a_core;
use timeline_oracle::Oracle;
use vector_stamp::laws::{equality_is_decided, parts_and_unions_are_coherent};
use vector_stamp::{Clock, Stamp};
use weave_account::laws::{
    begun_stamps_are_coherent, clocks_are_known, collections_leave_what_programs_see, heads_pass,
    judgements_are_of_requests, messages_can_be_taken, placed_pairs_are_the_pairs,
    requests_end_or_go_on, requests_of_a_session_rise, sessions_have_what_is_open,
    stamps_are_begun, updates_are_commits,
};
use weave_data::{Items, Name};
use weave_entries::laws::{
    begun_and_replied_are_decided, sessions_go_in_turn, the_shard_replay_goes_on, updates_go_on,
    what_has_not_ended_goes_on,
};

/// The machines of a script. Contracts see what they are made for, and their logs and notices.
#[derive(Drop)]
pub(crate) struct Machines {
    gates: Gates,
    store: Store,
    oracle: Oracle,
    pub(crate) shards: Shards,
    clients: Clients,
    // The notices, in the order of the `say` steps: at most one clock for each step.
    notices: Vec<Clock>,
}

impl Model for Machines {
    ghost use Rattle.weaver_core.specs.Cores.{MachinesView, machines_of};

    ghost Value = { MachinesView };

    ghost view = { λ m. machines_of m.gates m.store m.oracle m.shards m.clients m.notices.items };
}

impl Machines {
    /// The machines of a script, before the first step.
    pub(crate) fn new(alloc: Global, script: &Script) -> Result<Machines, AllocError>
        requires { IsWithinLimits script.now }
        ensures are { IfOk result (λ made. AreOf script.now made) }
        ensures start { IfOk result (λ made. made.state ≡ start_state script.now) }
        ensures values { IfOk result (λ made. made.values ≡ replicate most_sessions no_values) }
    {
        start_is_a_core();
        let gates = Gates::new(alloc, script.gates, script.shards)?;
        let store = Store::new(alloc);
        let oracle = Oracle::new(alloc);
        let shards = Shards::new(alloc, script.shards, script.gates)?;
        let clients = Clients::new(alloc, script)?;
        let notices = Vec::new(alloc);
        Ok(Machines {
            gates,
            store,
            oracle,
            shards,
            clients,
            notices,
        })
    }

    /// The machines of these parts. It takes no memory.
    pub(crate) fn of(
        gates: Gates,
        store: Store,
        oracle: Oracle,
        shards: Shards,
        clients: Clients,
        notices: Vec<Clock>,
    ) -> Machines
        ensures { result ≡ machines_of gates store oracle shards clients notices.items }
    {
        Machines {
            gates,
            store,
            oracle,
            shards,
            clients,
            notices,
        }
    }

    /// The machines, each by itself, with the script that they are made for. It takes no memory.
    pub(crate) fn split(self, script: Script) -> Split
        requires { AreOf script self }
        ensures script { result.script ≡ script }
        ensures state { state_of result ≡ self.state }
        ensures parts { ArePartsFor script result }
        ensures numbered { AreNumbered result.clients.items }
        ensures values { map values_of result.clients.items ≡ self.values }
    {
        Split {
            script,
            gates: self.gates.into_gates(),
            store: self.store,
            oracle: self.oracle,
            shards: self.shards.into_shards(),
            clients: self.clients.into_clients(),
            notices: self.notices,
        }
    }

    /// Does a step. The one error is out of memory.
    pub(crate) fn step(
        &mut self,
        alloc: Global,
        script: &Script,
        step: &Step,
    ) -> Result<StepAnswer, AllocError>
        requires { CanBeGiven script.now self.old step.now }
        ensures done { IfOk result (λ answer. MachinesDo script.now step.now self.old self.new answer) }
        ensures refused { OnErr result (self.new ≡ self.old) }
        ensures values { IsOtherStep step.now → self.new.values ≡ self.old.values }
    {
        match *step {
            Step::Begin { request } => self.begin(alloc, script, request),
            Step::Judge { gate } => self.judge(alloc, script, gate),
            Step::Send { gate } => self.send(alloc, script, gate),
            Step::Say { gate } => self.say(script, gate),
            Step::Hear { gate, notice } => self.hear(alloc, script, gate, notice),
            Step::Reply { request } => self.reply(alloc, script, request),
            Step::Epoch { gate, epoch } => self.raise(alloc, script, gate, epoch),
            Step::Restart { gate, epoch } => self.restart(alloc, script, gate, epoch),
            Step::Nop { gate, shard } => self.nop(alloc, script, gate, shard),
            Step::Deliver {
                gate,
                shard,
                number,
            } => self.deliver(alloc, script, gate, shard, number),
            Step::Apply { shard, gate } => self.apply(alloc, script, shard, gate),
            Step::Collect { shard } => self.collect(script, shard),
            Step::Visit { .. } => unreachable!(),
        }
    }

    /// `begin R`: the request is stamped at its gatekeeper, if it is its session's next one.
    pub(crate) fn begin(
        &mut self,
        alloc: Global,
        script: &Script,
        request: u32,
    ) -> Result<StepAnswer, AllocError>
        requires { CanBeGiven script.now self.old (step.Begin request) }
        ensures done { IfOk result (λ answer. MachinesDo script.now (step.Begin request) self.old self.new answer) }
        ensures refused { OnErr result (self.new ≡ self.old) }
        ensures values { self.new.values ≡ self.old.values }
    {
        clocks_are_known();
        requests_of_a_session_rise();
        stamps_are_begun();
        begin_in(alloc, &mut self.gates, &mut self.clients, script, request)
    }

    // `judge G`: the store judges the flight, and the oracle is asked in the same step.
    fn judge(&mut self, alloc: Global, script: &Script, gate: u32) -> Result<StepAnswer, AllocError>
        requires { CanBeGiven script.now self.old (step.Judge gate) }
        ensures done { IfOk result (λ answer. MachinesDo script.now (step.Judge gate) self.old self.new answer) }
        ensures refused { OnErr result (self.new ≡ self.old) }
        ensures values { self.new.values ≡ self.old.values }
    {
        begun_stamps_are_coherent();
        judgements_are_of_requests();
        requests_end_or_go_on();
        stamps_are_begun();
        what_has_not_ended_goes_on();
        parts_and_unions_are_coherent();
        what_is_asked_is_kept();
        ends_are_of_pairs();
        judge_in(
            alloc,
            &self.gates,
            &mut self.store,
            &mut self.oracle,
            script,
            gate,
        )
    }

    // `send G`: the messages of the flight go out, by its verdict, and the flight ends.
    fn send(&mut self, alloc: Global, script: &Script, gate: u32) -> Result<StepAnswer, AllocError>
        requires { CanBeGiven script.now self.old (step.Send gate) }
        ensures done { IfOk result (λ answer. MachinesDo script.now (step.Send gate) self.old self.new answer) }
        ensures refused { OnErr result (self.new ≡ self.old) }
        ensures values { self.new.values ≡ self.old.values }
    {
        judgements_are_of_requests();
        let _ = script;
        send_in(alloc, &mut self.gates, &self.store, gate)
    }

    // `say G`: the clock is the next notice.
    fn say(&mut self, script: &Script, gate: u32) -> Result<StepAnswer, AllocError>
        requires { CanBeGiven script.now self.old (step.Say gate) }
        ensures done { IfOk result (λ answer. MachinesDo script.now (step.Say gate) self.old self.new answer) }
        ensures refused { OnErr result (self.new ≡ self.old) }
        ensures values { self.new.values ≡ self.old.values }
    {
        let _ = script;
        self.notices.reserve(1)?;
        let clock = self.gates.say(gate);
        self.notices.push_reserved(clock);
        Ok(StepAnswer::Ok)
    }

    // `hear G K`: notice K is heard.
    fn hear(
        &mut self,
        alloc: Global,
        script: &Script,
        gate: u32,
        notice: u64,
    ) -> Result<StepAnswer, AllocError>
        requires { CanBeGiven script.now self.old (step.Hear gate notice) }
        ensures done { IfOk result (λ answer. MachinesDo script.now (step.Hear gate notice) self.old self.new answer) }
        ensures refused { OnErr result (self.new ≡ self.old) }
        ensures values { self.new.values ≡ self.old.values }
    {
        let _ = script;
        hear_in(
            alloc,
            &mut self.gates,
            self.notices.as_slice(),
            gate,
            notice,
        )
    }

    /// `reply R` of a transaction: the session has the reply, if it was sent.
    pub(crate) fn reply(
        &mut self,
        alloc: Global,
        script: &Script,
        request: u32,
    ) -> Result<StepAnswer, AllocError>
        requires { CanBeGiven script.now self.old (step.Reply request) }
        ensures done { IfOk result (λ answer. MachinesDo script.now (step.Reply request) self.old self.new answer) }
        ensures refused { OnErr result (self.new ≡ self.old) }
        ensures values { IfOk result (RepliesToChange script.now request self.old self.new) }
    {
        requests_end_or_go_on();
        requests_of_a_session_rise();
        reply_in(
            alloc,
            &self.gates,
            &self.store,
            &mut self.clients,
            script,
            request,
        )
    }

    // `epoch G E`: the gatekeeper is in that epoch, if it is above its own.
    fn raise(
        &mut self,
        alloc: Global,
        script: &Script,
        gate: u32,
        epoch: u64,
    ) -> Result<StepAnswer, AllocError>
        requires { CanBeGiven script.now self.old (step.Epoch gate epoch) }
        ensures done { IfOk result (λ answer. MachinesDo script.now (step.Epoch gate epoch) self.old self.new answer) }
        ensures refused { OnErr result (self.new ≡ self.old) }
        ensures values { self.new.values ≡ self.old.values }
    {
        let _ = script;
        raise_in(alloc, &mut self.gates, gate, epoch)
    }

    // `restart G E`: the gatekeeper stops, and returns in that epoch, if that is above its own. What it had begun and
    // not ended is known by the sessions, which hand it in again.
    fn restart(
        &mut self,
        alloc: Global,
        script: &Script,
        gate: u32,
        epoch: u64,
    ) -> Result<StepAnswer, AllocError>
        requires { CanBeGiven script.now self.old (step.Restart gate epoch) }
        ensures done { IfOk result (λ answer.
            MachinesDo script.now (step.Restart gate epoch) self.old self.new answer) }
        ensures refused { OnErr result (self.new ≡ self.old) }
        ensures values { self.new.values ≡ self.old.values }
    {
        sessions_have_what_is_open();
        what_stays();
        restart_in(
            alloc,
            &mut self.gates,
            &self.clients,
            script.requests.as_slice(),
            gate,
            epoch,
        )
    }

    // `nop G S`: an empty message goes out, unless a transaction is in flight.
    fn nop(
        &mut self,
        alloc: Global,
        script: &Script,
        gate: u32,
        shard: u32,
    ) -> Result<StepAnswer, AllocError>
        requires { CanBeGiven script.now self.old (step.Nop gate shard) }
        ensures done { IfOk result (λ answer. MachinesDo script.now (step.Nop gate shard) self.old self.new answer) }
        ensures refused { OnErr result (self.new ≡ self.old) }
        ensures values { self.new.values ≡ self.old.values }
    {
        let _ = script;
        nop_in(alloc, &mut self.gates, gate, shard)
    }

    // `deliver G S N`: the message arrives as it was sent, if it was sent. That its shard can take it is known.
    fn deliver(
        &mut self,
        alloc: Global,
        script: &Script,
        gate: u32,
        shard: u32,
        number: u64,
    ) -> Result<StepAnswer, AllocError>
        requires { CanBeGiven script.now self.old (step.Deliver gate shard number) }
        ensures done { IfOk result (λ answer.
            MachinesDo script.now (step.Deliver gate shard number) self.old self.new answer) }
        ensures refused { OnErr result (self.new ≡ self.old) }
        ensures values { self.new.values ≡ self.old.values }
    {
        messages_can_be_taken();
        let _ = script;
        // No count of a message is above the number of commits, and that has 63 bits.
        let _commits = self.store.commits();
        deliver_in(alloc, &self.gates, &mut self.shards, gate, shard, number)
    }

    // `apply S G`: the head is processed, unless it waits. That it passes if its counts agree is known.
    fn apply(
        &mut self,
        alloc: Global,
        script: &Script,
        shard: u32,
        gate: u32,
    ) -> Result<StepAnswer, AllocError>
        requires { CanBeGiven script.now self.old (step.Apply shard gate) }
        ensures done { IfOk result (λ answer. MachinesDo script.now (step.Apply shard gate) self.old self.new answer) }
        ensures refused { OnErr result (self.new ≡ self.old) }
        ensures values { self.new.values ≡ self.old.values }
    {
        heads_pass();
        let _ = script;
        apply_in(alloc, &mut self.shards, shard, gate)
    }

    // `collect S`: the shard drops the versions that are older than its bound.
    fn collect(&mut self, script: &Script, shard: u32) -> Result<StepAnswer, AllocError>
        requires { CanBeGiven script.now self.old (step.Collect shard) }
        ensures done { IfOk result (λ answer. MachinesDo script.now (step.Collect shard) self.old self.new answer) }
        ensures refused { OnErr result (self.new ≡ self.old) }
        ensures values { self.new.values ≡ self.old.values }
    {
        let _ = script;
        self.shards.collect(shard)?;
        Ok(StepAnswer::Ok)
    }

    /// `visit R` of a running program: it reads its next vertex, if its shard is ready.
    pub(crate) fn visit(
        &mut self,
        alloc: Global,
        script: &Script,
        request: u32,
        running: &mut Running,
    ) -> Result<StepAnswer, AllocError>
        requires are { AreOf script.now self.old }
        requires runs { IsRunningIn script.now self.old.state.account request running.old }
        ensures done { IfOk result (λ answer. MachinesDo script.now (step.Visit request) self.old self.new answer) }
        ensures refused { OnErr result (self.new ≡ self.old) }
        ensures values { self.new.values ≡ self.old.values }
        ensures runs { IsRunningIn script.now self.new.state.account request running.new }
        ensures same { running.new.stamp ≡ running.old.stamp }
    {
        begun_stamps_are_coherent();
        collections_leave_what_programs_see();
        ends_are_of_pairs();
        judgements_are_of_requests();
        order_of_reads_is_free();
        parts_and_unions_are_coherent();
        requests_end_or_go_on();
        stamps_are_begun();
        the_shard_replay_goes_on();
        updates_are_commits();
        updates_go_on();
        what_has_not_ended_goes_on();
        what_stays();
        let _ = request;
        visit_next(
            alloc,
            &mut self.shards,
            &mut self.oracle,
            script.shards,
            running,
        )
    }

    /// `reply R` of a program: it is finished at its gatekeeper, and the session has the reply.
    pub(crate) fn finish(
        &mut self,
        alloc: Global,
        script: &Script,
        request: u32,
    ) -> Result<StepAnswer, AllocError>
        requires are { AreOf script.now self.old }
        requires look { IsLook script.now request }
        requires values { AreAllByLog script.now self.old.state.account self.old.values }
        ensures done { IfOk result (λ answer. MachinesDo script.now (step.Reply request) self.old self.new answer) }
        ensures refused { OnErr result (self.new ≡ self.old) }
        ensures values { IfOk result (RepliesToProgram script.now request self.old self.new) }
    {
        begun_and_replied_are_decided();
        order_of_reads_is_free();
        requests_end_or_go_on();
        requests_of_a_session_rise();
        sessions_go_in_turn();
        what_has_not_ended_goes_on();
        what_stays();
        let asked = &script.requests.as_slice()[request as usize];
        finish_in(alloc, &mut self.gates, &mut self.clients, request, asked)
    }

    /// Whether a request has begun and has no reply.
    pub(crate) fn is_open(&self, script: &Script, request: u32) -> bool
        requires are { AreOf script.now self.now }
        requires there { request < length script.now.requests }
        ensures { (asked : Request) → request_at script.now request ≡ Some asked
            → result ≡ is_open_in request (session_log self.now.state.account asked.session) }
    {
        requests_of_a_session_rise();
        let asked = &script.requests.as_slice()[request as usize];
        self.clients.is_open(asked.session, request)
    }

    /// The program that is running in a session, if there is one, is taken out.
    pub(crate) fn take(&mut self, session: u32) -> Option<Running>
        requires { session < length self.old.state.account.sessions }
        ensures taken { result ≡ (values_at self.old.values session).running }
        ensures left { self.new ≡ record self.old { values = with_running self.old.values session None } }
    {
        self.clients.take(session)
    }

    /// This program is running in a session, or none.
    pub(crate) fn put(&mut self, session: u32, running: Option<Running>)
        requires { session < length self.old.state.account.sessions }
        ensures { self.new ≡ record self.old { values = with_running self.old.values session running } }
    {
        self.clients.put(session, running);
    }

    /// The first request without a reply, in the script's order; the number of requests if each has one.
    pub(crate) fn first_unanswered(&self, script: &Script) -> u32
        requires are { AreOf script.now self.now }
        ensures replied { (r : ℕ) (request : Request) → r < result → request_at script.now r ≡ Some request
            → IsTrue (has_reply self.now.state.account r request) }
        ensures unanswered { (request : Request) → request_at script.now result ≡ Some request
            → has_reply self.now.state.account result request ≡ false }
        ensures within { result ≤ length script.now.requests }
    {
        begun_and_replied_are_decided();
        requests_of_a_session_rise();
        sessions_go_in_turn();
        let requests = script.requests.as_slice();
        self.clients.first_unanswered(requests.len() as u32)
    }

    /// Whether no transaction is in flight.
    pub(crate) fn none_in_flight(&self) -> bool
        ensures { IsTrue result ↔ NoneInFlight self.now.state.account }
    {
        self.gates.none_in_flight()
    }

    /// The number of the message that a shard processes next on a gatekeeper's channel. Those before it have arrived.
    pub(crate) fn next_message(&self, script: &Script, shard: u32, gate: u32) -> u64
        requires are { AreOf script.now self.now }
        requires shard { shard < script.now.shards }
        requires gate { gate < script.now.gates }
        ensures number { result ≡ processed_count gate (shard_log self.now.state.account shard) + 1 }
        ensures arrived { (n : ℕ) → 1 ≤ n → n < result
            → IsTrue (is_some (arrived_at gate n (shard_log self.now.state.account shard))) }
    {
        let _ = script;
        self.shards.next_number(shard, gate)
    }

    /// How many versions of a vertex a shard keeps.
    pub(crate) fn kept(&self, script: &Script, shard: u32, v: Name) -> usize
        requires are { AreOf script.now self.now }
        requires shard { shard < script.now.shards }
        ensures { result ≡ kept_of v (shard_log self.now.state.account shard) }
    {
        let _ = script;
        self.shards.kept(shard, v)
    }

    /// The stamp that was begun last in a session.
    pub(crate) fn last(&self, session: u32) -> Option<Stamp>
        requires { session < length self.now.state.account.sessions }
        ensures { result ≡ last_begun self.now.state.account session }
    {
        self.clients.last(session)
    }

    /// The report of the account except for its order, and without answers of steps. The one error is out of memory.
    pub(crate) fn unordered(&self, alloc: Global, script: &Script) -> Result<Report, AllocError>
        requires are { AreOf script.now self.now }
        requires programs { AreAllByLog script.now self.now.state.account self.now.values }
        ensures matches { IfOk result (MatchesAccount script.now self.now.state.account) }
        ensures answers { IfOk result (λ report. report.answers ≡ []) }
    {
        begun_and_replied_are_decided();
        begun_stamps_are_coherent();
        equality_is_decided();
        judgements_are_of_requests();
        placed_pairs_are_the_pairs();
        sessions_go_in_turn();
        stamps_are_begun();
        updates_are_commits();
        what_stays();
        let requests = script.requests.as_slice();
        let stamps = self.clients.stamps(alloc, requests.len())?;
        report_of(
            alloc,
            requests,
            stamps.as_slice(),
            &self.clients,
            &self.store,
            &self.oracle,
            &self.shards,
        )
    }

    /// How many notices there are.
    pub(crate) fn notices(&self) -> u64
        ensures { result ≡ length self.now.state.notices }
    {
        self.notices.len() as u64
    }
}

// Replies and pairs, by the stamps, by the sessions' replies, and by the logs of store, oracle and shards.
fn report_of(
    alloc: Global,
    requests: &[Request],
    stamps: &[Option<Stamp>],
    clients: &Clients,
    store: &Store,
    oracle: &Oracle,
    shards: &Shards,
) -> Result<Report, AllocError>
    requires few { length requests.now < 2 ^ 32 }
    requires many { length stamps.now ≡ length requests.now }
    requires sessions { (r : ℕ) (request : Request) → slice_get requests.now r ≡ Some request
        → request.session < length clients.now.logs }
    requires rising { HaveRisingReplies clients.now.values }
    requires begun { (stamp : Stamp) → Contains stamps.now (Some stamp) → stamp.home < most_gates }
    requires settled { (entry : OracleEntry) → Contains oracle.now entry → AreOfHomes (settled_entry entry) }
    ensures replies { IfOk result (λ report. AreRequestsReplies store.now clients.now.values stamps.now requests.now
        (length requests.now) report.replies) }
    ensures pairs { IfOk result (λ report. report.pairs ≡ all_pairs_found (request_with stamps.now) store.now
        (mark_of (request_with stamps.now) (was_asked (all_visits shards.now.logs)) store.now) oracle.now) }
    ensures answers { IfOk result (λ report. report.answers ≡ []) }
{
    let replies = replies_of(alloc, requests, stamps, clients, store)?;
    let pairs = pairs_of(alloc, stamps, shards, store, oracle)?;
    Ok(Report {
        replies,
        pairs,
        order: Items::new(alloc),
        answers: Items::new(alloc),
    })
}
