//! One packet of a batch: what it will do is decided first, on the flows as its sweep will leave them; then it is done, or refused and
//! nothing is done.
#![tactic(auto)]

pub mod perform;
pub mod size;
pub mod steady;

ghost use Rattle.plan.specs.Plan.{PlanAsked};
ghost use Rattle.packet.specs.Step.{PacketAsked, PacketDone};
ghost use Rattle.packet.specs.Doing.{PlannedAt};

use crate::perform::carry_out;
use decide::decide::decide;
use flow::time::{Idle, Nanos, TimeResolution};
use forms::refusal::Refusal;
use plan::sweep::plan_at;
use sweeps::clock::clock_at;
use wire::packet::Packet;

/// What one packet did: the refusal, if there is one; whether it opened a flow; the records that it finished, and their bytes.
#[derive(Clone, Copy)]
pub struct Step {
    pub refusal: Option<Refusal>,
    pub opened: bool,
    pub records: usize,
    pub bytes: usize,
}

/// The clock once a packet's sweep is done, and how many flows leave by it.
#[derive(Clone, Copy)]
pub struct Plan {
    pub clock: Nanos,
    pub count: usize,
}

// The plan of the sweep at a packet's time: the slots of the flows that leave go into the list.
fn plan_packet(
    state: &mut [u8],
    capacity: usize,
    idle: Idle,
    time: Nanos,
    leaving: &mut [u16],
) -> Plan
    requires { PlanAsked capacity idle.timeout.0 idle.lateness.0 state.old leaving.old }
    ensures { PlannedAt capacity idle.timeout.0 idle.lateness.0 time.0 state.old state.new leaving.new result }
{
    let header = table::load_header(state);
    let clock = clock_at(idle.timeout, header.clock, time);
    let count = plan_at(state, capacity, idle, clock, leaving);
    Plan { clock, count }
}

/// One packet: its sweep is planned, what it does is decided, and then it is done; or it is refused and nothing is done.
pub fn one_packet(
    state: &mut [u8],
    capacity: usize,
    idle: Idle,
    resolution: TimeResolution,
    packet: Packet,
    bytes: &[u8],
    index: &mut [u32],
    free: &mut [u16],
    leaving: &mut [u16],
    out: &mut [u8],
) -> Step
    requires { PacketAsked state.old index.old free.old leaving.old capacity idle resolution packet bytes.now }
    ensures { PacketDone packet state.old out.old capacity idle resolution result state.new out.new index.new free.new }
{
    let plan = plan_packet(state, capacity, idle, packet.facts.time, leaving);
    let clock = plan.clock;
    let n = plan.count;
    let room = free[0] as usize + n;
    let decision = decide(
        state, capacity, index, room, idle, clock, resolution, packet, bytes,
    );
    carry_out(
        state, capacity, idle, clock, leaving, n, decision, bytes, index, free, out,
    )
}
