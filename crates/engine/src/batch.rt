// Feeding a batch: its packets one after another, to its empty end; only a refused packet stops it.
ghost use Rattle.forms.specs.Refusals.{refusal_of};
ghost use Rattle.std.specs.Prelude.{◌≡◌, false, ◌+◌, ◌<◌, length, Some};
ghost use Rattle.forms.specs.Form.{got};
ghost use Rattle.forms.specs.At.{read_at};
ghost use Rattle.wire.specs.PacketForm.{packet, facts as factsForm};
ghost use Rattle.packet.specs.Steady.{quiet_step};
ghost use Rattle.state.specs.State.{settings_in, meaning};
ghost use Rattle.sweeps.specs.Steps.{SoundReady};
ghost use Rattle.engine.specs.Batch.{parsed, feed_bytes};
ghost use Rattle.engine.specs.Feed.{FedAs};
ghost use Rattle.engine.specs.FeedOne.{OneAsked, OneFed, count_of};
ghost use Rattle.engine.specs.FeedLoop.{nothing_yet, stopped_by, added_to, SumsFit, AllAsked};

use crate::FeedAnswer;
use flow::record::PacketFacts;
use flow::time::{Idle, TimeResolution};
use forms::refusal::Refusal;
use forms::stop::Stop;
use key::form::read_key_at;
use packet::steady::take_steady;
use packet::{Step, one_packet};
use plain::plain_at;
use wire::packet::{Packet, read_facts_at};
use wire::record::resolution_from;

// One packet of the batch: what it did, and where the next one begins.
#[derive(Clone, Copy)]
pub struct Taken {
    pub step: Step,
    pub next: usize,
}

// What is refused before it is a packet.
fn unread(stop: Stop, at: usize) -> Taken
    ensures { result ≡ record { step = record { refusal = Some (refusal_of stop); opened = false; records = 0; bytes = 0 }; next = at } }
{
    Taken {
        step: Step {
            refusal: Some(Refusal::from(stop)),
            opened: false,
            records: 0,
            bytes: 0,
        },
        next: at,
    }
}

// A packet that was counted on an open flow, where nothing else happened.
fn nothing_done() -> Step
    ensures { result ≡ quiet_step }
{
    Step {
        refusal: None,
        opened: false,
        records: 0,
        bytes: 0,
    }
}

// The packet whose facts have been read, by the general way.
fn feed_behind(
    state: &mut [u8],
    capacity: usize,
    idle: Idle,
    resolution: TimeResolution,
    batch: &[u8],
    at: usize,
    facts: PacketFacts,
    from: usize,
    index: &mut [u32],
    free: &mut [u16],
    leaving: &mut [u16],
    out: &mut [u8],
) -> Taken
    requires one_asked { OneAsked state.old index.old free.old leaving.old capacity idle resolution batch.now at }
    requires at_value { read_at factsForm batch.now at ≡ got facts from }
    ensures { OneFed (read_at packet batch.now at) state.old out.old index.old free.old capacity idle resolution result state.new out.new index.new free.new }
{
    match read_key_at(batch, from) {
        Ok((key, next)) => {
            let step = one_packet(
                state,
                capacity,
                idle,
                resolution,
                Packet { facts, key },
                &batch[from..next],
                index,
                free,
                leaving,
                out,
            );
            Taken { step, next }
        }
        Err(stop) => unread(stop, at),
    }
}

// The packet at a place of the batch. Most have a plain key and a flow that is open and stays open: for those there is a short way.
// Each step here is a call with one caller, which makes the code fast.
fn feed_one(
    state: &mut [u8],
    capacity: usize,
    idle: Idle,
    resolution: TimeResolution,
    batch: &[u8],
    at: usize,
    index: &mut [u32],
    free: &mut [u16],
    leaving: &mut [u16],
    out: &mut [u8],
) -> Taken
    requires { OneAsked state.old index.old free.old leaving.old capacity idle resolution batch.now at }
    ensures { OneFed (read_at packet batch.now at) state.old out.old index.old free.old capacity idle resolution result state.new out.new index.new free.new }
{
    match read_facts_at(batch, at) {
        Ok((facts, from)) => {
            if let Some(key) = plain_at(batch, from) {
                if take_steady(state, capacity, idle, facts, batch, from, key, index) {
                    return Taken {
                        step: nothing_done(),
                        next: key.next,
                    };
                }
            }
            feed_behind(
                state, capacity, idle, resolution, batch, at, facts, from, index, free, leaving,
                out,
            )
        }
        Err(why) => unread(why, at),
    }
}

fn count_of(opened: bool) -> usize
    ensures { result ≡ count_of opened }
{
    if opened { 1 } else { 0 }
}

pub(crate) fn nothing_yet() -> FeedAnswer
    ensures { result ≡ nothing_yet }
{
    FeedAnswer {
        refusal: None,
        packets: 0,
        used: 0,
        opened: 0,
        records: 0,
        bytes: 0,
    }
}

// What was done before a refusal stands.
pub(crate) fn stopped(refusal: Refusal, before: FeedAnswer) -> FeedAnswer
    ensures { result ≡ stopped_by (Some refusal) before }
{
    FeedAnswer {
        refusal: Some(refusal),
        ..before
    }
}

// One packet more.
fn added(before: FeedAnswer, taken: Taken) -> FeedAnswer
    requires { SumsFit before taken }
    ensures { result ≡ added_to before taken }
{
    let step = taken.step;
    FeedAnswer {
        refusal: None,
        packets: before.packets + 1,
        used: taken.next,
        opened: before.opened + count_of(step.opened),
        records: before.records + step.records,
        bytes: before.bytes + step.bytes,
    }
}

// Every packet of the batch, in order, to its empty end.
fn feed_all(
    state: &mut [u8],
    capacity: usize,
    idle: Idle,
    resolution: TimeResolution,
    batch: &[u8],
    index: &mut [u32],
    free: &mut [u16],
    leaving: &mut [u16],
    out: &mut [u8],
) -> FeedAnswer
    requires { AllAsked state.old index.old free.old leaving.old capacity idle resolution }
    ensures { FedAs (feed_bytes (settings_in state.old) (length out.old) batch.now (meaning state.old)) (parsed batch.now).packets state.old out.old result state.new out.new }
{
    let mut answer = nothing_yet();
    while answer.used < batch.len() {
        let at = answer.used;
        let filled = answer.bytes;
        let taken = feed_one(
            state,
            capacity,
            idle,
            resolution,
            batch,
            at,
            index,
            free,
            leaving,
            &mut out[filled..],
        );
        if let Some(refusal) = taken.step.refusal {
            return stopped(refusal, answer);
        }
        answer = added(answer, taken);
    }
    answer
}

// A batch on a sound state.
pub(crate) fn feed_sound(
    state: &mut [u8],
    batch: &[u8],
    index: &mut [u32],
    free: &mut [u16],
    out: &mut [u8],
) -> FeedAnswer
    requires { SoundReady state.old index.old free.old }
    ensures { FedAs (feed_bytes (settings_in state.old) (length out.old) batch.now (meaning state.old)) (parsed batch.now).packets state.old out.old result state.new out.new }
{
    let header = table::load_header(state);
    let idle = Idle {
        timeout: header.timeout,
        lateness: header.lateness,
    };
    let mut leaving = [0u16; 4096];
    feed_all(
        state,
        header.capacity as usize,
        idle,
        resolution_from(header.resolution),
        batch,
        index,
        free,
        &mut leaving,
        out,
    )
}
