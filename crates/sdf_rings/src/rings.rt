//! Rounds by hand: the seats of a run. Between two rounds, one owner has both ends of each ring.
//!
//! `round` runs all workers in parallel, with the calls of `busy`. `meet` synchronizes all ends. When all firings are
//! done, `finish` moves out the lists of the sinks, and `leave` takes the net state.

pub mod busy;
pub(crate) mod finish;
pub(crate) mod leave;
pub(crate) mod meet;
pub(crate) mod round;

ghost use Rattle.std.specs.Prelude.{◌≡◌, ◌+◌, ◌<◌, ◌≤◌, ◌⊎◌, ◌^◌, ◌-◌, ℕ, List, length, min, HoldsAt, IfErr, IfOk};
ghost use Rattle.sdf_rings.specs.Changes.{BecameAt, AllBecame, SameBut};
ghost use Rattle.sdf_rings.specs.Seats.{CanFireFirst, HasWorked, HasIdled, HasRounded};
ghost use Rattle.sdf_rings.specs.Rests.{AreRings, HaveMet, AreAtRest, HasDone, HoldsSamples};
ghost use Rattle.sdf_rings.specs.Quiescence.{AreQuiescent};
ghost use Rattle.sdf_rings.specs.Asks.{IsPlanned};
ghost use Rattle.sdf_rings.specs.Totals.{total_left};
ghost use Rattle.sdf_actor.specs.Laws.{AreCountsOf};
ghost use Rattle.sdf_actor.specs.Sides.{list_count};
ghost use Rattle.sdf_actor.specs.Wires.{lists};
ghost use Rattle.sdf_actor.specs.declared.sides.Lists.TheVariants.{Outputs};
ghost use Rattle.sdf_queues.specs.RunResults.{AreOutputs};
ghost use Rattle.sdf_queues.specs.Feeds.{HasRun};

use crate::rings::finish::collect;
use crate::rings::leave::leave;
use crate::rings::meet::sync_all;
use crate::rings::round::run_round;
use crate::seat::{Seat, work};
use crate::workers::Workers;
use sdf_actor::{Actor, Net, NetState};
use sdf_node::Gate;
use sdf_queues::RunFault;
use sdf_queues::laws::net_facts;
use std::alloc::{AllocError, Global};
use std::marker::Model;
use std::thread::Threads;

/// The seats of a run, and for each node its seat and its index there.
#[derive(Drop)]
pub struct Rings<'a, A: Actor> {
    alloc: Global,
    net: &'a Net<A>,
    inputs: &'a [Vec<A::Token>],
    seats: Vec<Seat<A>>,
    places: Vec<(usize, usize)>,
    /// One list for each output of the net. `finish` and `leave` swap in the lists of the sinks.
    outputs: Vec<Vec<A::Token>>,
}

impl<'a, A: Actor> Model for Rings<'a, A> {
    ghost use Rattle.std.specs.Prelude.{◌≡◌, length};
    ghost use Rattle.sdf_actor.specs.declared.sides.Lists.TheVariants.{Outputs};
    ghost use Rattle.sdf_actor.specs.Sides.{list_count};
    ghost use Rattle.sdf_actor.specs.Wires.{lists};
    ghost use Rattle.sdf_rings.specs.Rests.{RingsValue, AreRings};

    ghost Value = { RingsValue A A.State A.Token };

    ghost view = { λ r. record {
      net = r.net.now;
      inputs = lists r.inputs.now;
      seats = r.seats.items;
      places = r.places.items;
    } };

    ghost invariant = { λ r. AreRings A.steps (record {
      net = r.net.now;
      inputs = lists r.inputs.now;
      seats = r.seats.items;
      places = r.places.items;
    })
        × (length r.outputs.items ≡ list_count Outputs r.net.now.nodes) };
}

impl<'a, A: Actor> Rings<'a, A> {
    /// Returns the rings of a run from its `seats`, the `places` of the nodes, and a list in `outputs` for each output.
    pub(crate) fn new(
        alloc: Global,
        net: &'a Net<A>,
        inputs: &'a [Vec<A::Token>],
        seats: Vec<Seat<A>>,
        places: Vec<(usize, usize)>,
        outputs: Vec<Vec<A::Token>>,
    ) -> Rings<'a, A>
        requires rings { AreRings A.steps (record {
          net = net.now;
          inputs = lists inputs.now;
          seats = seats.items;
          places = places.items;
        }) }
        requires outputs { length outputs.items ≡ list_count Outputs net.now.nodes }
        ensures { result ≡ record {
          net = net.now;
          inputs = lists inputs.now;
          seats = seats.items;
          places = places.items;
        } }
    {
        Rings {
            alloc,
            net,
            inputs,
            seats,
            places,
            outputs,
        }
    }

    /// Returns the number of seats. Seat `i` is processor `i`.
    pub fn seats(&self) -> usize
        ensures { result ≡ length self.now.seats }
    {
        self.seats.len()
    }

    /// Returns how many firings node `actor` has done.
    pub fn done(&self, actor: usize) -> u64
        requires { actor < length self.now.net.nodes }
        ensures { HasDone self.now actor result }
    {
        let place = self.places[actor];
        self.seats[place.0].ring_nodes[place.1].done
    }

    /// Runs one round of worker `seat` in the caller's thread, and returns the number of firings done. `patience` is
    /// the spin limit.
    pub fn work_one<G: Gate>(&mut self, seat: usize, patience: u32, gate: &G) -> u64
        requires { seat < length self.old.seats }
        ensures worked { BecameAt (HasWorked A.steps self.new.net) self.old.seats self.new.seats seat }
        ensures count { BecameAt (λ old new. new.next ≡ old.next + result) self.old.seats self.new.seats seat }
        ensures stopped { HoldsAt (λ x. (x.next ≡ length x.left) ⊎ (CanFireFirst A.steps self.new.net x → ⊥))
            self.new.seats seat }
        ensures progress { HoldsAt (λ x. x.next < length x.left → CanFireFirst A.steps self.old.net x → 0 < result)
            self.old.seats seat }
        ensures same { (self.new.net ≡ self.old.net) × (self.new.inputs ≡ self.old.inputs)
            × (self.new.places ≡ self.old.places) × (length self.new.seats ≡ length self.old.seats) }
        ensures planned { (order : List ℕ) (cap : ℕ → ℕ) →
            IsPlanned A.steps self.old.net self.old.seats self.old.places order cap →
            IsPlanned A.steps self.new.net self.new.seats self.new.places order cap }
        ensures others { SameBut self.old.seats self.new.seats seat }
    {
        let net = self.net;
        let inputs = self.inputs;
        work(net, inputs, &mut self.seats[seat], patience, gate)
    }

    /// Runs one round of all workers in parallel. Of those with firings left, the last runs in this thread, each other
    /// in a new one. If all ends are synchronized and firings of a plan are left, the round does at least one of them.
    pub fn work_all<R: Threads + Sync, G: Gate>(&mut self, workers: Workers<'_, R, G>)
        ensures rounded { AllBecame (HasRounded A.steps self.new.net self.new.inputs) self.old.seats self.new.seats }
        ensures fires { HaveMet self.old.net self.old.seats self.old.places → (order : List ℕ) (cap : ℕ → ℕ) →
            IsPlanned A.steps self.old.net self.old.seats self.old.places order cap →
            0 < total_left self.old.seats → total_left self.new.seats < total_left self.old.seats }
        ensures planned { (order : List ℕ) (cap : ℕ → ℕ) →
            IsPlanned A.steps self.old.net self.old.seats self.old.places order cap →
            IsPlanned A.steps self.new.net self.new.seats self.new.places order cap }
        ensures same { (self.new.net ≡ self.old.net) × (self.new.inputs ≡ self.old.inputs)
            × (self.new.places ≡ self.old.places) × (length self.new.seats ≡ length self.old.seats) }
    {
        let net = self.net;
        let inputs = self.inputs;
        run_round(workers, net, inputs, &mut self.seats);
    }

    /// Returns how many firings are left in all seats, at most `u64::MAX`.
    #[tactic(auto, using(std::proofs::lemmas::List::Sums::sum_by_more))]
    pub fn left(&self) -> u64
        ensures { result ≡ min (total_left self.now.seats) (2 ^ 64 - 1) }
    {
        let mut left = 0u64;
        for seat in &self.seats {
            left = left.saturating_add((seat.left.len() - seat.next) as u64);
        }
        left
    }

    /// Returns how many samples `channel` holds. All ends must be synchronized.
    pub fn held(&self, channel: usize) -> u64
        requires known { channel < length self.now.net.wires }
        requires met { HaveMet self.now.net self.now.seats self.now.places }
        ensures { HoldsSamples self.now channel result }
    {
        let to = self.net.link(channel).to;
        let place = self.places[to.0];
        self.seats[place.0].ring_nodes[place.1].ins[to.1].cached_slots() as u64
    }

    /// Ends a round: synchronizes the two ends of each ring. It takes no memory, and never errs.
    pub fn meet(&mut self) -> Result<(), RunFault>
        ensures never { IfErr result (λ fault. ⊥) }
        ensures met { HaveMet self.new.net self.new.seats self.new.places }
        ensures rest { AreAtRest A.steps self.new.net self.new.inputs self.new.seats self.new.places }
        ensures quiescent { AreQuiescent A.steps self.new }
        ensures idle { AllBecame (HasIdled A.steps self.new.net) self.old.seats self.new.seats }
        ensures planned { (order : List ℕ) (cap : ℕ → ℕ) →
            IsPlanned A.steps self.old.net self.old.seats self.old.places order cap →
            IsPlanned A.steps self.new.net self.new.seats self.new.places order cap }
        ensures same { (self.new.net ≡ self.old.net) × (self.new.inputs ≡ self.old.inputs)
            × (self.new.places ≡ self.old.places) × (length self.new.seats ≡ length self.old.seats) }
    {
        let net = self.net;
        let inputs = self.inputs;
        sync_all(self.alloc, net, inputs, &mut self.seats, &self.places);
        self.at_rest();
        Ok(())
    }

    /// States what is true while all ends are synchronized, as `prepare` and `meet` leave them. Each channel was given
    /// its history at the firings done. The ring machine's state, as the seats give it, is quiescent and reached by a
    /// run.
    pub fn at_rest(&self)
        requires met { HaveMet self.now.net self.now.seats self.now.places }
        ensures rest { AreAtRest A.steps self.now.net self.now.inputs self.now.seats self.now.places }
        ensures quiescent { AreQuiescent A.steps self.now }
    {
        net_facts(self.net);
    }

    /// Runs one round of all workers, and then synchronizes the ends.
    fn round<R: Threads + Sync, G: Gate>(&mut self, workers: Workers<'_, R, G>)
        ensures met { HaveMet self.new.net self.new.seats self.new.places }
        ensures planned { (order : List ℕ) (cap : ℕ → ℕ) →
            IsPlanned A.steps self.old.net self.old.seats self.old.places order cap →
            IsPlanned A.steps self.new.net self.new.seats self.new.places order cap }
        ensures same { (self.new.net ≡ self.old.net) × (self.new.inputs ≡ self.old.inputs)
            × (self.new.places ≡ self.old.places) }
        ensures fires { HaveMet self.old.net self.old.seats self.old.places → (order : List ℕ) (cap : ℕ → ℕ) →
            IsPlanned A.steps self.old.net self.old.seats self.old.places order cap →
            0 < total_left self.old.seats → total_left self.new.seats < total_left self.old.seats }
    {
        self.work_all(workers);
        self.meet().unwrap();
    }

    /// Runs rounds until nothing is left of a plan, and returns their number. Each does at least one firing.
    pub fn run<R: Threads + Sync, G: Gate>(&mut self, workers: Workers<'_, R, G>) -> u64
        requires met { HaveMet self.old.net self.old.seats self.old.places }
        requires planned { (order : List ℕ) × ((cap : ℕ → ℕ)
            × IsPlanned A.steps self.old.net self.old.seats self.old.places order cap) }
        requires count { total_left self.old.seats < 2 ^ 64 }
        ensures met { HaveMet self.new.net self.new.seats self.new.places }
        ensures planned { (order : List ℕ) (cap : ℕ → ℕ) →
            IsPlanned A.steps self.old.net self.old.seats self.old.places order cap →
            IsPlanned A.steps self.new.net self.new.seats self.new.places order cap }
        ensures same { (self.new.net ≡ self.old.net) × (self.new.inputs ≡ self.old.inputs)
            × (self.new.places ≡ self.old.places) }
        ensures done { total_left self.new.seats ≡ 0 }
        ensures rounds { result ≤ total_left self.old.seats }
        ensures some { 0 < total_left self.old.seats → 0 < result }
    {
        let mut rounds = 0;
        'rounds: while self.left() > 0 {
            self.round(workers);
            rounds += 1;
        }
        rounds
    }

    /// Returns the output lists, if nothing is left of a plan. It takes no memory.
    pub fn finish(self) -> Vec<Vec<A::Token>>
        requires left { total_left self.seats ≡ 0 }
        ensures { (order : List ℕ) (cap k : ℕ → ℕ) →
            IsPlanned A.steps self.entry.net self.entry.seats self.entry.places order cap →
            AreCountsOf self.entry.net order k →
            AreOutputs A.steps self.entry.net self.entry.inputs k (lists result.items) }
    {
        let Rings {
            alloc,
            net,
            inputs,
            mut seats,
            places,
            mut outputs,
        } = self;
        net_facts(net);
        sync_all(alloc, net, inputs, &mut seats, &places);
        collect(net, &mut seats, &places, &mut outputs);
        outputs
    }

    /// Returns the output lists and the net state: the states of the actors and the samples on the channels. Another
    /// run can resume from it.
    pub fn leave(self) -> Result<(Vec<Vec<A::Token>>, NetState<A::Token, A::State>), AllocError>
        requires left { total_left self.seats ≡ 0 }
        requires met { HaveMet self.net self.seats self.places }
        ensures { IfOk result (λ made. (order : List ℕ) (cap k : ℕ → ℕ) →
            IsPlanned A.steps self.entry.net self.entry.seats self.entry.places order cap →
            AreCountsOf self.entry.net order k →
            HasRun A.steps self.entry.net self.entry.inputs k (lists made.0.items) made.1) }
    {
        let Rings {
            alloc,
            net,
            inputs,
            mut seats,
            places,
            mut outputs,
        } = self;
        net_facts(net);
        let rest = leave(alloc, net, &mut seats, &places)?;
        collect(net, &mut seats, &places, &mut outputs);
        Ok((outputs, rest))
    }
}
