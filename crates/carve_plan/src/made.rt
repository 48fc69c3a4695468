// Chains as they are made, step by step, and their nodes counted.
ghost use Rattle.std.specs.Prelude.{◌≡◌, ◌+◌, ◌++◌, ◌∷◌, ◌<◌, ◌≤◌, [], List, IfErr, OnOk, length};
ghost use Rattle.plane_exact.specs.Cone.{IsFromOneTo};
ghost use Rattle.plane_exact.specs.Nodes.{joined};
ghost use Rattle.plane_exact.specs.declared.node.TheConstants.{MOST_NODES};
ghost use Rattle.engrave_model.specs.Drawing.{edges_of};
ghost use Rattle.link_split.specs.Link.{IsLink};
ghost use Rattle.link_split.specs.declared.step.Step.{Step};
ghost use Rattle.carve_plan.specs.Chains.{AreChainsAround, chains_along};
ghost use Rattle.carve_plan.specs.Made.{IsCounted, IsMadeFault, IsRoundMade, IsWayMade, nodes_of};
ghost use Rattle.carve_plan.specs.declared.round.TheConstants.{MOST_HALVED};

use crate::fault::PlanFault;
use crate::round::MOST_HALVED;
use crate::stop::Stop;
use depth_rule::Scene;
use link_split::{Step, link};
use plane_exact::{Bit, Chain, MOST_DEPTH, MOST_NODES, Node};
use std::alloc::{AllocError, Global};
use std::mem::replace;

/// The chains that are made.
#[derive(Drop)]
pub struct Made {
    pub chains: Vec<Chain>,
    /// How many nodes there are, at most 4,194,304: those of the chains, and of the one that is under way.
    pub nodes: usize,
}

impl Made {
    /// Makes the chains round a loop, from its first node through those of the other stops and back.
    pub fn add_round(
        &mut self,
        alloc: Global,
        scene: &Scene,
        bit: &Bit,
        limit: u32,
        first: Node,
        others: &[Stop],
    ) -> Result<(), PlanFault>
        requires limit { IsFromOneTo MOST_DEPTH limit }
        requires counted { IsCounted self.old.nodes self.old.chains.items }
        ensures made { OnOk result (IsRoundMade (edges_of scene.now) bit.now limit first (nodes_of others.now) self.old.chains.items self.new.chains.items) }
        ensures counted { OnOk result (IsCounted self.new.nodes self.new.chains.items) }
        ensures fault { IfErr result (IsMadeFault (AreChainsAround (edges_of scene.now) bit.now limit first (nodes_of others.now)) (λ chains. length (joined (self.old.chains.items ++ chains)))) }
    {
        self.count(1)?;
        let mut chain = Chain::one(alloc, first)?;
        let mut at = first;
        for stop in others {
            self.go(alloc, scene, bit, limit, &mut chain, at, stop.node)?;
            at = stop.node;
        }
        self.go(alloc, scene, bit, limit, &mut chain, at, first)?;
        self.chains.push(chain)?;
        Ok(())
    }

    // Goes on from one node to another, by their link.
    fn go(
        &mut self,
        alloc: Global,
        scene: &Scene,
        bit: &Bit,
        limit: u32,
        chain: &mut Chain,
        from: Node,
        to: Node,
    ) -> Result<(), PlanFault>
        requires limit { IsFromOneTo MOST_DEPTH limit }
        requires few { self.old.nodes ≤ MOST_NODES }
        ensures made { OnOk result (IsWayMade (IsLink (edges_of scene.now) bit.now limit MOST_HALVED from to) self.old chain.old self.new chain.new) }
        ensures few { OnOk result (self.new.nodes ≤ MOST_NODES) }
        ensures fault { IfErr result (IsMadeFault (IsLink (edges_of scene.now) bit.now limit MOST_HALVED from to) (λ steps. self.old.nodes + length steps)) }
    {
        let steps = link(alloc, scene, bit, limit, from, to, MOST_HALVED)?;
        self.count(steps.len())?;
        self.follow(alloc, chain, &steps)?;
        Ok(())
    }

    // Takes the steps in turn.
    fn follow(&mut self, alloc: Global, chain: &mut Chain, steps: &[Step]) -> Result<(), AllocError>
        ensures made { OnOk result ((rest : List Step) → self.old.chains.items ++ chains_along chain.old (steps.now ++ rest) ≡ self.new.chains.items ++ chains_along chain.new rest) }
        ensures unchanged { self.new.nodes ≡ self.old.nodes }
    {
        for step in steps {
            self.take(alloc, chain, *step)?;
        }
        Ok(())
    }

    // Takes one step: a straight one adds its node to the chain, and a lift ends the chain and begins the next.
    fn take(&mut self, alloc: Global, chain: &mut Chain, step: Step) -> Result<(), AllocError>
        ensures made { OnOk result ((rest : List Step) → self.old.chains.items ++ chains_along chain.old (step ∷ rest) ≡ self.new.chains.items ++ chains_along chain.new rest) }
        ensures unchanged { self.new.nodes ≡ self.old.nodes }
    {
        match step {
            Step::To(node) => chain.push(node)?,
            Step::Lift(node) => {
                let ended = replace(chain, Chain::one(alloc, node)?);
                self.chains.push(ended)?;
            }
        }
        Ok(())
    }

    // Counts so many nodes more.
    fn count(&mut self, more: usize) -> Result<(), PlanFault>
        requires { self.old.nodes ≤ MOST_NODES }
        ensures counted { OnOk result (self.new.nodes ≡ self.old.nodes + more) }
        ensures few { OnOk result (self.new.nodes ≤ MOST_NODES) }
        ensures unchanged { self.new.chains ≡ self.old.chains }
        ensures fault { IfErr result (λ fault. (fault ≡ PlanFault.TooManyNodes) × (MOST_NODES < self.old.nodes + more)) }
    {
        if more > MOST_NODES - self.nodes {
            return Err(PlanFault::TooManyNodes);
        }
        self.nodes += more;
        Ok(())
    }
}
