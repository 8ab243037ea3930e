ghost use Rattle.std.specs.Prelude.{◌≡◌};
ghost use Rattle.flow_model.specs.Instance.{Net, IsInstance};

use std::marker::Model;

/// One piece of a direction: it leads from one node to another, has room for `room` units, and each unit costs `cost`.
/// `dir` is the index of its direction in the view.
#[derive(Clone, Copy, Debug, PartialEq, Eq)]
pub struct Arc {
    pub from: u32,
    pub to: u32,
    pub room: u64,
    pub cost: u64,
    pub dir: u32,
}

/// A problem of a cheapest flow, within the bounds of `IsInstance`: at most `NODES_MAX` nodes and `ARCS_MAX` arcs, whose
/// ends are nodes; rooms and demand of 1 to `MAX` units, costs of 1 to `COST_MAX`; the arcs of one direction are
/// together, with equal ends and costs that never fall.
#[derive(Debug, Drop)]
pub struct Instance {
    nodes: u32,
    source: u32,
    destination: u32,
    demand: u64,
    arcs: Vec<Arc>,
}

impl Model for Instance {
    ghost use Rattle.flow_model.specs.Instance.{Net, IsInstance};

    ghost Value = { Net };

    ghost view = { λ i. record {
      nodes = i.nodes;
      source = i.source;
      destination = i.destination;
      demand = i.demand;
      arcs = i.arcs.items;
    } };

    ghost invariant = { λ i. IsInstance (record {
      nodes = i.nodes;
      source = i.source;
      destination = i.destination;
      demand = i.demand;
      arcs = i.arcs.items;
    }) };
}

impl Instance {
    /// The instance of these numbers and arcs. No memory is taken.
    pub fn new(nodes: u32, source: u32, destination: u32, demand: u64, arcs: Vec<Arc>) -> Instance
        requires { IsInstance (record {
          nodes = nodes;
          source = source;
          destination = destination;
          demand = demand;
          arcs = arcs.items;
        }) }
        ensures { result ≡ record {
          nodes = nodes;
          source = source;
          destination = destination;
          demand = demand;
          arcs = arcs.items;
        } }
    {
        Instance {
            nodes,
            source,
            destination,
            demand,
            arcs,
        }
    }

    /// The number of nodes.
    pub fn nodes(&self) -> u32
        ensures value { result ≡ self.now.nodes }
        ensures bounds { IsInstance self.now }
    {
        self.nodes
    }

    /// The node that units are sent from.
    pub fn source(&self) -> u32
        ensures { result ≡ self.now.source }
    {
        self.source
    }

    /// The node that units are sent to.
    pub fn destination(&self) -> u32
        ensures { result ≡ self.now.destination }
    {
        self.destination
    }

    /// How many units are to be sent.
    pub fn demand(&self) -> u64
        ensures { result ≡ self.now.demand }
    {
        self.demand
    }

    /// The arcs, in the order of directions and then of pieces.
    pub fn arcs(&self) -> &[Arc]
        ensures value { result.now ≡ self.now.arcs }
        ensures bounds { IsInstance self.now }
    {
        self.arcs.as_slice()
    }
}
