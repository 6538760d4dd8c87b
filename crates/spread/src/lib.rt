// 01, "Box construction": where the places of every action stand in the whole net, worked out from the counts of the nodes.
#![tactic(auto)]

pub mod walk;

ghost use Rattle.std.specs.Prelude.{◌≡◌};
ghost use Rattle.spread.specs.inner.Numbers.{told_on};

use net::Side;

/// What is told of an action: its node, whose lists say where the action's places stand, and how many it has on each side.
#[derive(Clone, Copy, Debug, Default, PartialEq, Eq)]
pub struct Told {
    pub node: u16,
    pub inputs: u16,
    pub outputs: u16,
}

impl Told {
    /// How many places the action has on one side.
    pub fn on(self, side: Side) -> u16
        ensures { result ≡ told_on side self }
    {
        match side {
            Side::Inputs => self.inputs,
            Side::Outputs => self.outputs,
        }
    }
}
