// Names by number: the nodes follow the characters without a gap.
ghost use Rattle.std.specs.Prelude.{◌≡◌, ◌<◌, ◌^◌};
ghost use Rattle.long_names.specs.Names.{IsName};
ghost use Rattle.loom_gen.specs.Table as table;
ghost use Rattle.loom_gen.specs.Generated as generated;

use crate::names::FIRST_NODE;
use long_names::Name;

/// An image has so many nodes more than the one before it.
pub const NODES_PER_NUMBER: u32 = 1000;

/// From a node to the one that it holds.
pub const STRIDE: u32 = 331;

/// The name of this long word, which is even and above 0.
pub(crate) fn name(word: u32) -> Name
    requires { IsName word }
    ensures { result ≡ word }
{
    let Some(name) = Name::new(word) else {
        unreachable!()
    };
    name
}

/// How many nodes the image of this number has.
pub(crate) fn node_count(number: u8) -> u32
    ensures { result ≡ generated.node_count number }
{
    NODES_PER_NUMBER * (u32::from(number) + 1)
}

/// The name of node j.
pub(crate) fn node_name(j: u32) -> Name
    requires { table.node_name j < 2 ^ 32 }
    ensures { result ≡ table.node_name j }
{
    name(FIRST_NODE + 2 * j)
}
