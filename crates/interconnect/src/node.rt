//! A node of the tree.

use link::Simplex;
use std::marker::Model;

/// The host, a switch or a function, with the directions of links that lead out of it, by output.
#[derive(Drop)]
pub(crate) struct Node {
    /// The directions that lead out of it, by the number of the output.
    pub outputs: Vec<Simplex>,
}

impl Model for Node {
    ghost use Rattle.std.specs.Prelude.{List};
    ghost use Rattle.link.specs.Simplexes.{SimplexView};

    ghost Value = { List SimplexView };

    ghost view = { λ n. n.outputs.items };
}
