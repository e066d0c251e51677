//! Two changes of a label that `run_edits` doesn't have: giving it a node, and marking it as
//! mirrored. To edit a table, `run_edits` applies a change to the label of each address in a range.
ghost use Rattle.std.specs.Prelude.{◌≡◌, ◌<◌, Some};
ghost use Rattle.std.specs.Option.{option_map};
ghost use Rattle.memblock_model.specs.Labels.{with_node, with_mirror};

use memblock_model::Label;
use run_edits::Change;

/// A change that sets the node of a label to `node`. An address without a label isn't memory, and
/// stays without one (`memblock_set_node`).
#[derive(Clone, Copy)]
pub struct SetNode {
    pub node: u32,
    ghost small: { node < 1024 },
}

impl Change<Label> for SetNode {
    ghost makes = { λ c carried. option_map (with_node (Some c.node)) carried };

    fn apply(self, carried: Option<Label>) -> Option<Label>
        ensures { result ≡ option_map (with_node (Some self.node)) carried }
    {
        match carried {
            Some(label) => Some(label.with_node(self.node)),
            None => None,
        }
    }
}

/// A change that marks a label as mirrored. An address without a label isn't memory, and stays
/// without one (`memblock_mark_mirror`).
#[derive(Clone, Copy)]
pub struct SetMirror;

impl Change<Label> for SetMirror {
    ghost makes = { λ c carried. option_map with_mirror carried };

    fn apply(self, carried: Option<Label>) -> Option<Label>
        ensures { result ≡ option_map with_mirror carried }
    {
        match carried {
            Some(label) => Some(label.with_mirror()),
            None => None,
        }
    }
}
