//! The findings of the accounts of a file.
ghost use Rattle.std.specs.Prelude.{◌≡◌, ◌<◌, [], MatchOption, Some, length, slice_get};

use crate::finding::Finding;

/// All findings of the accounts of a file: one or more.
#[derive(Debug, Drop)]
pub struct Findings {
    items: Vec<Finding>,
    ghost some: { 0 < length items.items },
}

#[tactic(auto, unfolding(crate::specs::ShownFindings::findings_in))]
impl Findings {
    ghost use Rattle.bolt_check.specs.ShownFindings.{findings_in};

    /// The findings in a list, if there is any.
    pub(crate) fn of(items: Vec<Finding>) -> Option<Findings>
        ensures { MatchOption result (items.items ≡ []) (λ findings. findings_in findings
            ≡ items.items) }
    {
        if items.is_empty() {
            return None;
        }
        Some(Findings { items })
    }

    /// The first of them.
    pub fn first(&self) -> Finding
        ensures { slice_get (findings_in self.now) 0 ≡ Some result }
    {
        self.items[0]
    }

    /// All of them, in the order in which they are reported.
    pub fn as_slice(&self) -> &[Finding]
        ensures { result.now ≡ findings_in self.now }
    {
        self.items.as_slice()
    }
}
