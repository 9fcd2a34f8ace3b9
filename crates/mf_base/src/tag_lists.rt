//! The lists of indices that tell the tags of an object.

use crate::packed::first_packed;

// Indices of entries, as whole varints: keys and values in two lists, or in one in which they take turns.
#[derive(Clone, Copy, Debug, PartialEq, Eq)]
pub(crate) enum TagLists<'a> {
    Columns { keys: &'a [u8], vals: &'a [u8] },
    Run { run: &'a [u8] },
}

impl<'a> TagLists<'a> {
    ghost use Rattle.std.specs.Prelude.{◌≡◌, [], ◌∷◌, true, MatchOption, IfSome};
    ghost use Rattle.mf_base.specs.TagLists.{pairs_in, are_whole};

    // The first pair of indices, and the lists behind it.
    pub(crate) fn first(self) -> Option<((u64, u64), TagLists<'a>)>
        requires { are_whole self ≡ true }
        ensures pairs { MatchOption result (pairs_in self.entry ≡ []) (λ first. pairs_in self.entry
            ≡ first.0 ∷ pairs_in first.1) }
        ensures whole { IfSome result (λ first. are_whole first.1 ≡ true) }
    {
        match self {
            TagLists::Columns { keys, vals } => {
                let (key, keys) = first_packed(keys)?;
                let (val, vals) = first_packed(vals)?;
                Some(((key, val), TagLists::Columns { keys, vals }))
            }
            TagLists::Run { run } => {
                let (key, run) = first_packed(run)?;
                let (val, run) = first_packed(run)?;
                Some(((key, val), TagLists::Run { run }))
            }
        }
    }
}
