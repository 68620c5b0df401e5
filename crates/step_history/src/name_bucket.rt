// In which class a name is, by its hash.
ghost use Rattle.std.specs.Prelude.{◌≡◌, ◌<◌, ◌%◌};
ghost use Rattle.std.specs.Hash.FoldHasher.{finish};
ghost use Rattle.step_history.specs.SettledNames.{bucket};

use std::hash::{FoldHasher, Hash, Hasher};
use step_names::StepName;

/// How many classes there are: a prime number.
pub(crate) const BUCKETS: u32 = 8191;

/// The class of a name.
#[tactic(auto, unfolding(crate::specs::SettledNames::bucket))]
pub(crate) fn bucket(name: &StepName) -> u32
    ensures bucket { result ≡ bucket name.now }
    ensures below { result < 8191 }
{
    let mut hasher = FoldHasher::default();
    name.thread.exec().hash(&mut hasher);
    name.thread.path().hash(&mut hasher);
    name.no.hash(&mut hasher);
    bucket_of(&hasher)
}

fn bucket_of(hasher: &FoldHasher) -> u32
    ensures bucket { result ≡ finish hasher.now % 8191 }
    ensures below { result < 8191 }
{
    (hasher.finish() % u64::from(BUCKETS)) as u32
}
