// Laws of frames: each call does nothing, and its contract is the law.
ghost use Rattle.asl_frames.specs.Laws.{EqualityIsOfFrames};

/// `==` says whether two frames are one: what they have room for is no part of it.
pub fn equality_is_of_frames()
    ensures { EqualityIsOfFrames }
{}
