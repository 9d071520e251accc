// What a paper is about.
use crate::target::Target;
use judge::stated::Stated;

// A target, and what is claimed of it.
#[derive(Clone, Copy)]
pub struct Aim {
    pub target: Target,
    pub stated: Stated,
}
