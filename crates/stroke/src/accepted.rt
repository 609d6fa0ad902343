// A stroke that is accepted over an image.
ghost use Rattle.std.specs.Prelude.{◌≡◌, Ok};
ghost use Rattle.stroke_check.specs.Check.{accept_of};
ghost use Rattle.stroke_check.proofs.Outcomes.{outcome_set};

use crate::image::Image;
use crate::walk::Walk;
use types::{RefusalAt, Vec2};

// A stroke from p0 to p1 that no test of stroke_check refuses.
#[derive(Clone, Copy, Debug, PartialEq)]
pub struct Accepted {
    pub image: Image,
    pub p0: Vec2,
    pub p1: Vec2,
    pub ghost accepted: { accept_of image.width image.height p0 p1 ≡ Ok tt } by { outcome_set _ _ },
}

impl Accepted {
    ghost use Rattle.std.specs.Prelude.{Err, IfOk, OnOk, IfErr};
    ghost use Rattle.stroke.specs.Walk.{along_x, along_y};
    ghost use Rattle.stroke.specs.Steps.{Paced};

    // The stroke, or the refusal of the first test that it does not pass. The sides and the ends stand by themselves, as C hands them.
    #[tactic(auto, using(crate::proofs::Images::accepted_sides))]
    pub fn new(width: usize, height: usize, p0: Vec2, p1: Vec2) -> Result<Self, RefusalAt>
        ensures image { IfOk result (λ stroke. (stroke.image.width ≡ width) × (stroke.image.height ≡ height)) }
        ensures ends { IfOk result (λ stroke. (stroke.p0 ≡ p0) × (stroke.p1 ≡ p1)) }
        ensures accepted { OnOk result (accept_of width height p0 p1 ≡ Ok tt) }
        ensures refused { IfErr result (λ at. accept_of width height p0 p1 ≡ Err at) }
    {
        stroke_check::accept(width, height, p0, p1)?;
        Ok(Accepted {
            image: Image { width, height },
            p0,
            p1,
        })
    }

    // Its walk. No step adds more than a pixel to x or to y, and the walk leaves the ranges of the ends by itself.
    pub fn walk(self) -> Walk
        ensures x { result.x ≡ along_x self.p0 self.p1 }
        ensures y { result.y ≡ along_y self.p0 self.p1 }
        ensures paced { Paced result.x result.y }
    {
        Walk::between(self.p0, self.p1)
    }
}
